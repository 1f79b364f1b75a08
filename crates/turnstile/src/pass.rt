//! A pass and a note, as their holders have them.
ghost use Rattle.std.specs.Prelude.{◌≡◌, ◌<◌, IfSome};

use crate::object::Object;
use crate::view::View;
use atomic_table::Seat;
use std::marker::Model;

pub(crate) type Place<O> = Seat<Option<O>, View<O, <O as Object>::Entry, <O as Object>::Fixed>>;

/// The right to make turns, with a number of its own. Contracts see what its holder knows. Between
/// calls it holds neither a ticket nor the object.
#[derive(Drop)]
pub struct Pass<O: Object> {
    pub(crate) number: u64,
    pub(crate) seat: Place<O>,
}

impl<O: Object> Model for Pass<O> {
    ghost use Rattle.std.specs.Prelude.{◌≡◌, ◌<◌, IfSome};
    ghost use Rattle.turnstile.specs.Passes.{PassState};
    ghost use Rattle.turnstile.specs.Places.{IsAtRest, known_of, held_of};

    ghost Value = { PassState O.Entry O.Fixed };

    ghost view = { λ p. held_of p.seat.table_id p.seat.me };

    ghost invariant = { λ p. IsAtRest p.seat.me
        × ((known_of p.seat.me).number ≡ p.number)
        × IfSome p.seat.me.0.terms (λ t. p.number < t.count) };
}

impl<O: Object> Pass<O> {
    /// Its number, from 0 to one less than the number of passes.
    pub fn number(&self) -> u64
        ensures number { result ≡ self.now.number }
        ensures below { IfSome self.now.lock (λ lock. result < lock.count) }
    {
        self.number
    }
}

/// What a pass had seen when it gave this note. Contracts see it as that.
#[derive(Drop)]
pub struct Note<O: Object> {
    pub(crate) seat: Place<O>,
}

impl<O: Object> Model for Note<O> {
    ghost use Rattle.turnstile.specs.Passes.{Told};
    ghost use Rattle.turnstile.specs.Places.{IsNote, told_of};

    ghost Value = { Told O.Entry O.Fixed };

    ghost view = { λ n. told_of n.seat.table_id n.seat.me };

    ghost invariant = { λ n. IsNote n.seat.me };
}
