//! What each step tells the seat that makes it. These types are for the proofs alone.
ghost use Rattle.turnstile.specs.Steps.{counts, draws, called, ends, dealt, dealt_one, note_of, spent_view, heard, gathered, learns};

use crate::object::Object;
use crate::view::View;
use atomic_table::{Join, Play, Split};

/// A load of the ticket word: how many turns are drawn.
pub struct Count;

impl<O, E, F> Play<Option<O>, View<O, E, F>> for Count {
    ghost then = { counts };
}

/// A ticket is drawn.
pub struct Draw;

impl<O, E, F> Play<Option<O>, View<O, E, F>> for Draw {
    ghost then = { draws };
}

/// A load of the served word, which takes the object where it finds the seat's ticket.
pub struct Take;

impl<O: Object> Play<Option<O>, View<O, O::Entry, O::Fixed>> for Take {
    ghost then = { called O.log O.by O.mark O.fixed };
}

/// The object goes back, and the turn joins the history.
pub struct End;

impl<O: Object> Play<Option<O>, View<O, O::Entry, O::Fixed>> for End {
    ghost then = { ends O.log O.mark };
}

/// A load of the ticket word, by which a pass has seen what its seat was told.
pub struct Learn;

impl<O: Object> Play<Option<O>, View<O, O::Entry, O::Fixed>> for Learn {
    ghost then = { learns O.by };
}

/// The first pass of a seat goes to a seat of its own.
pub struct Deal;

impl<O, E, F> Split<View<O, E, F>> for Deal {
    ghost left = { dealt };

    ghost right = { dealt_one };
}

/// A new seat is told what a pass knows.
pub struct Tell;

impl<O, E, F> Split<View<O, E, F>> for Tell {
    ghost left = { λ v. v };

    ghost right = { note_of };
}

/// A seat takes over what another was told.
pub struct Hear;

impl<O, E, F> Join<View<O, E, F>> for Hear {
    ghost both = { heard };

    ghost spent = { spent_view };
}

/// A seat takes over another's passes.
pub struct Gather;

impl<O, E, F> Join<View<O, E, F>> for Gather {
    ghost both = { gathered };

    ghost spent = { spent_view };
}
