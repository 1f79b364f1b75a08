//! Where those who wait for their turn sleep.
ghost use Rattle.std.specs.Prelude.{◌≡◌, ◌<◌, ◌≤◌, ◌^◌};

use atomic_table::{Play, Table, TableRule};
use base_core::NoMemory;
use std::alloc::Global;
use std::hint::spin_loop;
use std::sync::Wait;

/// As many bells as there are passes at most.
const COUNT: usize = 64;

const UNSET: u64 = 0;

/// A bell at which one may sleep.
const SET: u64 = 1;

/// So near its turn one looks before it sleeps.
const NEAR: u64 = 2;

/// So often it looks: about as long as a wake takes.
const LOOKS: u32 = 400;

/// A row of words, each of which says whether one may sleep at it. A ticket's bell goes by its
/// number: tickets that are out at one time follow one another, and are no more than the passes, so
/// that no two have the same bell.
///
/// No ring is missed, as all steps stand in one order. Whoever sleeps set its bell before it last
/// read the served word, and whoever ends the turn before raised the served word before it reads
/// the bell: so the one finds its turn served, or the other finds the bell set. One sleeps only
/// while its bell is set, and whoever unsets it then wakes it. An end that comes late with this
/// wakes a later ticket at the same bell, for no reason, and that sets its bell again. A bell that
/// is left set costs a later end one wake of nobody.
#[derive(Drop)]
pub(crate) struct Bells {
    table: Table<(), (), (), Unruled, Global>,
    ghost whole: { table.shared.table_id.words ≡ 64 },
}

/// The rule that every state of a table meets, and a step that tells nothing.
pub(crate) struct Unruled;

impl TableRule<(), (), ()> for Unruled {
    ghost holds = { λ key state. Unit {0} };

    ghost first = { λ key. tt };
}

impl Play<(), ()> for Unruled {
    ghost then = { λ step before found after. Unit {0} };
}

impl Bells {
    pub(crate) fn new(alloc: Global) -> Result<Bells, NoMemory> {
        let Ok((table, _seat)) = Table::of_words(alloc, &[UNSET; COUNT], &()) else {
            return Err(NoMemory);
        };
        Ok(Bells { table })
    }

    fn put(&self, ticket: u64, word: u64) {
        let (_found, _seat) = self
            .table
            .shared
            .swap_new_seat::<Unruled>(bell(ticket), word);
    }

    /// Wakes those who may sleep at the bells of this ticket and of the next two, so that each is
    /// awake by the time that it is near its turn.
    pub(crate) fn ring_from(&self, ticket: u64)
        requires { ticket ≤ 2 ^ 62 }
    {
        for ahead in 0..=NEAR {
            self.ring(ticket + ahead);
        }
    }

    /// Wakes the one who may sleep at the ticket's bell, if there is one.
    fn ring(&self, ticket: u64) {
        if self.table.shared.peek(bell(ticket)) == SET {
            self.put(ticket, UNSET);
            self.table.shared.wake_one(bell(ticket));
        }
    }
}

/// One who waits for its turn: how often it may look before it sleeps, and whether it has set its
/// bell since it last slept.
#[derive(Drop)]
pub(crate) struct Waiter {
    ticket: u64,
    looks: u32,
    set: bool,
}

impl Waiter {
    pub(crate) fn new(ticket: u64) -> Waiter {
        Waiter {
            ticket,
            looks: LOOKS,
            set: false,
        }
    }

    /// What it does after it found `serving` in the served word. One who is near looks again, if
    /// it may. Any other sets its bell, looks once more, and then sleeps until that is rung. It may
    /// also wake for no reason.
    pub(crate) fn pause<R: Wait>(&mut self, rt: &R, bells: &Bells, serving: u64) {
        if self.looks > 0 && self.ticket.saturating_sub(serving) <= NEAR {
            self.looks -= 1;
            spin_loop();
        } else if self.set {
            bells.table.shared.park(rt, bell(self.ticket), SET as u32);
            *self = Waiter::new(self.ticket);
        } else {
            bells.put(self.ticket, SET);
            self.set = true;
        }
    }
}

fn bell(ticket: u64) -> usize
    ensures { result < 64 }
{
    (ticket % COUNT as u64) as usize
}
