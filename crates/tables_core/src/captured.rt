//! The rows of one table, and the capture that their own was begun for.
ghost use Rattle.std.specs.Prelude.{◌≡◌, ◌+◌, ◌≤◌, ◌<◌, ◌^◌, ◌++◌, ◌∷◌, [], min, length, take, drop, IfOk, OnOk, OnErr};
ghost use Rattle.std.specs.Map.{values_of};
ghost use Rattle.copyup_core.specs.Holding.{due};
ghost use Rattle.tables_core.specs.Capture.{rows_due_for};

use crate::walk::Walk;
use base_core::{NoMemory, Row};
use copyup_core::{PushFault, Store};

/// Rows, and the number of the last capture that their own was begun for.
#[derive(Drop)]
pub struct Captured {
    pub store: Store<Row>,
    pub capture: u64,
}

impl Captured {
    /// Begins a capture of the rows for the capture of this number, if that was not done. What they
    /// have to give for that one stays.
    fn join(&mut self, number: u64)
        ensures capture { self.new.capture ≡ number }
        ensures contents { self.new.store.contents ≡ self.old.store.contents }
        ensures next { self.new.store.next ≡ self.old.store.next }
        ensures due { due self.new.store ≡ rows_due_for number self.old }
    {
        if self.capture != number {
            self.store.abandon();
            self.store.begin();
            self.capture = number;
        }
    }

    /// What comes before each change: from here on the rows' own capture keeps what was there.
    /// Where no capture of all tables is active, what one left here that was given up goes.
    #[inline(always)]
    pub fn prepare(&mut self, walk: Walk)
        ensures contents { self.new.store.contents ≡ self.old.store.contents }
        ensures next { self.new.store.next ≡ self.old.store.next }
        ensures capture { self.old.capture ≤ walk.number → self.new.capture ≤ walk.number }
        ensures joined { 0 < walk.left → self.new.capture ≡ walk.number }
        ensures due { 0 < walk.left
            → due self.new.store ≡ rows_due_for walk.number self.old }
    {
        if walk.is_active() {
            self.join(walk.number);
        } else if self.store.active() {
            self.store.abandon();
        }
    }

    /// Appends a row under the next number.
    #[inline(always)]
    pub fn push(&mut self, walk: Walk, row: Row) -> Result<(), NoMemory>
        requires few { self.old.store.next < 2 ^ 63 }
        ensures contents { OnOk result
            (self.new.store.contents
            ≡ self.old.store.contents ++ (self.old.store.next, row) ∷ []) }
        ensures next { OnOk result (self.new.store.next ≡ self.old.store.next + 1) }
        ensures err { OnErr result (self.new.store.contents ≡ self.old.store.contents) }
        ensures err_next { OnErr result (self.new.store.next ≡ self.old.store.next) }
        ensures capture { self.old.capture ≤ walk.number → self.new.capture ≤ walk.number }
        ensures due { 0 < walk.left
            → rows_due_for walk.number self.new ≡ rows_due_for walk.number self.old }
    {
        self.prepare(walk);
        match self.store.push(row) {
            Ok(_) => Ok(()),
            Err(PushFault::NoMemory(_)) => Err(NoMemory),
            Err(PushFault::Full(_)) => unreachable!(),
        }
    }

    /// How many rows there are to give for the capture of this number.
    pub fn left(&self, number: u64) -> usize
        ensures { result ≡ length (rows_due_for number self.now) }
    {
        if self.capture == number {
            self.store.left()
        } else {
            self.store.len()
        }
    }

    /// Appends to `out` the next `count` rows, or all, that there are to give for the capture of
    /// this number, and gives how many.
    pub fn capture_rows(
        &mut self,
        number: u64,
        out: &mut Vec<Row>,
        count: usize,
    ) -> Result<usize, NoMemory>
        ensures capture { self.new.capture ≡ number }
        ensures contents { self.new.store.contents ≡ self.old.store.contents }
        ensures next { self.new.store.next ≡ self.old.store.next }
        ensures count { IfOk result
            (λ given. given ≡ min count (length (rows_due_for number self.old))) }
        ensures items { OnOk result
            (out.new.items
            ≡ out.old.items ++ values_of (take count (rows_due_for number self.old))) }
        ensures left { OnOk result
            (due self.new.store ≡ drop count (rows_due_for number self.old)) }
        ensures err { OnErr result (due self.new.store ≡ rows_due_for number self.old) }
        ensures out_err { OnErr result (out.new.items ≡ out.old.items) }
    {
        self.join(number);
        if self.store.left() == 0 {
            self.store.abandon();
            return Ok(0);
        }
        self.store.capture_step(out, count)
    }
}
