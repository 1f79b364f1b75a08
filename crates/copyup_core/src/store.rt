//! Items in number order, and at most one capture of them.
ghost use Rattle.std.specs.Prelude.{◌≡◌, ◌+◌, ◌-◌, ◌<◌, ◌≤◌, ◌↔◌, ◌++◌, min, length, take, None, Some, IsSome, IsNone, is_some, IfSome, IfOk, IsOk, OnOk, OnErr};
ghost use Rattle.std.specs.Option.{option_map, option_copied};
ghost use Rattle.std.specs.Map.{values_of};

use crate::fault::PushFault;
use crate::items::Items;
use crate::sieve::Sieve;
use crate::slots::Slots;
use crate::walk;
use crate::window::{Window, is_wanted};
use base_core::{NoMemory, Twin};
use std::alloc::Global;
use std::marker::Model;

/// Items with numbers, in number order, and at most one capture of them.
///
/// Contracts see a store as the record of its `contents`, the `next` number, the `rest` that a
/// capture still has to give, while one is active, and `spare`, the pushes that have their room.
#[derive(Drop)]
pub struct Store<V: Twin> {
    slots: Slots<V>,
    next: u64,
    len: usize,
    capture: Option<Window>,
}

impl<V: Twin> Model for Store<V> {
    ghost use Rattle.std.specs.Prelude.{◌-◌};
    ghost use Rattle.copyup_core.specs.Holding.{Holding, holding_code};

    ghost Value = { Holding V };

    ghost coded = { holding_code V.code };

    ghost use Rattle.copyup_core.specs.Slot.{contents_of};
    ghost use Rattle.copyup_core.specs.Sound.{IsSoundStore, rest_of};

    ghost view = { λ s. record {
      contents = contents_of s.slots.items;
      next = s.next;
      rest = rest_of s.slots.items s.capture;
      spare = s.slots.spare;
    } };

    ghost invariant = { λ s. IsSoundStore s.slots.items s.next s.len s.capture };
}

impl<V: Twin> Store<V> {
    ghost use Rattle.copyup_core.specs.Holding.{Rise, due, value_at, first_from};
    ghost use Rattle.copyup_core.specs.Calls.{empty_from, pushed, replaced, removed, retained, begun, stepped, abandoned};

    /// A store of nothing, whose first number is 0. It takes no memory.
    pub fn new(alloc: Global) -> Self
        ensures { result ≡ empty_from 0 }
    {
        Store::starting_at(alloc, 0)
    }

    /// A store of nothing, whose first number is `number`. It takes no memory.
    pub fn starting_at(alloc: Global, number: u64) -> Self
        ensures { result ≡ empty_from number }
    {
        Store {
            slots: Slots::new(alloc),
            next: number,
            len: 0,
            capture: None,
        }
    }

    /// How many items there are. Their numbers rise, and are below the next one.
    pub fn len(&self) -> usize
        ensures len { result ≡ length self.now.contents }
        ensures numbered { Rise 0 self.now.next self.now.contents }
    {
        self.len
    }

    /// The item numbered `number`. None where there is none.
    pub fn get(&self, number: u64) -> Option<&V>
        ensures { option_copied result ≡ value_at number self.now.contents }
    {
        let place = self.slots.find(number)?;
        Some(self.slots.item(place))
    }

    /// The first item with a number of at least `number`, and its number. None where there is
    /// none.
    pub fn next_from(&self, number: u64) -> Option<(u64, &V)>
        ensures { option_map (λ found. (found.0, found.1.now)) result
            ≡ first_from number self.now.contents }
    {
        let start = self.slots.place(number);
        let place = self.slots.next_live(start)?;
        Some((self.slots.number(place), self.slots.item(place)))
    }

    /// All items, in number order.
    pub fn items(&self) -> Items<'_, V>
        ensures { result ≡ self.now.contents }
    {
        self.slots.items()
    }

    /// How many pushes have their room already, and so can't be refused memory. A push lowers it
    /// by at most one, and no other call lowers it.
    pub fn spare(&self) -> u64
        ensures { result ≡ self.now.spare }
    {
        self.slots.spare() as u64
    }

    /// Makes room for at least `count` pushes. `NoMemory` where a request for memory was refused:
    /// then the store is as before.
    pub fn reserve(&mut self, count: u64) -> Result<(), NoMemory>
        ensures ok { OnOk result (count ≤ self.new.spare) }
        ensures spare { self.old.spare ≤ self.new.spare }
        ensures same { self.new ≡ record self.old { spare = self.new.spare } }
        ensures err { OnErr result (self.new ≡ self.old) }
    {
        self.slots.make_room(count as usize)
    }

    /// Makes room for one push: dead slots go first, where that gives the room.
    fn make_room(&mut self) -> Result<(), NoMemory>
        ensures ok { OnOk result (0 < self.new.spare) }
        ensures roomy { 0 < self.old.spare → IsOk result }
        ensures spare { self.old.spare ≤ self.new.spare }
        ensures same { self.new ≡ record self.old { spare = self.new.spare } }
        ensures err { OnErr result (self.new ≡ self.old) }
    {
        if self.slots.spare() == 0 {
            self.tidy();
        }
        self.slots.make_room(1)
    }

    /// Adds an item under the next number, and gives that number. A capture that is active does
    /// not see it.
    ///
    /// - `Full` exactly where the next number is the greatest `u64`.
    /// - Else `NoMemory` where a request for memory was refused, which comes only where no push is
    ///  spare.
    ///
    /// Each gives the item back, and the store is as before.
    pub fn push(&mut self, item: V) -> Result<u64, PushFault<V>>
        ensures number { IfOk result (λ number. number ≡ self.old.next) }
        ensures ok { OnOk result
            (self.new ≡ record (pushed item self.old) { spare = self.new.spare }) }
        ensures full { (result ≡ Err (PushFault.Full item)) ↔ (self.old.next ≡ u64.MAX) }
        ensures no_memory { OnErr result
            (self.old.next < u64.MAX → result ≡ Err (PushFault.NoMemory item)) }
        ensures roomy { 0 < self.old.spare → self.old.next < u64.MAX → IsOk result }
        ensures spare { self.old.spare ≤ self.new.spare + 1 }
        ensures err { OnErr result (self.new ≡ self.old) }
    {
        if self.next == u64::MAX {
            return Err(PushFault::Full(item));
        }
        if self.make_room().is_err() {
            return Err(PushFault::NoMemory(item));
        }
        let number = self.next;
        self.slots.push(number, item);
        self.next += 1;
        self.len += 1;
        Ok(number)
    }

    /// Sets the item numbered `number`, which has to be there, and gives the old value back. None
    /// where a capture keeps that. It takes no memory.
    pub fn replace(&mut self, number: u64, item: V) -> Option<V>
        requires { IsSome (value_at number self.old.contents) }
        ensures same { self.new ≡ replaced number item self.old }
        ensures given { IfSome result (λ old. value_at number self.old.contents ≡ Some old) }
        ensures kept { IsNone result → IsSome (value_at number (due self.old)) }
    {
        let place = self.slots.find(number).unwrap();
        let wanted = is_wanted(self.capture, place);
        self.slots.replace(place, item, wanted)
    }

    /// Takes the item numbered `number` out, and says whether there was one. It takes no memory.
    pub fn remove(&mut self, number: u64) -> bool
        ensures was { result ≡ is_some (value_at number self.old.contents) }
        ensures same { self.new ≡ record (removed number self.old) { spare = self.new.spare } }
        ensures spare { self.old.spare ≤ self.new.spare }
    {
        let Some(place) = self.slots.find(number) else {
            return false;
        };
        let wanted = is_wanted(self.capture, place);
        self.slots.remove(place, wanted);
        self.len -= 1;
        self.tidy();
        true
    }

    /// Takes out the items that the sieve does not keep, in one walk. It takes no memory.
    pub fn retain<S: Sieve<V>>(&mut self, sieve: &S)
        ensures same { self.new
            ≡ record (retained (S.keeps sieve.now) self.old) { spare = self.new.spare } }
        ensures spare { self.old.spare ≤ self.new.spare }
    {
        let dropped = self.slots.sift(self.capture, sieve);
        self.len -= dropped;
        self.tidy();
    }

    /// Drops dead slots, unless a capture walks them or few are dead.
    fn tidy(&mut self)
        ensures same { self.new ≡ record self.old { spare = self.new.spare } }
        ensures spare { self.old.spare ≤ self.new.spare }
    {
        if self.capture.is_none() {
            self.slots.compact(self.len);
        }
    }

    /// Begins a capture of the items as they are now. None must be active. It is constant, and
    /// takes no memory.
    pub fn begin(&mut self)
        requires { IsNone self.old.rest }
        ensures { self.new ≡ begun self.old }
    {
        self.capture = Some(Window {
            cursor: 0,
            end: self.slots.len(),
            left: self.len,
        });
    }

    /// Whether a capture is active.
    pub fn active(&self) -> bool
        ensures { result ≡ is_some self.now.rest }
    {
        self.capture.is_some()
    }

    /// How many items the capture has still to give. 0 where none is active.
    pub fn left(&self) -> usize
        ensures { result ≡ length (due self.now) }
    {
        match self.capture {
            None => 0,
            Some(window) => window.left,
        }
    }

    /// Appends the next `count` items of the capture to `out`, or all that are left, in the order
    /// of their numbers, which are left out, and as they were when it began. It gives how many.
    /// With none left the capture ends; that of a store with nothing in it ends at its first step.
    /// A capture must be active.
    ///
    /// `NoMemory` where a request for memory was refused: then the store and the items of `out`
    /// are as before.
    pub fn capture_step(&mut self, out: &mut Vec<V>, count: usize) -> Result<usize, NoMemory>
        requires { IsSome self.old.rest }
        ensures count { IfOk result (λ given. given ≡ min count (length (due self.old))) }
        ensures items { OnOk result
            (out.new.items ≡ out.old.items ++ values_of (take count (due self.old))) }
        ensures rest { OnOk result (self.new ≡ stepped count self.old) }
        ensures err { OnErr result (self.new ≡ self.old) }
        ensures out_err { OnErr result (out.new.items ≡ out.old.items) }
    {
        let window = self.capture.unwrap();
        let given = count.min(window.left);
        out.reserve(given)?;
        let stop = walk::copy_next(&self.slots, window.cursor, window.end, given, out)?;
        walk::forget(&mut self.slots, window.cursor, stop);
        self.capture = window.after(stop, given);
        Ok(given)
    }

    /// Gives the capture up. Where none is active, nothing changes. It takes no memory.
    pub fn abandon(&mut self)
        ensures { self.new ≡ abandoned self.old }
    {
        if let Some(window) = self.capture {
            walk::forget(&mut self.slots, window.cursor, window.end);
            self.capture = None;
        }
    }
}
