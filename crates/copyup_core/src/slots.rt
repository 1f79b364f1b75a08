//! Slots in number order, in three lists.
ghost use Rattle.std.specs.Prelude.{◌≡◌, ℕ, ◌+◌, ◌<◌, ◌≤◌, ◌∷◌, ◌++◌, [], None, Some, is_some, true, length, drop, MatchOption, IsSome, IfSome, IsNone, IfNone, IsOk, OnOk, OnErr};
ghost use Rattle.std.specs.List.{All, AllWithin, HoldsAt};
ghost use Rattle.std.specs.Option.{option_copied};
ghost use Rattle.copyup_core.specs.Holding.{value_at};
ghost use Rattle.copyup_core.specs.Slot.{SlotsRise, IsFree, IsChanged, IsForgotten, WritesAt, HasItemOf, had, contents_of};
ghost use Rattle.copyup_core.specs.Sound.{IsSifted};

use crate::items::Items;
use crate::lists;
use crate::sieve::Sieve;
use crate::state::State;
use crate::window::Window;
use base_core::NoMemory;
use std::alloc::Global;
use std::marker::Model;
use std::mem;

/// Slots in number order. Contracts see the list of them, and how many more have their room.
///
/// Each slot has an entry, which is its number and a value, and a state. `kept` has the replaced
/// values that a capture still wants, at the places of their slots, and ends behind the last.
#[derive(Drop)]
pub(crate) struct Slots<V> {
    entries: Vec<(u64, V)>,
    states: Vec<State>,
    kept: Vec<Option<V>>,
}

impl<V> Model for Slots<V> {
    ghost use Rattle.std.specs.Prelude.{◌-◌};
    ghost use Rattle.copyup_core.specs.Parallel.{SlotList, slot_list_code, slots_of, AreParallel};

    ghost Value = { SlotList V };

    ghost coded = { slot_list_code V.code };

    ghost view = { λ s. record {
      items = slots_of s.entries.items s.states.items s.kept.items;
      spare = s.entries.cap - s.entries.len;
    } };

    ghost invariant = { λ s.
        AreParallel
        s.entries.items
        s.states.items
        s.kept.items
        s.entries.cap
        s.states.cap
        s.kept.cap };
}

impl<V> Slots<V> {
    pub(crate) fn new(alloc: Global) -> Slots<V>
        ensures { result ≡ record { items = []; spare = 0 } }
    {
        Slots {
            entries: Vec::new(alloc),
            states: Vec::new(alloc),
            kept: Vec::new(alloc),
        }
    }

    #[inline(always)]
    pub(crate) fn len(&self) -> usize
        ensures { result ≡ length self.now.items }
    {
        self.entries.len()
    }

    /// How many pushes have their room already.
    #[inline(always)]
    pub(crate) fn spare(&self) -> usize
        ensures { result ≡ self.now.spare }
    {
        self.entries.capacity() - self.entries.len()
    }

    /// The first place with a number of at least `n`.
    #[inline]
    pub(crate) fn place(&self, n: u64) -> usize
        requires { (low : ℕ) × (high : ℕ) × SlotsRise low high self.now.items }
        ensures within { result ≤ length self.now.items }
        ensures before { AllWithin (λ s. s.number < n) self.now.items 0 result }
        ensures after { AllWithin
            (λ s. n ≤ s.number)
            self.now.items
            result
            (length self.now.items) }
    {
        lists::place(self.entries.as_slice(), n)
    }

    /// Where the item numbered `n` stands.
    #[inline]
    pub(crate) fn find(&self, n: u64) -> Option<usize>
        requires { (low : ℕ) × (high : ℕ) × SlotsRise low high self.now.items }
        ensures within { IfSome result (λ i. i < length self.now.items) }
        ensures number { IfSome result (HoldsAt (λ s. s.number ≡ n) self.now.items) }
        ensures item { MatchOption
            result
            (value_at n (contents_of self.now.items) ≡ None)
            (HoldsAt (HasItemOf n (contents_of self.now.items)) self.now.items) }
    {
        let place = self.place(n);
        if place < self.len() && self.number(place) == n && self.is_live(place) {
            Some(place)
        } else {
            None
        }
    }

    /// The first place with an item from `from` on.
    #[inline]
    pub(crate) fn next_live(&self, from: usize) -> Option<usize>
        requires { from ≤ length self.now.items }
        ensures within { IfSome result (λ i. (from ≤ i) × (i < length self.now.items)) }
        ensures live { IfSome result (HoldsAt (λ s. IsSome s.live) self.now.items) }
        ensures dead { IfSome result
            (λ i. contents_of (drop from self.now.items) ≡ contents_of (drop i self.now.items)) }
        ensures none { IfNone result (contents_of (drop from self.now.items) ≡ []) }
    {
        lists::next_live(self.states.as_slice(), from)
    }

    #[inline(always)]
    pub(crate) fn number(&self, place: usize) -> u64
        requires { place < length self.now.items }
        ensures { HoldsAt (λ s. s.number ≡ result) self.now.items place }
    {
        self.entries[place].0
    }

    #[inline(always)]
    fn is_live(&self, place: usize) -> bool
        requires { place < length self.now.items }
        ensures { HoldsAt (λ s. is_some s.live ≡ result) self.now.items place }
    {
        self.states[place].is_live()
    }

    /// The item at a place where there is one.
    #[inline(always)]
    pub(crate) fn item(&self, place: usize) -> &V
        requires within { place < length self.now.items }
        requires live { HoldsAt (λ s. IsSome s.live) self.now.items place }
        ensures { HoldsAt (λ s. s.live ≡ Some result.now) self.now.items place }
    {
        &self.entries[place].1
    }

    /// What the slot at a place had when the capture began.
    #[inline]
    pub(crate) fn had(&self, place: usize) -> Option<&V>
        requires { place < length self.now.items }
        ensures { HoldsAt (λ s. had s ≡ option_copied result) self.now.items place }
    {
        if let Some(value) = lists::kept_value(self.kept.as_slice(), place) {
            return Some(value);
        }
        match self.states[place] {
            State::Dead => None,
            State::Live | State::Gone => Some(&self.entries[place].1),
        }
    }

    /// All items, in number order.
    #[inline]
    pub(crate) fn items(&self) -> Items<'_, V>
        ensures { result ≡ contents_of self.now.items }
    {
        Items::new(self.entries.as_slice(), self.states.as_slice())
    }

    /// Makes room for `count` more slots. Where it has to grow, it grows by an eighth at least, so
    /// that slots which come one by one are moved a constant number of times each, and little room
    /// is idle. `NoMemory` where a request was refused: then all is as before.
    pub(crate) fn make_room(&mut self, count: usize) -> Result<(), NoMemory>
        ensures ok { OnOk result (count ≤ self.new.spare) }
        ensures roomy { count ≤ self.old.spare → IsOk result }
        ensures items { self.new.items ≡ self.old.items }
        ensures spare { self.old.spare ≤ self.new.spare }
        ensures err { OnErr result (self.new.spare ≡ self.old.spare) }
    {
        if self.spare() < count {
            let more = count.max(self.entries.len() / 8);
            self.states.reserve_exact(more)?;
            let padding = self.entries.len() - self.kept.len();
            self.kept.reserve_exact(padding + more)?;
            self.entries.reserve_exact(more)?;
        }
        Ok(())
    }

    /// Adds a slot with an item. It has to have its room.
    #[inline]
    pub(crate) fn push(&mut self, number: u64, item: V)
        requires { 0 < self.old.spare }
        ensures items { self.new.items
            ≡ self.old.items ++ record { number = number; live = Some item; kept = None } ∷ [] }
        ensures spare { self.old.spare ≡ self.new.spare + 1 }
    {
        self.entries.push_reserved((number, item));
        self.states.push_reserved(State::Live);
    }
}

impl<V: Drop> Slots<V> {
    /// Sets the item at a place where there is one, and gives the old one back unless it is put by:
    /// `wanted` says that a capture wants what the slot had.
    #[inline]
    pub(crate) fn replace(&mut self, place: usize, item: V, wanted: bool) -> Option<V>
        requires within { place < length self.old.items }
        requires live { HoldsAt (λ s. IsSome s.live) self.old.items place }
        ensures slot { WritesAt (IsChanged (Some item) wanted) place self.old.items self.new.items }
        ensures given { IfSome result
            (λ old. HoldsAt (λ s. s.live ≡ Some old) self.old.items place) }
        ensures kept { IsNone result → wanted ≡ true }
        ensures spare { self.new.spare ≡ self.old.spare }
    {
        let entry = &mut self.entries[place];
        let old = mem::replace(&mut entry.1, item);
        if wanted && lists::kept_value(self.kept.as_slice(), place).is_none() {
            lists::pad(&mut self.kept, place + 1);
            self.kept[place] = Some(old);
            return None;
        }
        Some(old)
    }

    /// Takes out the item at a place where there is one: `wanted` says that a capture wants what
    /// the slot had.
    #[inline]
    pub(crate) fn remove(&mut self, place: usize, wanted: bool)
        requires within { place < length self.old.items }
        requires live { HoldsAt (λ s. IsSome s.live) self.old.items place }
        ensures slot { WritesAt (IsChanged None wanted) place self.old.items self.new.items }
        ensures spare { self.new.spare ≡ self.old.spare }
    {
        self.states[place] = lists::state_without_item(self.kept.as_slice(), place, wanted);
    }

    /// Lets go of what the slot at a place had when the capture began.
    #[inline]
    pub(crate) fn forget(&mut self, place: usize)
        requires { place < length self.old.items }
        ensures slot { WritesAt IsForgotten place self.old.items self.new.items }
        ensures spare { self.new.spare ≡ self.old.spare }
    {
        self.states[place] = self.states[place].forgotten();
        lists::clear_at(self.kept.as_mut_slice(), place);
    }

    /// Takes out the items that the sieve does not keep, and gives how many they were. A capture
    /// keeps what it wants.
    #[inline]
    pub(crate) fn sift<S: Sieve<V>>(&mut self, capture: Option<Window>, sieve: &S) -> usize
        ensures sifted { IsSifted (S.keeps sieve.now) capture self.old.items self.new.items result }
        ensures spare { self.new.spare ≡ self.old.spare }
    {
        lists::sift(
            self.entries.as_slice(),
            self.states.as_mut_slice(),
            self.kept.as_slice(),
            capture,
            sieve,
        )
    }

    /// Drops dead slots, once more than half are dead; `live` counts the others. No capture may
    /// want anything of them.
    pub(crate) fn compact(&mut self, live: usize)
        ensures rises { (low : ℕ) (high : ℕ)
            → SlotsRise low high self.old.items
            → SlotsRise low high self.new.items }
        ensures contents { contents_of self.new.items ≡ contents_of self.old.items }
        ensures free { All IsFree self.old.items → All IsFree self.new.items }
        ensures spare { self.old.spare ≤ self.new.spare }
    {
        if self.len() / 2 > live {
            let len = lists::gather(self.entries.as_mut_slice(), self.states.as_mut_slice());
            self.entries.truncate(len);
            self.states.truncate(len);
            self.kept.clear();
        }
    }
}
