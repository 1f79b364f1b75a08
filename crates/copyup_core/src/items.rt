//! A walk over the items of a store.
ghost use Rattle.std.specs.Prelude.{◌≡◌, [], length};
ghost use Rattle.std.specs.Iterator.{YieldsFirstBy, item_count};
ghost use Rattle.copyup_core.specs.Slot.{contents_of};
ghost use Rattle.copyup_core.specs.Parallel.{slots_of};

use crate::lists;
use crate::state::State;
use std::marker::Model;

/// The items of a store that are still to come, in number order, each with its number. Contracts
/// see the list of them.
#[derive(Drop)]
pub struct Items<'a, V> {
    entries: &'a [(u64, V)],
    states: &'a [State],
    place: usize,
}

impl<'a, V> Model for Items<'a, V> {
    ghost use Rattle.std.specs.Prelude.{◌≡◌, ◌≤◌, ℕ, List, [], length, drop};
    ghost use Rattle.copyup_core.specs.Slot.{contents_of};
    ghost use Rattle.copyup_core.specs.Parallel.{slots_of};

    ghost Value = { List (ℕ × V) };

    ghost view = { λ i. contents_of (drop i.place (slots_of i.entries.now i.states.now [])) };

    ghost invariant = { λ i.
        (length i.states.now ≡ length i.entries.now) × (i.place ≤ length i.entries.now) };
}

impl<'a, V> Items<'a, V> {
    #[inline(always)]
    pub(crate) fn new(entries: &'a [(u64, V)], states: &'a [State]) -> Items<'a, V>
        requires { length states.now ≡ length entries.now }
        ensures { result ≡ contents_of (slots_of entries.now states.now []) }
    {
        Items {
            entries,
            states,
            place: 0,
        }
    }
}

impl<'a, V> Iterator for Items<'a, V> {
    type Item = (u64, &'a V);

    ghost next_gives = { YieldsFirstBy (λ p. (p.0, p.1.now)) (λ s. s) };

    ghost remaining = { item_count (λ s. s) };

    #[inline]
    fn next(&mut self) -> Option<(u64, &'a V)> {
        let place = lists::next_live(self.states, self.place)?;
        self.place = place + 1;
        let entry = &self.entries[place];
        Some((entry.0, &entry.1))
    }
}
