//! Slots in three lists: where a number stands, which slots are live, and what is taken out.
ghost use Rattle.std.specs.Prelude.{◌≡◌, ℕ, ◌<◌, ◌≤◌, ◌&&◌, not, true, false, max, filter, List, [], None, IfSome, IfNone, length, set, take, vec_len, vec_capacity};
ghost use Rattle.std.specs.Option.{option_copied};
ghost use Rattle.std.specs.List.{AllPairs, AllWithin, HoldsAt};
ghost use Rattle.copyup_core.specs.Slot.{IsChanged, is_live};
ghost use Rattle.copyup_core.specs.Parallel.{slot_of, slots_of, kept_at, is_live_state};
ghost use Rattle.copyup_core.specs.Sound.{IsSifted};
ghost use Rattle.copyup_core.specs.declared.state.State.{State};
ghost use Rattle.copyup_core.specs.declared.state.State.TheVariants.{Live};

use crate::sieve::Sieve;
use crate::state::State;
use crate::window::{Window, is_wanted};

/// The place of the entry numbered `n`, if none was dropped between the first entry and it: as many
/// places behind the first as the numbers are apart.
#[inline]
fn expected_place<V>(entries: &[(u64, V)], n: u64) -> Option<usize>
    ensures within { IfSome result (λ i. i < length entries.now) }
    ensures number { IfSome result (HoldsAt (λ e. e.0 ≡ n) entries.now) }
{
    let first = entries.first()?;
    let place = n.checked_sub(first.0)? as usize;
    if place < entries.len() && entries[place].0 == n {
        Some(place)
    } else {
        None
    }
}

/// The first place with a number of at least `n`.
#[inline]
pub(crate) fn place<V>(entries: &[(u64, V)], n: u64) -> usize
    requires { AllPairs (λ e f. e.0 < f.0) entries.now }
    ensures within { result ≤ length entries.now }
    ensures before { AllWithin (λ e. e.0 < n) entries.now 0 result }
    ensures after { AllWithin (λ e. n ≤ e.0) entries.now result (length entries.now) }
{
    if let Some(place) = expected_place(entries, n) {
        return place;
    }
    entries.partition_point(|entry| entry.0 < n)
}

/// The first live place from `from` on.
#[inline]
pub(crate) fn next_live(states: &[State], from: usize) -> Option<usize>
    requires { from ≤ length states.now }
    ensures within { IfSome result (λ i. (from ≤ i) × (i < length states.now)) }
    ensures live { IfSome result (HoldsAt (λ s. is_live_state s ≡ true) states.now) }
    ensures dead { IfSome result (AllWithin (λ s. is_live_state s ≡ false) states.now from) }
    ensures none { IfNone result
        (AllWithin (λ s. is_live_state s ≡ false) states.now from (length states.now)) }
{
    for i in from..states.len() {
        if states[i].is_live() {
            return Some(i);
        }
    }
    None
}

/// The replaced value that is kept for the slot at a place.
#[inline]
pub(crate) fn kept_value<V>(kept: &[Option<V>], place: usize) -> Option<&V>
    ensures { option_copied result ≡ kept_at place kept.now }
{
    kept.get(place)?.as_ref()
}

/// Fills what is kept with `None` up to a length. No slot is changed by it.
pub(crate) fn pad<V>(kept: &mut Vec<Option<V>>, len: usize)
    requires { len ≤ vec_capacity kept.old }
    ensures slots { (entries : List (ℕ × V)) (states : List State)
        → slots_of entries states kept.new.items ≡ slots_of entries states kept.old.items }
    ensures len { vec_len kept.new ≡ max (vec_len kept.old) len }
    ensures capacity { vec_capacity kept.new ≡ vec_capacity kept.old }
{
    while kept.len() < len {
        kept.push_reserved(None);
    }
}

/// Lets go of what is kept for the slot at a place.
#[inline]
pub(crate) fn clear_at<V>(kept: &mut [Option<V>], place: usize)
where
    V: Drop,
    ensures { kept.new ≡ set kept.old place None }
{
    if place < kept.len() {
        kept[place] = None;
    }
}

/// What becomes of a live slot whose item is taken out: `wanted` says that a capture wants what it
/// had.
#[inline(always)]
pub(crate) fn state_without_item<V>(kept: &[Option<V>], place: usize, wanted: bool) -> State
    ensures { (entry : ℕ × V)
        → IsChanged
        None
        wanted
        (slot_of entry Live (kept_at place kept.now))
        (slot_of entry result (kept_at place kept.now)) }
{
    if wanted && kept_value(kept, place).is_none() {
        State::Gone
    } else {
        State::Dead
    }
}

/// Whether a slot has an item that the sieve does not keep.
#[inline(always)]
fn is_sifted_out<V, S: Sieve<V>>(state: State, value: &V, sieve: &S) -> bool
    ensures { result ≡ (is_live_state state && not (S.keeps sieve.now value.now)) }
{
    state.is_live() && !sieve.keeps(value)
}

/// Takes out the items that the sieve does not keep, and gives how many they were. A capture keeps
/// what it wants.
#[inline]
pub(crate) fn sift<V, S: Sieve<V>>(
    entries: &[(u64, V)],
    states: &mut [State],
    kept: &[Option<V>],
    capture: Option<Window>,
    sieve: &S,
) -> usize
    requires { length states.old ≡ length entries.now }
    ensures long { length states.new ≡ length states.old }
    ensures sifted { IsSifted
        (S.keeps sieve.now)
        capture
        (slots_of entries.now states.old kept.now)
        (slots_of entries.now states.new kept.now)
        result }
{
    let mut dropped = 0;
    for at in 0..states.len() {
        if is_sifted_out(states[at], &entries[at].1, sieve) {
            states[at] = state_without_item(kept, at, is_wanted(capture, at));
            dropped += 1;
        }
    }
    dropped
}

/// Moves the live slots to the front, in their order, and gives how many they are.
pub(crate) fn gather<V>(entries: &mut [(u64, V)], states: &mut [State]) -> usize
    requires { length states.old ≡ length entries.old }
    ensures entries_long { length entries.new ≡ length entries.old }
    ensures states_long { length states.new ≡ length states.old }
    ensures live { take result (slots_of entries.new states.new [])
        ≡ filter is_live (slots_of entries.old states.old []) }
{
    let mut to = 0;
    for at in 0..states.len() {
        if states[at].is_live() {
            entries.swap(to, at);
            states[to] = State::Live;
            to += 1;
        }
    }
    to
}
