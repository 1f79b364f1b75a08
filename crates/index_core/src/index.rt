//! An index of one column.
ghost use Rattle.std.specs.Prelude.{◌≡◌, ◌↔◌, ◌+◌, ◌^◌, ◌-◌, ◌++◌, ℕ, [], IfOk, OnOk, length, map, min};
ghost use Rattle.std.specs.List.{Contains};
ghost use Rattle.std.specs.List.Sorted.{IsStrictlyIncreasing};
ghost use Rattle.std.specs.Option.{option_to_list};
ghost use Rattle.index_core.specs.Within.{entries_within};
ghost use Rattle.index_core.specs.Listed.{ListsFor, entries_of, listed, numbers_within};
ghost use Rattle.index_core.specs.declared.interval.Interval.{Interval as intervals};

use crate::entry::Entry;
use crate::interval::Interval;
use crate::key::Key;
use crate::rising::put_in_order;
use crate::run::Run;
use base_core::{NoMemory, Value};
use std::alloc::Global;
use std::mem;

/// A tail of so many entries is put in order.
const TAIL: usize = 4096;

/// So many entries of the tail a look-up goes over at most, once the index was settled.
const SETTLED: usize = 64;

/// Runs are merged into longer ones up to so many entries,
const MERGED: usize = 131_072;

/// or up to such a part of all entries, where that is more.
const PARTS: usize = 16;

/// The numbers of rows by the keys of the values that they have in one column. Contracts see, by
/// `listed`, the numbers that it lists within an interval of keys.
#[derive(Drop)]
pub struct Index {
    alloc: Global,
    key: Key,
    /// Each at most half as long as the one before it, but where both together are too long to be
    /// merged.
    runs: Vec<Run>,
    /// What came since the last run was made.
    tail: Vec<Entry>,
}

/// How many entries the longest run may have that is made by merging these runs.
fn longest(runs: &[Run]) -> usize {
    let mut count: usize = 0;
    for run in runs {
        count = count.saturating_add(run.len());
    }
    MERGED.max(count / PARTS)
}

/// Takes the last run out, unless it is more than twice as long as this, or both together are
/// longer than `most`.
fn pop_short(runs: &mut Vec<Run>, length: usize, most: usize) -> Option<Run>
    ensures { runs.old.items ≡ runs.new.items ++ option_to_list result }
{
    let last = runs.last()?;
    if last.len() / 2 > length || last.len() > most.saturating_sub(length) {
        return None;
    }
    runs.pop()
}

/// Takes the short runs at the end out, and puts what they have before these entries. `NoMemory`
/// where a request for memory was refused.
fn joined(runs: &mut Vec<Run>, tail: Vec<Entry>) -> Result<Vec<Entry>, NoMemory>
    ensures { IfOk result (λ all.
        entries_of runs.new.items ++ all.items ≡ entries_of runs.old.items ++ tail.items) }
{
    let most = longest(runs.as_slice());
    let mut all = tail;
    for _ in 0..runs.len() {
        let Some(run) = pop_short(runs, all.len(), most) else {
            break;
        };
        let mut longer = run.into_entries();
        longer.reserve_exact(all.len())?;
        longer.append(&mut all)?;
        all = longer;
    }
    Ok(all)
}

/// How many of these entries are within an interval.
fn count_within(entries: &[Entry], interval: Interval) -> usize
    ensures { result ≡ length (entries_within interval entries.now) }
{
    entries
        .iter()
        .filter(|entry| interval.admits(entry.key))
        .count()
}

/// How many of the entries of these runs are within an interval, but no more than 2^64 - 1.
fn count_in_runs(runs: &[Run], interval: Interval) -> usize
    ensures { result ≡ min (length (entries_within interval (entries_of runs.now))) (2 ^ 64 - 1) }
{
    let mut count: usize = 0;
    for run in runs {
        count = count.saturating_add(run.within(interval).len());
    }
    count
}

/// Adds the numbers of these entries.
fn push_numbers(numbers: &mut Vec<u64>, entries: &[Entry]) -> Result<(), NoMemory>
    ensures { OnOk result
        (numbers.new.items ≡ numbers.old.items ++ map (λ e. e.number) entries.now) }
{
    for entry in entries {
        numbers.push(entry.number)?;
    }
    Ok(())
}

/// Adds the numbers of those of these entries that are within an interval.
fn push_within(
    numbers: &mut Vec<u64>,
    entries: &[Entry],
    interval: Interval,
) -> Result<(), NoMemory>
    ensures { OnOk result
        (numbers.new.items ≡ numbers.old.items ++ numbers_within interval entries.now) }
{
    for entry in entries {
        if interval.admits(entry.key) {
            numbers.push(entry.number)?;
        }
    }
    Ok(())
}

/// The same of the entries of runs.
fn push_from_runs(numbers: &mut Vec<u64>, runs: &[Run], interval: Interval) -> Result<(), NoMemory>
    ensures { OnOk result
        (numbers.new.items
        ≡ numbers.old.items ++ numbers_within interval (entries_of runs.now)) }
{
    for run in runs {
        push_numbers(numbers, run.within(interval))?;
    }
    Ok(())
}

impl Index {
    /// An index by such keys that lists nothing. It takes no memory.
    #[tactic(auto, unfolding(crate::specs::Listed::listed))]
    pub fn new(alloc: Global, key: Key) -> Index
        ensures key { result.key ≡ key }
        ensures empty { (i : intervals) → listed result i ≡ [] }
    {
        Index {
            alloc,
            key,
            runs: Vec::new(alloc),
            tail: Vec::new(alloc),
        }
    }

    /// By which keys it lists numbers.
    pub fn key(&self) -> Key
        ensures { result ≡ self.now.key }
    {
        self.key
    }

    /// Puts the tail in order, as one run with the short ones before it. `NoMemory` where a request
    /// for memory was refused.
    #[tactic(auto, unfolding(crate::specs::Listed::listed))]
    fn sort_tail(&mut self) -> Result<(), NoMemory>
        ensures key { self.new.key ≡ self.old.key }
        ensures same { OnOk result ((i : intervals) (n : ℕ)
            → Contains (listed self.old i) n ↔ Contains (listed self.new i) n) }
    {
        let tail = mem::replace(&mut self.tail, Vec::new(self.alloc));
        let all = joined(&mut self.runs, tail)?;
        self.runs.push(Run::of(all)?)?;
        Ok(())
    }

    /// Adds an entry at the end of the tail.
    #[tactic(auto, unfolding(crate::specs::Listed::listed))]
    fn push(&mut self, value: &Value, number: u64) -> Result<(), NoMemory>
        ensures key { self.new.key ≡ self.old.key }
        ensures noted { OnOk result (ListsFor self.new value.now number) }
        ensures kept { OnOk result ((i : intervals) (n : ℕ)
            → Contains (listed self.old i) n
            → Contains (listed self.new i) n) }
    {
        let entry = Entry {
            key: self.key.of(value),
            number,
        };
        self.tail.push(entry)?;
        Ok(())
    }

    /// Lists a number for a value, besides all that was listed. `NoMemory` where a request for
    /// memory was refused: then it may list less than before, and is of no use any more.
    pub fn note(&mut self, value: &Value, number: u64) -> Result<(), NoMemory>
        ensures key { self.new.key ≡ self.old.key }
        ensures noted { OnOk result (ListsFor self.new value.now number) }
        ensures kept { OnOk result ((i : intervals) (n : ℕ)
            → Contains (listed self.old i) n
            → Contains (listed self.new i) n) }
    {
        self.push(value, number)?;
        if self.tail.len() >= TAIL {
            self.sort_tail()?;
        }
        Ok(())
    }

    /// Puts what was noted lately in order, where look-ups would go over much of it. It lists what
    /// it listed. `NoMemory` where a request for memory was refused: then it may list less than
    /// before, and is of no use any more.
    pub fn settle(&mut self) -> Result<(), NoMemory>
        ensures key { self.new.key ≡ self.old.key }
        ensures same { OnOk result ((i : intervals) (n : ℕ)
            → Contains (listed self.old i) n ↔ Contains (listed self.new i) n) }
    {
        if self.tail.len() > SETTLED {
            self.sort_tail()?;
        }
        Ok(())
    }

    /// How many numbers are listed within an interval, each as often as it was noted, but no more
    /// than 2^64 - 1.
    #[tactic(auto, unfolding(crate::specs::Listed::listed))]
    pub fn count(&self, interval: Interval) -> usize
        ensures { result ≡ min (length (listed self.now interval)) (2 ^ 64 - 1) }
    {
        let in_runs = count_in_runs(self.runs.as_slice(), interval);
        in_runs.saturating_add(count_within(self.tail.as_slice(), interval))
    }

    /// The numbers listed within an interval, in rising order. `NoMemory` where a request for
    /// memory was refused.
    #[tactic(auto, unfolding(crate::specs::Listed::listed))]
    pub fn numbers(&self, interval: Interval) -> Result<Vec<u64>, NoMemory>
        ensures rising { IfOk result (λ numbers. IsStrictlyIncreasing numbers.items) }
        ensures all { IfOk result (λ numbers. (n : ℕ)
            → Contains (listed self.now interval) n
            → Contains numbers.items n) }
        ensures only { IfOk result (λ numbers. (n : ℕ)
            → Contains numbers.items n
            → Contains (listed self.now interval) n) }
    {
        let mut numbers = Vec::new(self.alloc);
        push_from_runs(&mut numbers, self.runs.as_slice(), interval)?;
        push_within(&mut numbers, self.tail.as_slice(), interval)?;
        put_in_order(&mut numbers);
        Ok(numbers)
    }
}
