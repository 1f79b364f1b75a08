//! Entries in the order of their keys.
ghost use Rattle.std.specs.List.Sorted.{IsNonDecreasingBy};
ghost use Rattle.index_core.specs.declared.entry.Entry.{Entry as entry};

use crate::entry::Entry;
use crate::interval::Interval;
use crate::outside::are_outside;
use base_core::NoMemory;

/// Entries in the order of their keys, so that those within an interval are found by binary
/// search.
#[derive(Drop)]
pub struct Run {
    entries: Vec<Entry>,
    ghost sorted: { IsNonDecreasingBy (λ (e : entry). e.key) entries.items },
}

impl Run {
    ghost use Rattle.std.specs.Prelude.{◌≡◌, IfOk};
    ghost use Rattle.std.specs.List.Sorted.{IsPermutation};
    ghost use Rattle.index_core.specs.Within.{entries_within};

    /// The entries, put in order. `NoMemory` where a request for memory was refused.
    pub fn of(mut entries: Vec<Entry>) -> Result<Run, NoMemory>
        ensures { IfOk result (λ run. IsPermutation entries.items run.entries.items) }
    {
        entries.sort_by_key(|entry| entry.key)?;
        Ok(Run { entries })
    }

    /// How many there are.
    pub fn len(&self) -> usize {
        self.entries.len()
    }

    /// The entries, as a list to which others may be added.
    pub fn into_entries(self) -> Vec<Entry>
        ensures { result ≡ self.entries }
    {
        self.entries
    }

    /// The entries within an interval.
    pub fn within(&self, interval: Interval) -> &[Entry]
        ensures { result.now ≡ entries_within interval self.now.entries.items }
    {
        let entries = self.entries.as_slice();
        if are_outside(entries, interval) {
            return &[];
        }
        let end = entries.partition_point(|entry| entry.key <= interval.highest);
        let (upto, _) = entries.split_at(end);
        if are_outside(upto, interval) {
            return &[];
        }
        let start = upto.partition_point(|entry| entry.key < interval.lowest);
        let (_, within) = upto.split_at(start);
        within
    }
}
