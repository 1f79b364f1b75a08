//! Entries that are all outside an interval.
ghost use Rattle.std.specs.Prelude.{◌≡◌, [], true};
ghost use Rattle.std.specs.List.Sorted.{IsNonDecreasingBy};
ghost use Rattle.index_core.specs.Within.{entries_within};
ghost use Rattle.index_core.specs.declared.entry.Entry.{Entry as entry};

use crate::entry::Entry;
use crate::interval::Interval;

/// Whether none of these entries, which are in the order of their keys, is within an interval, as
/// the first and the last of them tell.
pub fn are_outside(entries: &[Entry], interval: Interval) -> bool
    requires { IsNonDecreasingBy (λ (e : entry). e.key) entries.now }
    ensures { result ≡ true → entries_within interval entries.now ≡ [] }
{
    let length = entries.len();
    if length == 0 {
        return true;
    }
    if entries[length - 1].key < interval.lowest {
        return true;
    }
    interval.highest < entries[0].key
}
