//! The interval of values that a filter leaves to one column.
ghost use Rattle.std.specs.Prelude.{◌≡◌, Option, List, true, slice_get};
ghost use Rattle.base_core.specs.declared.value.Value.{Value as values};
ghost use Rattle.base_core.specs.Filter.{at_index, cell_meets, is_chosen};
ghost use Rattle.tables_core.specs.Indexing.{IsCellWithin, IsCellKept};

use crate::resolved::Resolved;
use base_core::Condition;
use index_core::{Interval, Key};

/// The interval of the values that meet a condition besides.
fn narrowed(so_far: Option<Interval>, key: Key, condition: &Condition) -> Interval
    ensures { (cell : Option values)
        → IsCellKept key so_far cell
        → cell_meets condition.now cell ≡ true
        → IsCellWithin key result cell }
{
    match so_far {
        Some(interval) => interval.narrowed(key, condition.comparison, &condition.literal),
        None => Interval::whole().narrowed(key, condition.comparison, &condition.literal),
    }
}

/// The interval where a condition on the column at this index has to be met too. None where no
/// condition so far was on the column at this place.
fn with_condition(
    so_far: Option<Interval>,
    condition: &Condition,
    index: Option<usize>,
    place: usize,
    key: Key,
) -> Option<Interval>
    ensures { (row : List values)
        → IsCellKept key so_far (slice_get row place)
        → cell_meets condition.now (at_index row index) ≡ true
        → IsCellKept key result (slice_get row place) }
{
    let Some(at) = index else {
        return so_far;
    };
    if at != place {
        return so_far;
    }
    Some(narrowed(so_far, key, condition))
}

/// An interval within which each row that the filter chooses has the key of its value at this
/// place. None where no condition is on the column there.
pub fn interval_at(conditions: &Resolved<'_, Condition>, place: usize, key: Key) -> Option<Interval>
    ensures { (row : List values)
        → is_chosen conditions.now.columns.now conditions.now.items.now row ≡ true
        → IsCellKept key result (slice_get row place) }
{
    let mut interval = None;
    for (at, condition) in conditions.items().iter().enumerate() {
        interval = with_condition(
            interval,
            condition,
            conditions.index_of(at, condition),
            place,
            key,
        );
    }
    interval
}
