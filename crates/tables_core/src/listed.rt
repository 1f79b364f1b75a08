//! Work on the rows of one table that an index lists.
ghost use Rattle.std.specs.Prelude.{◌≡◌, IfOk, filter, map, not};
ghost use Rattle.std.specs.List.Sorted.{IsStrictlyIncreasing};
ghost use Rattle.tables_core.specs.Contents.{satisfies, projected_values, assigned_row};
ghost use Rattle.tables_core.specs.Picking.{rows_at, without_rows, row_passes_at, Covers};

use crate::resolved::Resolved;
use crate::rows::{NumberedRow, are_in_order, cut_or_shared};
use crate::update::push_assigned;
use base_core::{Assignment, Condition, Name, NoMemory, Row};
use copyup_core::Store;
use std::alloc::Global;

/// Whether there is a row of this number and the filter chooses it.
fn is_chosen_at(conditions: &Resolved<'_, Condition>, rows: &Store<Row>, number: u64) -> bool
    ensures { result
        ≡ row_passes_at (satisfies conditions.now.columns.now conditions.now.items.now)
        rows.now.contents number }
{
    match rows.get(number) {
        Some(row) => conditions.choose(row),
        None => false,
    }
}

/// Keeps of these numbers those of the rows that the filter chooses. All of its rows must be among
/// them.
pub fn keep_chosen(conditions: &Resolved<'_, Condition>, rows: &Store<Row>, numbers: &mut Vec<u64>)
    requires rising { IsStrictlyIncreasing numbers.old.items }
    requires covers { Covers (satisfies conditions.now.columns.now conditions.now.items.now)
        numbers.old.items rows.now.contents }
    ensures found { rows_at numbers.new.items rows.now.contents
        ≡ filter (satisfies conditions.now.columns.now conditions.now.items.now)
        rows.now.contents }
    ensures left { without_rows numbers.new.items rows.now.contents
        ≡ filter (λ r. not (satisfies conditions.now.columns.now conditions.now.items.now r))
        rows.now.contents }
{
    // The numbers of rows rise, as `len` tells.
    let _len = rows.len();
    numbers.retain(|number| is_chosen_at(conditions, rows, *number));
}

/// The named columns of the rows of these numbers.
pub fn rows_listed(
    alloc: Global,
    names: &Resolved<'_, Name>,
    rows: &Store<Row>,
    numbers: Vec<u64>,
) -> Result<Vec<Row>, NoMemory>
    ensures { IfOk result
        (λ chosen.
        chosen.items
        ≡ map
        (λ r.
        record { values = projected_values names.now.columns.now names.now.items.now r.1.values })
        (rows_at numbers.items rows.now.contents)) }
{
    let in_order = are_in_order(names);
    let mut chosen = Vec::new(alloc);
    for number in numbers {
        let Some(row) = rows.get(number) else {
            continue;
        };
        chosen.push(cut_or_shared(alloc, names, in_order, row)?)?;
    }
    Ok(chosen)
}

/// Each of the rows of these numbers as it is after the assignments, under its number.
pub fn new_rows_listed(
    alloc: Global,
    rows: &Store<Row>,
    sets: &Resolved<'_, Assignment>,
    numbers: Vec<u64>,
) -> Result<Vec<NumberedRow>, NoMemory>
    ensures { IfOk result
        (λ new_rows.
        new_rows.items
        ≡ map (assigned_row sets.now.columns.now sets.now.items.now)
        (rows_at numbers.items rows.now.contents)) }
{
    let mut new_rows = Vec::new(alloc);
    for number in numbers {
        let Some(row) = rows.get(number) else {
            continue;
        };
        push_assigned(alloc, sets, number, row, &mut new_rows)?;
    }
    Ok(new_rows)
}

/// Drops the rows of these numbers.
pub fn drop_listed(rows: &mut Store<Row>, numbers: Vec<u64>)
    ensures contents { rows.new.contents ≡ without_rows numbers.items rows.old.contents }
    ensures next { rows.new.next ≡ rows.old.next }
    ensures rest { rows.new.rest ≡ rows.old.rest }
{
    for number in numbers {
        rows.remove(number);
    }
}
