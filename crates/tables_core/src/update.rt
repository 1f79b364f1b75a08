//! Assignments in the rows of one table.
ghost use Rattle.std.specs.Prelude.{◌≡◌, ◌≤◌, ◌<◌, IfOk, OnOk, OnErr, IsSome, map, filter, ◌++◌, ◌∷◌, []};
ghost use Rattle.std.specs.List.{AllByRecursion};
ghost use Rattle.base_core.specs.Filter.{with_value};
ghost use Rattle.copyup_core.specs.Holding.{due, value_at};
ghost use Rattle.tables_core.specs.Capture.{rows_due_for};
ghost use Rattle.tables_core.specs.Contents.{assigned_row, assigned_values, satisfies, updated_row};
ghost use Rattle.tables_core.specs.Indexing.{ListAll};
ghost use Rattle.tables_core.specs.Updating.{with_new_rows};

use crate::captured::Captured;
use crate::indexes::Indexes;
use crate::listed::new_rows_listed;
use crate::resolved::Resolved;
use crate::rows::NumberedRow;
use crate::scan::Scan;
use crate::walk::Walk;
use base_core::{Assignment, Column, Condition, NoMemory, Row, Twin, Value, ValuesBuilder};
use copyup_core::Store;
use std::alloc::Global;

/// Puts a value in the place of the one at this index, if there is one.
fn set_value(values: &mut ValuesBuilder, index: Option<usize>, value: Value)
    ensures { values.new ≡ with_value values.old index value }
{
    if let Some(index) = index {
        values.set(index, value);
    }
}

/// A row with the values after the assignments.
pub fn with_assignments(
    alloc: Global,
    sets: &Resolved<'_, Assignment>,
    values: &[Value],
) -> Result<Row, NoMemory>
    ensures { IfOk result (λ row.
        row.values ≡ assigned_values sets.now.columns.now sets.now.items.now values.now) }
{
    let mut made = ValuesBuilder::twins_of(alloc, values)?;
    for (at, set) in sets.items().iter().enumerate() {
        let value = set.value.try_twin()?;
        set_value(&mut made, sets.index_of(at, set), value);
    }
    let values = made.build()?;
    Ok(Row { values })
}

/// Appends the row as it is after the assignments, under its number.
pub fn push_assigned(
    alloc: Global,
    sets: &Resolved<'_, Assignment>,
    number: u64,
    row: &Row,
    new_rows: &mut Vec<NumberedRow>,
) -> Result<(), NoMemory>
    ensures { OnOk result
        (new_rows.new.items
        ≡ new_rows.old.items
        ++ assigned_row sets.now.columns.now sets.now.items.now (number, row.now) ∷ []) }
{
    let row = with_assignments(alloc, sets, row.values.as_slice())?;
    new_rows.push((number, row))?;
    Ok(())
}

/// Each row that the filter chooses, as it is after the assignments, under its number.
fn new_rows_scanned(
    alloc: Global,
    rows: &Store<Row>,
    sets: &Resolved<'_, Assignment>,
    conditions: &Resolved<'_, Condition>,
) -> Result<Vec<NumberedRow>, NoMemory>
    ensures { IfOk result
        (λ new_rows.
        new_rows.items
        ≡ map (assigned_row sets.now.columns.now sets.now.items.now)
        (filter (satisfies conditions.now.columns.now conditions.now.items.now)
        rows.now.contents)) }
{
    let scan = Scan::new(conditions);
    let mut new_rows = Vec::new(alloc);
    for (number, row) in rows.items() {
        if scan.choose(row) {
            push_assigned(alloc, sets, number, row, &mut new_rows)?;
        }
    }
    Ok(new_rows)
}

/// The same, by an index where one serves.
fn new_rows(
    alloc: Global,
    rows: &Store<Row>,
    indexes: &Indexes,
    sets: &Resolved<'_, Assignment>,
    conditions: &Resolved<'_, Condition>,
) -> Result<Vec<NumberedRow>, NoMemory>
    requires { ListAll indexes.now.kept.items rows.now.contents }
    ensures { IfOk result
        (λ new_rows.
        new_rows.items
        ≡ map (assigned_row sets.now.columns.now sets.now.items.now)
        (filter (satisfies conditions.now.columns.now conditions.now.items.now)
        rows.now.contents)) }
{
    match indexes.find(conditions, rows) {
        Some(numbers) => new_rows_listed(alloc, rows, sets, numbers),
        None => new_rows_scanned(alloc, rows, sets, conditions),
    }
}

/// Puts the rows under their numbers, which have to be there.
fn set_new_rows(rows: &mut Store<Row>, new_rows: Vec<NumberedRow>)
    requires { AllByRecursion (λ r. IsSome (value_at r.0 rows.old.contents)) new_rows.items }
    ensures contents { rows.new.contents ≡ with_new_rows rows.old.contents new_rows.items }
    ensures next { rows.new.next ≡ rows.old.next }
    ensures rest { rows.new.rest ≡ rows.old.rest }
{
    for (number, row) in new_rows {
        drop(rows.replace(number, row));
    }
}

/// Makes the assignments in each row that the filter chooses. The rows are made first, so that
/// nothing has changed where one of them finds no memory.
pub fn update_chosen(
    alloc: Global,
    walk: Walk,
    columns: &[Column],
    rows: &mut Captured,
    indexes: &mut Indexes,
    sets: &[Assignment],
    filter: &[Condition],
) -> Result<(), NoMemory>
    requires { ListAll indexes.old.kept.items rows.old.store.contents }
    ensures listed { ListAll indexes.new.kept.items rows.new.store.contents }
    ensures ok { OnOk result
        (rows.new.store.contents
        ≡ map (updated_row columns.now sets.now filter.now) rows.old.store.contents) }
    ensures no_memory { OnErr result (rows.new.store.contents ≡ rows.old.store.contents) }
    ensures next { rows.new.store.next ≡ rows.old.store.next }
    ensures capture { rows.old.capture ≤ walk.number → rows.new.capture ≤ walk.number }
    ensures due { 0 < walk.left
        → rows_due_for walk.number rows.new ≡ rows_due_for walk.number rows.old }
{
    // No two rows have one number: theirs rise, as `len` tells.
    let count = rows.store.len();
    let conditions = Resolved::new(columns, filter);
    let changes = Resolved::new(columns, sets);
    let new_rows = new_rows(alloc, &rows.store, indexes, &changes, &conditions)?;
    indexes.note_changed(columns, sets, new_rows.as_slice(), count);
    rows.prepare(walk);
    set_new_rows(&mut rows.store, new_rows);
    Ok(())
}
