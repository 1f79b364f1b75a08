//! The effects of INSERT, DELETE and UPDATE, made before the change is carried out.
ghost use Rattle.std.specs.Prelude.{◌≡◌, ◌↔◌, ◌∷◌, [], IfOk, IsSome, IsSomeAnd, IsTrue, filter, map, option_map};
ghost use Rattle.std.specs.Option.{option_map_or};
ghost use Rattle.tables_core.specs.Contents.{assigned_values, satisfies, table_of};
ghost use Rattle.stream_core.specs.Updates.{AreUpdates, row_deleted};

use crate::effect::Effect;
use base_core::{Assignment, Condition, Name, NoMemory, Row, Twin, Value, Values};
use std::alloc::Global;
use tables_core::{NumberedRow, Tables};

/// One effect.
pub fn one(alloc: Global, effect: Effect) -> Result<Vec<Effect>, NoMemory>
    ensures { IfOk result (λ all. all.items ≡ effect ∷ []) }
{
    let mut all = Vec::new(alloc);
    all.push(effect)?;
    Ok(all)
}

/// That a row with these values is inserted.
pub fn inserted(
    alloc: Global,
    tables: &Tables,
    table: Name,
    values: &Values,
) -> Result<Vec<Effect>, NoMemory>
    ensures { let number = option_map_or (λ t. t.inserted) (table_of tables.now.tables table) 0 in
        IfOk result
        (λ all. all.items ≡ Effect.RowInserted table number (record { values = values.now }) ∷ []) }
{
    let values = values.try_twin()?;
    let number = tables.inserted(table);
    let row = Row { values };
    one(alloc, Effect::RowInserted { table, number, row })
}

/// That these rows are deleted.
fn deletions(alloc: Global, table: Name, rows: &[NumberedRow]) -> Result<Vec<Effect>, NoMemory>
    ensures { IfOk result (λ all. all.items ≡ map (row_deleted table) rows.now) }
{
    let mut all = Vec::new(alloc);
    for row in rows {
        let number = row.0;
        all.push(Effect::RowDeleted { table, number })?;
    }
    Ok(all)
}

/// That the rows that the filter chooses are deleted.
pub fn deleted(
    alloc: Global,
    tables: &Tables,
    table: Name,
    conditions: &[Condition],
) -> Result<Vec<Effect>, NoMemory>
    requires { IsSome (table_of tables.now.tables table) }
    ensures { IfOk result (λ all. IsSomeAnd (table_of tables.now.tables table) (λ t.
        all.items ≡ map (row_deleted table) (filter (satisfies t.columns conditions.now) t.rows))) }
{
    let rows = tables.chosen(table, conditions)?;
    deletions(alloc, table, rows.as_slice())
}

/// Whether two rows have the same values.
fn have_same_values(one: &[Value], other: &[Value]) -> bool
    ensures { IsTrue result ↔ (one.now ≡ other.now) }
{
    if one.len() != other.len() {
        return false;
    }
    for at in 0..one.len() {
        if one[at] != other[at] {
            return false;
        }
    }
    true
}

/// That those of these rows have new values to which the assignments give other ones.
fn updates(
    alloc: Global,
    tables: &Tables,
    table: Name,
    sets: &[Assignment],
    rows: Vec<NumberedRow>,
) -> Result<Vec<Effect>, NoMemory>
    requires { IsSome (table_of tables.now.tables table) }
    ensures { IfOk result (λ all. IsSomeAnd (table_of tables.now.tables table) (λ t.
        AreUpdates table (assigned_values t.columns sets.now) rows.items all.items)) }
{
    let mut all = Vec::new(alloc);
    for (number, old) in rows {
        let row = tables.assigned(table, sets, &old)?;
        if !have_same_values(row.values.as_slice(), old.values.as_slice()) {
            all.push(Effect::RowUpdated { table, number, row })?;
        }
    }
    Ok(all)
}

/// That the rows have new values which the filter chooses and to which the assignments give other ones.
pub fn updated(
    alloc: Global,
    tables: &Tables,
    table: Name,
    sets: &[Assignment],
    conditions: &[Condition],
) -> Result<Vec<Effect>, NoMemory>
    requires { IsSome (table_of tables.now.tables table) }
    ensures { IfOk result (λ all. IsSomeAnd (table_of tables.now.tables table) (λ t.
        AreUpdates table (assigned_values t.columns sets.now)
        (filter (satisfies t.columns conditions.now) t.rows) all.items)) }
{
    let rows = tables.chosen(table, conditions)?;
    updates(alloc, tables, table, sets, rows)
}
