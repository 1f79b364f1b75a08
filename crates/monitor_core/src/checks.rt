//! The single checks of a judgement.
ghost use Rattle.std.specs.Prelude.{◌≡◌, slice_get, option_and_then};
ghost use Rattle.std.specs.List.{zip};
ghost use Rattle.std.specs.Option.{option_copied};
ghost use Rattle.base_core.specs.Filter.{column_index};
ghost use Rattle.base_core.specs.declared.value.Value as values;
ghost use Rattle.monitor_core.specs.Verdict.{require, each, is_table, columns_of, takes};

use base_core::{Assignment, Column, Condition, Lack, Name, Named, Value, column_index};
use tables_core::Tables;

/// What names a column, and a value for it.
pub trait Literal: Named {
    ghost literal_of: { Self → values.Value };

    fn literal(&self) -> &Value
        ensures { result.now ≡ literal_of self.now };
}

impl Literal for Condition {
    ghost literal_of = { λ c. c.literal };

    fn literal(&self) -> &Value {
        &self.literal
    }
}

impl Literal for Assignment {
    ghost literal_of = { λ a. a.value };

    fn literal(&self) -> &Value {
        &self.value
    }
}

/// Passed where the test holds, and else the lack.
pub fn require(holds: bool, lack: Lack) -> Result<(), Lack>
    ensures { result ≡ require holds lack }
{
    if holds { Ok(()) } else { Err(lack) }
}

/// Whether a table of this name stands.
pub fn is_table(tables: &Tables, name: Name) -> bool
    ensures { result ≡ is_table tables.now.tables name }
{
    tables.owner(name).is_some()
}

/// The columns of the table of this name, in order, and none where there is no such table: by these
/// UPDATE without columns is judged, and by these it is to be carried out.
pub fn columns_of(tables: &Tables, name: Name) -> &[Column]
    ensures { result.now ≡ columns_of tables.now.tables name }
{
    match tables.columns(name) {
        Some(columns) => columns,
        None => &[],
    }
}

/// The column of this name. None where there is no such column.
pub fn column_of<'c>(columns: &'c [Column], name: Name) -> Option<&'c Column>
    ensures { option_copied result
        ≡ option_and_then (slice_get columns.now) (column_index columns.now name) }
{
    columns.get(column_index(columns, name)?)
}

/// Passed where the column takes the value.
#[inline(always)]
pub fn takes(column: Column, value: &Value) -> Result<(), Lack>
    ensures { result ≡ takes column value.now }
{
    let Column { name, ty } = column;
    if value.has_type(ty) {
        return Ok(());
    }
    Err(Lack::WrongType {
        column: name,
        wanted: ty,
    })
}

/// Passed where each column takes the value at its place.
#[inline(always)]
pub fn each_takes(columns: &[Column], values: &[Value]) -> Result<(), Lack>
    ensures { result ≡ each (zip columns.now values.now) (λ pair. takes pair.0 pair.1) }
{
    for (column, value) in columns.iter().zip(values) {
        if let Err(lack) = takes(*column, value) {
            return Err(lack);
        }
    }
    Ok(())
}
