//! The literals of a statement, and the columns for which they stand.
ghost use Rattle.std.specs.Prelude.{◌≡◌, ◌<◌, ◌^◌, ◌∷◌, [], pos, length};
ghost use Rattle.base_core.specs.declared.value.Value.TheVariants as values_of;
ghost use Rattle.binding_core.specs.Literals.{filter_literals, filter_names, literal_type, literals, named_type, literal_number, number_in, type_at, type_in, update_literals, update_names, value_number};

use base_core::{Assignment, ColType, Column, Condition, Name, Value, column_index};
use reader_core::Statement;

/// The number that a value is, if it is one.
fn value_number(value: &Value) -> Option<i64>
    ensures { result ≡ value_number value.now }
{
    match value {
        Value::Int(number) => Some(*number),
        Value::Text(_) => None,
    }
}

/// The same of the literal of the condition at this index.
fn condition_number(filter: &[Condition], index: usize) -> Option<i64>
    ensures { result ≡ number_in (filter_literals filter.now) index }
{
    value_number(&filter.get(index)?.literal)
}

/// The same of the literal at this index of SET, or behind those of WHERE.
fn update_number(sets: &[Assignment], filter: &[Condition], index: usize) -> Option<i64>
    ensures { result ≡ number_in (update_literals sets.now filter.now) index }
{
    match sets.get(index) {
        Some(set) => value_number(&set.value),
        None => condition_number(filter, index - sets.len()),
    }
}

/// The same of the literal at this index of EXPORT, which has one.
fn export_number(number: u64, index: usize) -> Option<i64>
    requires { number < 2 ^ 63 }
    ensures { result ≡ number_in (values_of.Int (pos number) ∷ []) index }
{
    if index == 0 {
        Some(number as i64)
    } else {
        None
    }
}

/// The number that the literal at this index of the statement is, if it is one.
pub fn literal_number(statement: &Statement, index: usize) -> Option<i64>
    ensures { result ≡ literal_number statement.now index }
{
    match statement {
        Statement::Insert { values, .. } => value_number(values.as_slice().get(index)?),
        Statement::Select { filter, .. } | Statement::Delete { filter, .. } => {
            condition_number(filter.as_slice(), index)
        }
        Statement::Update { sets, filter, .. } => {
            update_number(sets.as_slice(), filter.as_slice(), index)
        }
        Statement::Export { number, .. } => export_number(number.get(), index),
        _ => None,
    }
}

/// How many literals the statement has.
pub fn literal_count(statement: &Statement) -> usize
    ensures { result ≡ length (literals statement.now) }
{
    match statement {
        Statement::Insert { values, .. } => values.as_slice().len(),
        Statement::Select { filter, .. } | Statement::Delete { filter, .. } => {
            filter.as_slice().len()
        }
        Statement::Update { sets, filter, .. } => sets.as_slice().len() + filter.as_slice().len(),
        Statement::Export { .. } => 1,
        _ => 0,
    }
}

/// The type of the column at this index, if there is one.
fn type_at(columns: &[Column], index: usize) -> Option<ColType>
    ensures { result ≡ type_at columns.now index }
{
    Some(columns.get(index)?.ty)
}

/// The type of the column of this name, if there is one.
fn named_type(columns: &[Column], name: Name) -> Option<ColType>
    ensures { result ≡ named_type columns.now name }
{
    type_at(columns, column_index(columns, name)?)
}

/// The type of the column that the condition at this index names.
fn condition_type(columns: &[Column], filter: &[Condition], index: usize) -> Option<ColType>
    ensures { result ≡ type_in columns.now (filter_names filter.now) index }
{
    named_type(columns, filter.get(index)?.column)
}

/// The type of the column that SET names at this index, or WHERE behind it.
fn update_type(
    columns: &[Column],
    sets: &[Assignment],
    filter: &[Condition],
    index: usize,
) -> Option<ColType>
    ensures { result ≡ type_in columns.now (update_names sets.now filter.now) index }
{
    match sets.get(index) {
        Some(set) => named_type(columns, set.column),
        None => condition_type(columns, filter, index - sets.len()),
    }
}

/// The type of the column for which the literal at this index of the statement stands, if there is
/// such a column.
pub fn literal_type(columns: &[Column], statement: &Statement, index: usize) -> Option<ColType>
    ensures { result ≡ literal_type columns.now statement.now index }
{
    match statement {
        Statement::Insert { .. } => type_at(columns, index),
        Statement::Select { filter, .. } | Statement::Delete { filter, .. } => {
            condition_type(columns, filter.as_slice(), index)
        }
        Statement::Update { sets, filter, .. } => {
            update_type(columns, sets.as_slice(), filter.as_slice(), index)
        }
        Statement::Export { .. } => Some(ColType::Integer),
        _ => None,
    }
}
