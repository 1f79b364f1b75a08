//! The types of places, from where they stand.
ghost use Rattle.std.specs.Prelude.{◌≡◌, ◌↔◌, pos, IfOk, IsTrue, Some, length};
ghost use Rattle.binding_core.specs.Standing.{AreNumbersFrom, ArePlaceTypes, IsPlaceType, StandsAt};

use crate::literals::{literal_count, literal_number, literal_type};
use base_core::{ColType, Column, NoMemory, Value};
use reader_core::Statement;
use std::alloc::Global;

/// Whether there is a number, and it is this one.
fn is_number(found: Option<i64>, number: u8) -> bool
    ensures { IsTrue result ↔ (found ≡ Some (pos number)) }
{
    match found {
        Some(found) => found == i64::from(number),
        None => false,
    }
}

/// Whether the place of this number stands at this index.
fn stands_at(ones: &Statement, others: &Statement, number: u8, index: usize) -> bool
    ensures { IsTrue result ↔ StandsAt ones.now others.now number index }
{
    is_number(literal_number(ones, index), number)
        && !is_number(literal_number(others, index), number)
}

/// The type of the place of this number.
fn place_type(columns: &[Column], ones: &Statement, others: &Statement, number: u8) -> ColType
    ensures { IsPlaceType columns.now ones.now others.now number result }
{
    for index in 0..literal_count(ones) {
        if stands_at(ones, others, number, index) {
            return literal_type(columns, ones, index).unwrap_or(ColType::Text);
        }
    }
    ColType::Text
}

/// Values for so many places: this number and those behind it. A text that is filled with them is
/// read to see where its places stand. `NoMemory` where a request for memory was refused.
pub fn place_numbers(alloc: Global, first: u8, count: u8) -> Result<Vec<Value>, NoMemory>
    ensures count { IfOk result (λ values. length values.items ≡ count) }
    ensures numbers { IfOk result (λ values. AreNumbersFrom first values.items) }
{
    let mut values = Vec::new(alloc);
    for place in 0..count {
        values.push(Value::Int(i64::from(first) + i64::from(place)))?;
    }
    Ok(values)
}

/// The types of so many places of a statement, of which a client has told nothing: that of the
/// column for which a place stands first, and else Text.
///
/// The statement is given twice, read from its text with two numbers in each place, by
/// [`place_numbers`]: 1, 2 and so on in those of the first, and other ones in those of the second.
/// So a place stands where the first has its number, and the second has not. `NoMemory` where a
/// request for memory was refused.
pub fn place_types(
    alloc: Global,
    columns: &[Column],
    ones: &Statement,
    others: &Statement,
    count: u8,
) -> Result<Vec<ColType>, NoMemory>
    ensures count { IfOk result (λ types. length types.items ≡ count) }
    ensures types { IfOk result (λ types.
        ArePlaceTypes columns.now ones.now others.now types.items) }
{
    let mut types = Vec::new(alloc);
    for place in 0..count {
        types.push(place_type(columns, ones, others, place + 1))?;
    }
    Ok(types)
}
