//! Statements with values in their places.
ghost use Rattle.std.specs.Prelude.{◌≡◌, ◌≤◌, ◌<◌, ◌^◌, ◌+◌, ◌↔◌, length, min, IfErr, IfOk, IsTrue, OnOk};
ghost use Rattle.parameters_core.specs.Filling.{IsFilled};
ghost use Rattle.binding_core.specs.Binding.{AreCounted, Binds, IsBindFault, IsNotFilled, fill_fault};

use crate::fault::BindFault;
use crate::formats::are_codes_for;
use crate::parameters::read_parameters;
use base_core::{ColType, Value};
use messages_core::{Int16s, Values};
use parameters_core::{FillFault, fill, greatest_place};
use std::alloc::Global;

/// How many values there are, but no more than so many.
fn value_count(values: &Values<'_>, most: usize) -> usize
    ensures { result ≡ min (length values.now) most }
{
    let mut left = values.iter();
    for count in 0..most {
        let Some(_) = left.next() else {
            return count;
        };
    }
    most
}

/// Whether there are just so many types and values, and codes for as many.
fn are_counted(number: u8, types: &[ColType], codes: &Int16s<'_>, values: &Values<'_>) -> bool
    ensures { IsTrue result ↔ AreCounted number types.now codes.now values.now }
{
    let number = number as usize;
    types.len() == number
        && value_count(values, number + 1) == number
        && are_codes_for(codes, number)
}

/// What is told where a text is not filled with a value for each place.
fn fill_fault(fault: FillFault) -> BindFault
    ensures { result ≡ fill_fault fault }
{
    match fault {
        FillFault::NoMemory => BindFault::NoMemory,
        FillFault::TooLong => BindFault::TooLong,
        FillFault::NoValue(_) => BindFault::WrongCount,
    }
}

/// Makes the line of the text with these values.
fn fill_line(line: &mut Vec<u8>, text: &[u8], values: &[Value]) -> Result<(), BindFault>
    ensures filled { OnOk result (IsFilled text.now values.now line.new.items) }
    ensures short { OnOk result (length line.new.items ≤ 4096) }
    ensures faulty { IfErr result (IsNotFilled text.now values.now) }
{
    match fill(line, text, values) {
        Ok(()) => Ok(()),
        Err(fault) => Err(fill_fault(fault)),
    }
}

/// Makes the line of the text with the values that are sent.
fn bind_into(
    line: &mut Vec<u8>,
    alloc: Global,
    text: &[u8],
    types: &[ColType],
    formats: &Int16s<'_>,
    values: &Values<'_>,
) -> Result<(), BindFault>
    ensures bound { OnOk result
        (Binds text.now types.now formats.now values.now line.new.items) }
    ensures short { OnOk result (length line.new.items ≤ 4096) }
    ensures faulty { IfErr result (IsBindFault text.now types.now formats.now values.now) }
{
    if !are_counted(greatest_place(text), types, formats, values) {
        return Err(BindFault::WrongCount);
    }
    let mut bound = Vec::new(alloc);
    read_parameters(&mut bound, alloc, types, formats, values)?;
    fill_line(line, text, bound.as_slice())
}

/// Binds values to the places of a statement: the line of its text, each place with the literal of
/// the value that is sent for it.
///
/// `types` has the type of each place, from 1 to the greatest, and `values` a value for each.
/// `formats` has the codes of their formats: none, all are text; one is for all; else each has its
/// own. 0 is text and 1 binary.
///
/// `WrongCount` where there is not one type and one value for each place, or there are several
/// codes, and not one for each. Else the first value that is none tells why: `NullValue`,
/// `UnknownFormat`, or `BadValue` with its fault. Else `TooLong` where the line would have more
/// than 4,096 bytes. `NoMemory` where a request for memory was refused.
pub fn bind(
    alloc: Global,
    text: &[u8],
    types: &[ColType],
    formats: &Int16s<'_>,
    values: &Values<'_>,
) -> Result<Vec<u8>, BindFault>
    ensures bound { IfOk result (λ line.
        Binds text.now types.now formats.now values.now line.items) }
    ensures short { IfOk result (λ line. length line.items ≤ 4096) }
    ensures faulty { IfErr result (IsBindFault text.now types.now formats.now values.now) }
{
    let mut line = Vec::new(alloc);
    bind_into(&mut line, alloc, text, types, formats, values)?;
    Ok(line)
}
