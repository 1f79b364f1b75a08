//! Parameters: what is sent for places, made values.
ghost use Rattle.std.specs.Prelude.{◌≡◌, ◌<◌, ◌^◌, length, IfErr, IfOk, OnOk};
ghost use Rattle.std.specs.List.{AllZip};
ghost use Rattle.std.specs.Option.{option_copied};
ghost use Rattle.binding_core.specs.Parameters.{IsBound, IsFirstFault, IsParameterFault, sent_parameter, parameters, value_fault};

use crate::fault::BindFault;
use crate::formats::{code_at, format_of, is_binary};
use base_core::{ColType, Value};
use messages_core::{Int16s, Values};
use parameters_core::{ValueFault, read_value};
use std::alloc::Global;

/// What is told of bytes that are no value.
fn value_fault(number: u8, fault: ValueFault) -> BindFault
    ensures { result ≡ value_fault number fault }
{
    match fault {
        ValueFault::NoMemory => BindFault::NoMemory,
        _ => BindFault::BadValue { number, fault },
    }
}

/// The value of the place of this number, by its type, the code of its format, and what is sent
/// for it.
fn read_parameter(
    alloc: Global,
    number: u8,
    ty: ColType,
    code: u16,
    sent: Option<&[u8]>,
) -> Result<Value, BindFault>
    ensures value { IfOk result (IsBound (sent_parameter ty code (option_copied sent.entry))) }
    ensures faulty { IfErr result
        (IsParameterFault number (sent_parameter ty code (option_copied sent.entry))) }
{
    let Some(bytes) = sent else {
        return Err(BindFault::NullValue(number));
    };
    let Some(format) = format_of(code) else {
        return Err(BindFault::UnknownFormat(code));
    };
    match read_value(alloc, ty, is_binary(format), bytes) {
        Ok(value) => Ok(value),
        Err(fault) => Err(value_fault(number, fault)),
    }
}

/// The values of all places, in the order of their numbers.
pub fn read_parameters(
    values: &mut Vec<Value>,
    alloc: Global,
    types: &[ColType],
    codes: &Int16s<'_>,
    sent: &Values<'_>,
) -> Result<(), BindFault>
    requires few { length types.now < 2 ^ 8 }
    requires same { length sent.now ≡ length types.now }
    ensures values { OnOk result
        (AllZip IsBound (parameters types.now codes.now sent.now) values.new.items) }
    ensures faulty { IfErr result (IsFirstFault (parameters types.now codes.now sent.now)) }
{
    values.clear();
    let mut left = sent.iter();
    for place in 0..types.len() {
        let bytes = left.next().unwrap_or(None);
        let code = code_at(codes, place);
        let value = read_parameter(alloc, place as u8 + 1, types[place], code, bytes)?;
        values.push(value)?;
    }
    Ok(())
}
