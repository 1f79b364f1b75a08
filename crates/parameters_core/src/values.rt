//! Values as a client sends them.
ghost use Rattle.std.specs.Prelude.{◌≡◌, ◌≢◌, ℤ, Bool, length, IfOk, IfErr, MatchOption};
ghost use Rattle.std.specs.List.{list_any};
ghost use Rattle.std.specs.Char.{is_control};
ghost use Rattle.std.specs.Str.{chars};
ghost use Rattle.base_core.specs.declared.value.ColType.TheVariants as types;
ghost use Rattle.lexer_core.specs.Lexing.{IsNumber};
ghost use Rattle.parameters_core.specs.Values.{AreValue, IsBinaryNumber, IsValueFault};

use crate::fault::ValueFault;
use base_core::{ColType, Text, Value};
use lexer_core::byte_at;
use std::alloc::Global;

/// The most bytes of a text.
const MAX_TEXT: usize = 1024;

/// The number that the bytes spell in decimal, as the language writes numbers.
fn decimal_number(bytes: &[u8]) -> Option<i64>
    ensures { MatchOption result ((z : ℤ) → IsNumber z bytes.now → ⊥)
        (λ z. IsNumber z bytes.now) }
{
    if byte_at(bytes, 0) == b'+' {
        return None;
    }
    match str::from_utf8(bytes) {
        Ok(text) => text.parse().ok(),
        Err(_) => None,
    }
}

/// The number that the bytes are in big-endian two's complement.
fn binary_number(bytes: &[u8]) -> Option<i64>
    ensures { MatchOption result
        ((length bytes.now ≢ 2) × (length bytes.now ≢ 4) × (length bytes.now ≢ 8))
        (λ z. IsBinaryNumber z bytes.now) }
{
    let len = bytes.len();
    if len == 2 {
        return Some(i16::from_be_bytes([bytes[0], bytes[1]]) as i64);
    }
    if len == 4 {
        return Some(i32::from_be_bytes([bytes[0], bytes[1], bytes[2], bytes[3]]) as i64);
    }
    if len == 8 {
        return Some(i64::from_be_bytes([
            bytes[0], bytes[1], bytes[2], bytes[3], bytes[4], bytes[5], bytes[6], bytes[7],
        ]));
    }
    None
}

fn has_control(text: &str) -> bool
    ensures { result ≡ list_any is_control (chars text.now) }
{
    text.chars().any(|char| char.is_control())
}

/// A text, in either format.
fn read_text(alloc: Global, bytes: &[u8]) -> Result<Value, ValueFault>
    ensures value { IfOk result
        (λ value. (is_binary : Bool) → AreValue types.Text is_binary bytes.now value) }
    ensures faulty { IfErr result
        (λ fault. (is_binary : Bool) → IsValueFault types.Text is_binary bytes.now fault) }
{
    let Ok(text) = str::from_utf8(bytes) else {
        return Err(ValueFault::BadText);
    };
    if has_control(text) {
        return Err(ValueFault::BadText);
    }
    if bytes.len() > MAX_TEXT {
        return Err(ValueFault::TooLong);
    }
    Ok(Value::Text(Text::from_bytes(alloc, bytes)?))
}

fn read_number(is_binary: bool, bytes: &[u8]) -> Result<Value, ValueFault>
    ensures value { IfOk result (AreValue types.Integer is_binary bytes.now) }
    ensures faulty { IfErr result (IsValueFault types.Integer is_binary bytes.now) }
{
    if is_binary {
        match binary_number(bytes) {
            Some(number) => Ok(Value::Int(number)),
            None => Err(ValueFault::BadLength),
        }
    } else {
        match decimal_number(bytes) {
            Some(number) => Ok(Value::Int(number)),
            None => Err(ValueFault::BadNumber),
        }
    }
}

/// The value that a client sends for a column of this type, by whether it is in the binary format.
///
/// A number is decimal as the language writes it, or binary: 2, 4 or 8 bytes in big-endian two's
/// complement. A text is its bytes in either format: at most 1,024, of UTF-8 without control
/// characters. Else the fault says what is wrong, and `NoMemory` that memory for a text was
/// refused.
pub fn read_value(
    alloc: Global,
    ty: ColType,
    is_binary: bool,
    bytes: &[u8],
) -> Result<Value, ValueFault>
    ensures value { IfOk result (AreValue ty is_binary bytes.now) }
    ensures faulty { IfErr result (IsValueFault ty is_binary bytes.now) }
{
    match ty {
        ColType::Integer => read_number(is_binary, bytes),
        ColType::Text => read_text(alloc, bytes),
    }
}
