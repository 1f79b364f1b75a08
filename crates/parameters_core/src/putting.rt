//! Bytes put behind a line, which has room for 4,096.
ghost use Rattle.std.specs.Prelude.{◌≡◌, ◌+◌, ◌≤◌, ◌∷◌, [], length, IfErr, OnOk};
ghost use Rattle.std.specs.Fmt.{signed_decimal};
ghost use Rattle.std.specs.Option.{option_copied};
ghost use Rattle.lexer_core.specs.Lexing.{Text as Quoted};
ghost use Rattle.reader_core.specs.Saying.{value_lexeme};
ghost use Rattle.printer_core.specs.Printing.{doubled, lexeme_text};
ghost use Rattle.parameters_core.specs.Filling.{as_line, line_byte};
ghost use Rattle.parameters_core.specs.Putting.{IsPut, IsPutFault, HasValue, says_by, parted};

use crate::fault::FillFault;
use crate::statements::{inside_behind, is_line_end};
use base_core::Value;
use itoa::Buffer;
use lexer_core::MAX_LINE;

fn put(line: &mut Vec<u8>, byte: u8) -> Result<(), FillFault>
    ensures put { OnOk result (IsPut (byte ∷ []) line.old.items line.new.items) }
    ensures faulty { IfErr result (IsPutFault (length line.old.items + 1)) }
{
    if line.len() >= MAX_LINE {
        return Err(FillFault::TooLong);
    }
    line.push(byte)?;
    Ok(())
}

fn put_all(line: &mut Vec<u8>, bytes: &[u8]) -> Result<(), FillFault>
    requires { length line.old.items ≤ 4096 }
    ensures put { OnOk result (IsPut bytes.now line.old.items line.new.items) }
    ensures faulty { IfErr result (IsPutFault (length line.old.items + length bytes.now)) }
{
    if bytes.len() > MAX_LINE - line.len() {
        return Err(FillFault::TooLong);
    }
    line.extend_from_slice(bytes)?;
    Ok(())
}

/// Puts a byte of a text there, a quote twice.
fn put_of_text(line: &mut Vec<u8>, byte: u8) -> Result<(), FillFault>
    requires { length line.old.items ≤ 4096 }
    ensures put { OnOk result (IsPut (doubled (byte ∷ [])) line.old.items line.new.items) }
    ensures faulty { IfErr result
        (IsPutFault (length line.old.items + length (doubled (byte ∷ [])))) }
{
    if byte == b'\'' {
        put_all(line, b"''")
    } else {
        put(line, byte)
    }
}

fn put_doubled(line: &mut Vec<u8>, text: &[u8]) -> Result<(), FillFault>
    requires { length line.old.items ≤ 4096 }
    ensures put { OnOk result (IsPut (doubled text.now) line.old.items line.new.items) }
    ensures faulty { IfErr result
        (IsPutFault (length line.old.items + length (doubled text.now))) }
{
    for i in 0..text.len() {
        put_of_text(line, text[i])?;
    }
    Ok(())
}

fn put_number(line: &mut Vec<u8>, number: i64) -> Result<(), FillFault>
    requires { length line.old.items ≤ 4096 }
    ensures put { OnOk result (IsPut (signed_decimal number) line.old.items line.new.items) }
    ensures faulty { IfErr result
        (IsPutFault (length line.old.items + length (signed_decimal number))) }
{
    let mut digits = Buffer::new();
    put_all(line, digits.format(number).as_bytes())
}

fn put_quoted(line: &mut Vec<u8>, text: &[u8]) -> Result<(), FillFault>
    requires { length line.old.items ≤ 4096 }
    ensures put { OnOk result
        (IsPut (lexeme_text (Quoted text.now)) line.old.items line.new.items) }
    ensures faulty { IfErr result
        (IsPutFault (length line.old.items + length (lexeme_text (Quoted text.now)))) }
{
    put(line, b'\'')?;
    put_doubled(line, text)?;
    put(line, b'\'')
}

fn put_literal(line: &mut Vec<u8>, value: &Value) -> Result<(), FillFault>
    requires { length line.old.items ≤ 4096 }
    ensures put { OnOk result
        (IsPut (lexeme_text (value_lexeme value.now)) line.old.items line.new.items) }
    ensures faulty { IfErr result
        (IsPutFault (length line.old.items + length (lexeme_text (value_lexeme value.now)))) }
{
    match value {
        Value::Int(number) => put_number(line, *number),
        Value::Text(text) => put_quoted(line, text.as_bytes()),
    }
}

/// Puts the literal of the value there that the number of a place stands for, or 1 where there are
/// no values.
fn put_value(line: &mut Vec<u8>, values: Option<&[Value]>, number: u8) -> Result<(), FillFault>
    requires short { length line.old.items ≤ 4096 }
    requires value { HasValue (option_copied values) number }
    ensures put { OnOk result (IsPut (lexeme_text (says_by (option_copied values.entry) number))
        line.old.items line.new.items) }
    ensures faulty { IfErr result (IsPutFault (length line.old.items
        + length (lexeme_text (says_by (option_copied values.entry) number)))) }
{
    match values {
        Some(values) => put_literal(line, &values[number as usize - 1]),
        None => put_number(line, 1),
    }
}

/// Puts that literal there between two blanks.
pub fn put_place(line: &mut Vec<u8>, values: Option<&[Value]>, number: u8) -> Result<(), FillFault>
    requires short { length line.old.items ≤ 4096 }
    requires value { HasValue (option_copied values) number }
    ensures put { OnOk result (IsPut (parted (says_by (option_copied values.entry) number))
        line.old.items line.new.items) }
    ensures faulty { IfErr result (IsPutFault (length line.old.items
        + length (parted (says_by (option_copied values.entry) number)))) }
{
    put(line, b' ')?;
    put_value(line, values, number)?;
    put(line, b' ')
}

/// How a byte of a segment stands in the line.
fn in_line(is_inside: bool, byte: u8) -> u8
    ensures { result ≡ line_byte is_inside byte }
{
    if is_line_end(byte) && !is_inside {
        b' '
    } else {
        byte
    }
}

/// Puts a segment of a text there, its line ends outside texts in quotes as blanks.
pub fn put_segment(line: &mut Vec<u8>, segment: &[u8]) -> Result<(), FillFault>
    requires { length line.old.items ≤ 4096 }
    ensures put { OnOk result (IsPut (as_line segment.now) line.old.items line.new.items) }
    ensures faulty { IfErr result
        (IsPutFault (length line.old.items + length (as_line segment.now))) }
{
    let mut is_inside = false;
    for i in 0..segment.len() {
        put(line, in_line(is_inside, segment[i]))?;
        is_inside = inside_behind(is_inside, segment[i]);
    }
    Ok(())
}
