//! Formats, by their codes.
ghost use Rattle.std.specs.Prelude.{◌≡◌, ◌↔◌, ◌+◌, ◌<◌, ◌^◌, length, min, IfErr, IfOk, IsTrue, MatchOption};
ghost use Rattle.messages_core.specs.Rows.{format_code};
ghost use Rattle.binding_core.specs.Formats.{AreCodesFor, AreFormats, IsUnknown, IsUnknownFormat, code_for, is_binary};

use messages_core::{Format, Int16s};
use reader_core::MAX_ITEMS;

/// How many codes there are, but no more than so many.
fn code_count(codes: &Int16s<'_>, most: usize) -> usize
    ensures { result ≡ min (length codes.now) most }
{
    let mut left = codes.iter();
    for count in 0..most {
        let Some(_) = left.next() else {
            return count;
        };
    }
    most
}

/// Whether there is no code, one for all of so many, or one for each of them.
pub fn are_codes_for(codes: &Int16s<'_>, count: usize) -> bool
    requires { count + 2 < 2 ^ 64 }
    ensures { IsTrue result ↔ AreCodesFor count codes.now }
{
    let found = code_count(codes, count + 2);
    found <= 1 || found == count
}

/// The code for the value or the column at this index. It goes over those before it.
pub fn code_at(codes: &Int16s<'_>, index: usize) -> u16
    ensures { result ≡ code_for codes.now index }
{
    let mut left = codes.iter();
    let Some(first) = left.next() else {
        return 0;
    };
    let Some(_) = left.next() else {
        return first;
    };
    codes.iter().nth(index).unwrap_or(0)
}

/// The format of this code.
pub fn format_of(code: u16) -> Option<Format>
    ensures { MatchOption result (IsUnknown code) (λ format. code ≡ format_code format) }
{
    match code {
        0 => Some(Format::Text),
        1 => Some(Format::Binary),
        _ => None,
    }
}

/// Whether the format is the binary one.
pub fn is_binary(format: Format) -> bool
    ensures { result ≡ is_binary format }
{
    matches!(format, Format::Binary)
}

/// The formats of the first columns of a result, as many as a table may have, by the codes that a
/// client sends for them: none, all are text; one is for all; else each has its own, and those
/// behind the last are text. It takes no memory.
///
/// Of a code but 0, text, and 1, binary, the error is the first such code.
pub fn result_formats(codes: &Int16s<'_>) -> Result<[Format; MAX_ITEMS], u16>
    ensures formats { IfOk result (AreFormats codes.now) }
    ensures unknown { IfErr result (IsUnknownFormat codes.now) }
{
    let mut formats = [Format::Text; MAX_ITEMS];
    for column in 0..MAX_ITEMS {
        let code = code_at(codes, column);
        let Some(format) = format_of(code) else {
            return Err(code);
        };
        formats[column] = format;
    }
    Ok(formats)
}
