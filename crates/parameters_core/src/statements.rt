//! The statements of a text.
ghost use Rattle.std.specs.Prelude.{◌≡◌, ◌<◌, ◌≤◌, length, take, slice_index};
ghost use Rattle.std.specs.Option.{option_copied};
ghost use Rattle.parameters_core.specs.Statements.{inside_behind, ends_statement, is_line_end, is_layout, is_empty_statement, IsClosed, IsOneStatement, StandsFirst};

/// Whether a text in quotes is open behind the byte, by whether one was open before it.
pub fn inside_behind(is_inside: bool, byte: u8) -> bool
    ensures { result ≡ inside_behind is_inside byte }
{
    if byte == b'\'' { !is_inside } else { is_inside }
}

/// Whether the byte is a line feed or a carriage return.
pub fn is_line_end(byte: u8) -> bool
    ensures { result ≡ is_line_end byte }
{
    byte == b'\n' || byte == b'\r'
}

fn is_layout(byte: u8) -> bool
    ensures { result ≡ is_layout byte }
{
    byte == b' ' || byte == b'\t' || is_line_end(byte)
}

/// Whether the statement has no byte but spaces, tabs and line ends.
pub fn is_empty_statement(statement: &[u8]) -> bool
    ensures { result ≡ is_empty_statement statement.now }
{
    statement.iter().all(|byte| is_layout(*byte))
}

/// Whether the byte ends a statement, by whether a text in quotes is open before it.
fn ends_statement(is_inside: bool, byte: u8) -> bool
    ensures { result ≡ ends_statement is_inside byte }
{
    byte == b';' && !is_inside
}

/// The length of the statement that stands first.
fn statement_len(text: &[u8]) -> usize
    ensures within { result ≤ length text.now }
    ensures one { IsOneStatement (take result text.now) }
    ensures closed { result < length text.now → IsClosed (take result text.now) }
    ensures ends { result < length text.now → slice_index text.now result ≡ 59 }
{
    let mut is_inside = false;
    for (at, byte) in text.iter().enumerate() {
        if ends_statement(is_inside, *byte) {
            return at;
        }
        is_inside = inside_behind(is_inside, *byte);
    }
    text.len()
}

/// The statement that stands first in a text, and what is behind its `;`. None where no `;` ends
/// it, so that it is the last. A `;` inside a text in quotes ends nothing.
pub fn first_statement(text: &[u8]) -> (&[u8], Option<&[u8]>)
    ensures { StandsFirst text.now result.0.now (option_copied result.1) }
{
    let len = statement_len(text);
    if len < text.len() {
        (&text[..len], Some(&text[len + 1..]))
    } else {
        (text, None)
    }
}
