//! Marks.

ghost use Rattle.std.specs.Prelude.{◌≡◌, false, ◌∷◌, [], length, MatchOption, slice_index};
ghost use Rattle.lexer_core.specs.Lexing.{mark_text, is_mark_byte, BeginsMark};

use crate::bytes::byte_at;
use crate::token::Mark;

impl Mark {
    /// How a line writes the mark.
    pub fn text(self) -> &'static str
        ensures { result.now ≡ mark_text self }
    {
        match self {
            Mark::Open => "(",
            Mark::Close => ")",
            Mark::Comma => ",",
            Mark::Star => "*",
            Mark::Semicolon => ";",
            Mark::Equal => "=",
            Mark::NotEqual => "<>",
            Mark::Less => "<",
            Mark::LessEqual => "<=",
            Mark::Greater => ">",
            Mark::GreaterEqual => ">=",
        }
    }
}

fn longest_mark(first: u8, next: u8) -> Option<Mark>
    ensures { MatchOption result (is_mark_byte first ≡ false) (BeginsMark (first ∷ next ∷ [])) }
{
    match first {
        b'(' => Some(Mark::Open),
        b')' => Some(Mark::Close),
        b',' => Some(Mark::Comma),
        b'*' => Some(Mark::Star),
        b';' => Some(Mark::Semicolon),
        b'=' => Some(Mark::Equal),
        b'<' if next == b'>' => Some(Mark::NotEqual),
        b'<' if next == b'=' => Some(Mark::LessEqual),
        b'<' => Some(Mark::Less),
        b'>' if next == b'=' => Some(Mark::GreaterEqual),
        b'>' => Some(Mark::Greater),
        _ => None,
    }
}

/// The longest mark that stands first.
pub fn mark(bytes: &[u8]) -> Option<Mark>
    ensures { MatchOption result (is_mark_byte (slice_index bytes.now 0) ≡ false)
        (BeginsMark bytes.now) }
{
    longest_mark(byte_at(bytes, 0), byte_at(bytes, 1))
}
