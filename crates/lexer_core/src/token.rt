//! Tokens.

ghost use Rattle.std.specs.Prelude.{◌≡◌, ◌≤◌, ◌+◌, ◌++◌, ◌∷◌, [], MatchResult};

use crate::fault::ReadFault;
use base_core::{Keyword, Name};

#[derive(Clone, Copy, PartialEq, Eq)]
pub enum Mark {
    Open,
    Close,
    Comma,
    Star,
    Semicolon,
    Equal,
    NotEqual,
    Less,
    LessEqual,
    Greater,
    GreaterEqual,
}

/// What a token is. A text's bytes stay in the line; `unquoted` makes the text of them.
#[derive(Clone, Copy, PartialEq, Eq)]
pub enum TokenKind {
    Keyword(Keyword),
    Name(Name),
    Number(i64),
    Text,
    Mark(Mark),
}

/// A token and its slice of the line, in bytes from 0: from `start` to before `end`.
#[derive(Clone, Copy, PartialEq, Eq)]
pub struct Token {
    pub kind: TokenKind,
    pub start: usize,
    pub end: usize,
}

impl Token {
    /// Puts a token of so many bytes behind the others, and says where it ends.
    #[inline(always)]
    pub(crate) fn push(
        tokens: &mut Vec<Token>,
        kind: TokenKind,
        start: usize,
        len: usize,
    ) -> Result<usize, ReadFault>
        requires { start + len ≤ 4096 }
        ensures { MatchResult result
            (λ end. (end ≡ start + len)
            × (tokens.new.items ≡ tokens.old.items
            ++ record { kind = kind; start = start; end = end } ∷ []))
            (λ e. e ≡ ReadFault.NoMemory) }
    {
        let end = start + len;
        tokens.push(Token { kind, start, end })?;
        Ok(end)
    }
}
