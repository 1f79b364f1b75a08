//! Why a line is not read.

ghost use Rattle.std.specs.Prelude.{◌≡◌};
ghost use Rattle.lexer_core.specs.Codes.{code_number, code_text};

use base_core::NoMemory;
use std::alloc::AllocFailed;
use thiserror::Error;

/// What is wrong with a line. `tokens` gives `TooLong`, `BadByte`, `BadNumber`, `OpenText` and
/// `LongName`, which are the lexical faults; the others are faults of the grammar.
#[derive(Clone, Copy, Debug, PartialEq, Eq)]
pub enum Code {
    /// There is no token.
    Empty,
    /// A line of more than 4,096 bytes, or a text of more than 1,024.
    TooLong,
    /// A byte that begins no token, or in a text bytes that are not UTF-8 or a control character.
    BadByte,
    /// With this token the line begins no statement, or its end comes too early.
    Expected,
    /// A number outside `i64`, or one with a letter or `_` directly behind its digits.
    BadNumber,
    /// A text without its closing quote.
    OpenText,
    /// An item that stands in its list already.
    Duplicate,
    /// An item past the limit of its list.
    TooMany,
    /// A word of more than 30 bytes.
    LongName,
    /// A token behind a whole statement.
    Trailing,
}

impl Code {
    /// The number that a client is told, from 1 to 10.
    pub fn number(self) -> u8
        ensures { result ≡ code_number self }
    {
        match self {
            Code::Empty => 1,
            Code::TooLong => 2,
            Code::BadByte => 3,
            Code::Expected => 4,
            Code::BadNumber => 5,
            Code::OpenText => 6,
            Code::Duplicate => 7,
            Code::TooMany => 8,
            Code::LongName => 9,
            Code::Trailing => 10,
        }
    }

    /// The words that a client is told, in ASCII.
    pub fn text(self) -> &'static str
        ensures { result.now ≡ code_text self }
    {
        match self {
            Code::Empty => "empty",
            Code::TooLong => "too long",
            Code::BadByte => "bad byte",
            Code::Expected => "not expected",
            Code::BadNumber => "bad number",
            Code::OpenText => "open text",
            Code::Duplicate => "duplicate",
            Code::TooMany => "too many",
            Code::LongName => "long name",
            Code::Trailing => "trailing",
        }
    }
}

/// Why a line is not read: memory was refused, or the line has a fault, whose offset is in bytes of
/// the line, from 0.
#[derive(Clone, Copy, Debug, PartialEq, Eq, Error)]
pub enum ReadFault {
    #[error("no memory")]
    NoMemory,
    #[error("{code:?} at {offset}")]
    At { code: Code, offset: usize },
}

impl<T: Drop> From<AllocFailed<T>> for ReadFault {
    ghost use Rattle.lexer_core.specs.declared.fault.ReadFault.TheVariants.{NoMemory};

    ghost from_gives = { λ _ e. e ≡ NoMemory };

    fn from(_e: AllocFailed<T>) -> ReadFault {
        ReadFault::NoMemory
    }
}

impl From<NoMemory> for ReadFault {
    ghost use Rattle.lexer_core.specs.declared.fault.ReadFault.TheVariants as faults;

    ghost from_gives = { λ _ e. e ≡ faults.NoMemory };

    fn from(_e: NoMemory) -> ReadFault {
        ReadFault::NoMemory
    }
}
