//! How an input is replayed.
ghost use Rattle.std.specs.Prelude.{◌≡◌};
ghost use Rattle.load_core.specs.Replaying.{longest};

use lexer_core::MAX_LINE;
use lines_core::LONGEST_LINE;

/// How lines are read.
#[derive(Clone, Copy, PartialEq, Eq)]
pub enum Form {
    /// As those of a journal: a user's name, a colon, and a statement of at most 4,096 bytes.
    Journal,
    /// As those of a script: at most 4,096 bytes in all.
    Script,
}

impl Form {
    /// The most bytes that a line may have.
    pub(crate) fn longest(self) -> usize
        ensures { result ≡ longest self }
    {
        match self {
            Form::Journal => LONGEST_LINE,
            Form::Script => MAX_LINE,
        }
    }
}

/// What becomes of a journal's last line that has no line feed. A script's is a line like any other.
#[derive(Clone, Copy, PartialEq, Eq)]
pub enum CutLine {
    /// Nothing is replayed.
    Refuse,
    /// It is dropped, which is told.
    Drop,
}

/// How an input is replayed.
#[derive(Clone, Copy)]
pub struct Manner {
    pub form: Form,
    pub cut_line: CutLine,
    /// How many changes the journal has in the end, at most.
    pub most: u64,
}
