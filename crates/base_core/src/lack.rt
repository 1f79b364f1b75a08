//! Why a statement is not carried out.
ghost use Rattle.std.specs.Prelude.{◌≡◌};
ghost use Rattle.base_core.specs.Lacks.{code_of, is_denial};

use crate::name::{Name, User};
use crate::privilege::Atom;
use crate::value::ColType;

/// What may be full.
#[derive(Clone, Copy)]
pub enum What {
    Changes,
    Tables,
    Grants,
    Checkpoints,
}

/// What is missing where a statement is not carried out. Each leaves everything unchanged. Codes 11
/// to 20 and 27 are denials, 21 to 26 are refusals.
#[derive(Clone, Copy)]
pub enum Lack {
    NoTable(Name),
    TableExists(Name),
    NoColumn { table: Name, column: Name },
    NoPrivilege { user: User, atom: Atom },
    NoGrantOption { user: User, atom: Atom },
    /// No grant in force by the issuer to that user.
    NoGrant { by: User, to: User, atom: Atom },
    /// Not finished, or dropped.
    NoCheckpoint(u64),
    NoTableThen { table: Name, number: u64 },
    NoSelectThen { user: User, table: Name },
    NoSelectNow { user: User, table: Name },
    WrongCount { given: usize, wanted: usize },
    WrongType { column: Name, wanted: ColType },
    Full(What),
    Busy,
    NoMemory,
    /// All turns of the turnstile were drawn.
    Worn,
    /// No grant in force by the issuer to that user with the option.
    NoOptionGiven { by: User, to: User, atom: Atom },
}

impl Lack {
    /// The code of the lack, from 11 to 27.
    pub fn code(&self) -> u8
        ensures { result ≡ code_of self.now }
    {
        match self {
            Lack::NoTable(_) => 11,
            Lack::TableExists(_) => 12,
            Lack::NoColumn { .. } => 13,
            Lack::NoPrivilege { .. } => 14,
            Lack::NoGrantOption { .. } => 15,
            Lack::NoGrant { .. } => 16,
            Lack::NoCheckpoint(_) => 17,
            Lack::NoTableThen { .. } => 18,
            Lack::NoSelectThen { .. } => 19,
            Lack::NoSelectNow { .. } => 20,
            Lack::WrongCount { .. } => 21,
            Lack::WrongType { .. } => 22,
            Lack::Full(_) => 23,
            Lack::Busy => 24,
            Lack::NoMemory => 25,
            Lack::Worn => 26,
            Lack::NoOptionGiven { .. } => 27,
        }
    }

    /// Whether the lack is a denial: codes 11 to 20, and 27.
    pub fn is_denial(&self) -> bool
        ensures { result ≡ is_denial self.now }
    {
        let code = self.code();
        code <= 20 || code == 27
    }
}
