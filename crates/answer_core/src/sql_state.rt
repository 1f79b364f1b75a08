//! The codes by which clients tell errors apart.
ghost use Rattle.std.specs.Prelude.{◌≡◌, length};
ghost use Rattle.answer_core.specs.Codes.{fault_state, lack_state, state_text};

use base_core::Lack;
use lexer_core::Code;

/// A code of SQLSTATE, by its name in PostgreSQL.
#[derive(Clone, Copy)]
pub enum SqlState {
    SuccessfulCompletion,
    ProtocolViolation,
    FeatureNotSupported,
    NumericValueOutOfRange,
    NullValueNotAllowed,
    CharacterNotInRepertoire,
    InvalidTextRepresentation,
    InvalidBinaryRepresentation,
    ActiveSqlTransaction,
    InFailedSqlTransaction,
    InvalidStatementName,
    InvalidAuthorization,
    InvalidPassword,
    /// No such portal.
    InvalidCursorName,
    InsufficientPrivilege,
    SyntaxError,
    NameTooLong,
    DuplicateColumn,
    UndefinedColumn,
    UndefinedObject,
    DatatypeMismatch,
    UndefinedTable,
    UndefinedParameter,
    /// There is such a portal already.
    DuplicateCursor,
    DuplicatePreparedStatement,
    DuplicateTable,
    OutOfMemory,
    ProgramLimitExceeded,
    TooManyArguments,
    NotInPrerequisiteState,
    ObjectInUse,
    IoError,
}

impl SqlState {
    /// The code of what is missing.
    pub fn of_lack(lack: &Lack) -> SqlState
        ensures { result ≡ lack_state lack.now }
    {
        match lack {
            Lack::NoTable(_) | Lack::NoTableThen { .. } => SqlState::UndefinedTable,
            Lack::TableExists(_) => SqlState::DuplicateTable,
            Lack::NoColumn { .. } => SqlState::UndefinedColumn,
            Lack::NoPrivilege { .. }
            | Lack::NoGrantOption { .. }
            | Lack::NoGrant { .. }
            | Lack::NoOptionGiven { .. }
            | Lack::NoSelectThen { .. }
            | Lack::NoSelectNow { .. } => SqlState::InsufficientPrivilege,
            Lack::NoCheckpoint(_) => SqlState::UndefinedObject,
            Lack::WrongCount { .. } => SqlState::SyntaxError,
            Lack::WrongType { .. } => SqlState::DatatypeMismatch,
            Lack::Full(_) | Lack::Worn => SqlState::ProgramLimitExceeded,
            Lack::Busy => SqlState::ObjectInUse,
            Lack::NoMemory => SqlState::OutOfMemory,
        }
    }

    /// The code of a fault. None for a statement without a token, which is no error to a client.
    pub fn of_fault(code: Code) -> Option<SqlState>
        ensures { result ≡ fault_state code }
    {
        match code {
            Code::Empty => None,
            Code::TooLong => Some(SqlState::ProgramLimitExceeded),
            Code::BadByte | Code::Expected | Code::OpenText | Code::Trailing => {
                Some(SqlState::SyntaxError)
            }
            Code::BadNumber => Some(SqlState::NumericValueOutOfRange),
            Code::Duplicate => Some(SqlState::DuplicateColumn),
            Code::TooMany => Some(SqlState::TooManyArguments),
            Code::LongName => Some(SqlState::NameTooLong),
        }
    }

    /// Its five letters and digits.
    pub fn text(self) -> &'static [u8]
        ensures text { result.now ≡ state_text self }
        ensures five { length result.now ≡ 5 }
    {
        match self {
            SqlState::SuccessfulCompletion => b"00000",
            SqlState::ProtocolViolation => b"08P01",
            SqlState::FeatureNotSupported => b"0A000",
            SqlState::NumericValueOutOfRange => b"22003",
            SqlState::NullValueNotAllowed => b"22004",
            SqlState::CharacterNotInRepertoire => b"22021",
            SqlState::InvalidTextRepresentation => b"22P02",
            SqlState::InvalidBinaryRepresentation => b"22P03",
            SqlState::ActiveSqlTransaction => b"25001",
            SqlState::InFailedSqlTransaction => b"25P02",
            SqlState::InvalidStatementName => b"26000",
            SqlState::InvalidAuthorization => b"28000",
            SqlState::InvalidPassword => b"28P01",
            SqlState::InvalidCursorName => b"34000",
            SqlState::InsufficientPrivilege => b"42501",
            SqlState::SyntaxError => b"42601",
            SqlState::NameTooLong => b"42622",
            SqlState::DuplicateColumn => b"42701",
            SqlState::UndefinedColumn => b"42703",
            SqlState::UndefinedObject => b"42704",
            SqlState::DatatypeMismatch => b"42804",
            SqlState::UndefinedTable => b"42P01",
            SqlState::UndefinedParameter => b"42P02",
            SqlState::DuplicateCursor => b"42P03",
            SqlState::DuplicatePreparedStatement => b"42P05",
            SqlState::DuplicateTable => b"42P07",
            SqlState::OutOfMemory => b"53200",
            SqlState::ProgramLimitExceeded => b"54000",
            SqlState::TooManyArguments => b"54023",
            SqlState::NotInPrerequisiteState => b"55000",
            SqlState::ObjectInUse => b"55006",
            SqlState::IoError => b"58030",
        }
    }
}
