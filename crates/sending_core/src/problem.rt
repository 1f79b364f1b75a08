//! The errors that are a session's own.
ghost use Rattle.std.specs.Prelude.{◌≡◌, ◌≤◌, length};
ghost use Rattle.sending_core.specs.Problems.{problem_state, problem_text};

use answer_core::SqlState;

/// Why a message of a client is not carried out, where the core was not asked.
#[derive(Clone, Copy)]
pub enum Problem {
    /// A message is not of the form that its type has.
    BadMessage,
    /// A message may not come now.
    NotExpected,
    /// A login failed.
    RefusedLogin,
    /// No user is named at the start.
    NoUser,
    /// A change was said in a block.
    ChangeInBlock,
    /// A statement of the block has failed.
    FailedBlock,
    /// A query has a change and another statement.
    ChangeAmongSeveral,
    /// A query has too many statements.
    TooManyInQuery,
    /// A command is one that the server does not carry out.
    Unserved,
    /// A setting is not known, or cannot have this value.
    UnknownSetting,
    /// A place stands in a query, which has no values.
    PlaceInQuery,
    /// No statement was prepared by this name.
    NoStatement,
    /// A statement was prepared by this name already.
    StatementExists,
    /// As many statements are prepared as there may be.
    TooManyStatements,
    /// No portal was bound by this name.
    NoPortal,
    /// A portal was bound by this name already.
    PortalExists,
    /// As many portals are open as there may be.
    TooManyPortals,
    /// A portal was carried out already.
    PortalDone,
    /// Values or formats are too many or too few.
    WrongCount,
    /// A value is NULL.
    NullValue,
    /// A value in the text format is no number.
    BadNumber,
    /// A value in the binary format is no number.
    BadLength,
    /// A value is no text.
    BadText,
    /// A text is too long.
    LongText,
    /// A parameter has an unknown type.
    UnknownType,
    /// A format has an unknown number.
    UnknownFormat,
    /// A statement is too long with its values.
    LongLine,
    /// Memory was refused.
    NoMemory,
    /// The journal failed.
    Journal,
}

impl Problem {
    /// The code by which clients tell it.
    pub fn state(self) -> SqlState
        ensures { result ≡ problem_state self }
    {
        match self {
            Problem::BadMessage => SqlState::ProtocolViolation,
            Problem::NotExpected => SqlState::ProtocolViolation,
            Problem::RefusedLogin => SqlState::InvalidPassword,
            Problem::NoUser => SqlState::InvalidAuthorization,
            Problem::ChangeInBlock => SqlState::ActiveSqlTransaction,
            Problem::FailedBlock => SqlState::InFailedSqlTransaction,
            Problem::ChangeAmongSeveral => SqlState::FeatureNotSupported,
            Problem::TooManyInQuery => SqlState::ProgramLimitExceeded,
            Problem::Unserved => SqlState::FeatureNotSupported,
            Problem::UnknownSetting => SqlState::UndefinedObject,
            Problem::PlaceInQuery => SqlState::UndefinedParameter,
            Problem::NoStatement => SqlState::InvalidStatementName,
            Problem::StatementExists => SqlState::DuplicatePreparedStatement,
            Problem::TooManyStatements => SqlState::ProgramLimitExceeded,
            Problem::NoPortal => SqlState::InvalidCursorName,
            Problem::PortalExists => SqlState::DuplicateCursor,
            Problem::TooManyPortals => SqlState::ProgramLimitExceeded,
            Problem::PortalDone => SqlState::NotInPrerequisiteState,
            Problem::WrongCount => SqlState::ProtocolViolation,
            Problem::NullValue => SqlState::NullValueNotAllowed,
            Problem::BadNumber => SqlState::InvalidTextRepresentation,
            Problem::BadLength => SqlState::InvalidBinaryRepresentation,
            Problem::BadText => SqlState::CharacterNotInRepertoire,
            Problem::LongText => SqlState::ProgramLimitExceeded,
            Problem::UnknownType => SqlState::UndefinedObject,
            Problem::UnknownFormat => SqlState::ProtocolViolation,
            Problem::LongLine => SqlState::ProgramLimitExceeded,
            Problem::NoMemory => SqlState::OutOfMemory,
            Problem::Journal => SqlState::IoError,
        }
    }

    /// The sentence that a user reads.
    pub fn text(self) -> &'static str
        ensures text { result.now ≡ problem_text self }
        ensures short { length result.now ≤ 100 }
    {
        match self {
            Problem::BadMessage => "a message does not have the form of its type",
            Problem::NotExpected => "this message may not come here",
            Problem::RefusedLogin => "refused: login",
            Problem::NoUser => "the startup message names no user who may come in here",
            Problem::ChangeInBlock =>
                "a change is done at once and cannot be rolled back: send it outside BEGIN .. COMMIT (autocommit)",
            Problem::FailedBlock => "the block has failed: send ROLLBACK",
            Problem::ChangeAmongSeveral => "a change is sent alone, not among several statements",
            Problem::TooManyInQuery => "a query has too many statements",
            Problem::Unserved => "the server does not do this",
            Problem::UnknownSetting => "there is no such setting, or it cannot be set so",
            Problem::PlaceInQuery => "a place such as $1 stands only in a prepared statement",
            Problem::NoStatement => "there is no prepared statement of this name",
            Problem::StatementExists => "there is a prepared statement of this name already",
            Problem::TooManyStatements => "too many statements are prepared: close one",
            Problem::NoPortal => "there is no portal of this name",
            Problem::PortalExists => "there is a portal of this name already",
            Problem::TooManyPortals => "too many portals are open: close one",
            Problem::PortalDone => "the portal was carried out already, and cannot be again",
            Problem::WrongCount => "there are not as many values as the statement has places",
            Problem::NullValue => "a value is NULL, and the language has no NULL",
            Problem::BadNumber => "a value is no whole number from -2^63 to 2^63 - 1",
            Problem::BadLength => "a binary number has 2, 4 or 8 bytes",
            Problem::BadText => "a text is not UTF-8, or has a control character",
            Problem::LongText => "a text has more than 1024 bytes",
            Problem::UnknownType => "a parameter has a type that the server has not",
            Problem::UnknownFormat => "a format is neither 0, for text, nor 1, for binary",
            Problem::LongLine => "the statement has more than 4096 bytes",
            Problem::NoMemory => "refused: no memory",
            Problem::Journal => "it is not known whether the change was kept",
        }
    }
}
