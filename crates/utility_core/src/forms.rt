//! The tables: which words are which command.

use crate::command::{Command, Setting};

/// What may stand behind the first words of a command.
#[derive(Clone, Copy)]
pub enum Rest {
    Nothing,
    Anything,
    /// One word that begins with a letter.
    Word,
    /// Words that say how a block is isolated, or none.
    Modes,
    /// At least one of them.
    SomeModes,
    /// At least one word.
    Values,
    /// One way to write UTF-8.
    Utf8,
    /// One way to write yes.
    Yes,
}

/// The first words of a command, what may stand behind them, and the command.
pub type Form = (&'static [&'static [u8]], Rest, Command);

/// The words that say how a block is isolated.
pub static MODES: [&[u8]; 12] = [
    b"isolation",
    b"level",
    b"serializable",
    b"repeatable",
    b"read",
    b"committed",
    b"uncommitted",
    b"write",
    b"only",
    b"not",
    b"deferrable",
    b",",
];

/// How a client writes UTF-8.
pub static UTF8: [&[u8]; 5] = [b"utf8", b"unicode", b"'utf8'", b"'utf-8'", b"'unicode'"];

/// How it writes yes.
pub static YES: [&[u8]; 4] = [b"on", b"'on'", b"true", b"'true'"];

/// For how long a setting is to hold.
pub static SCOPES: [&[u8]; 2] = [b"session", b"local"];

/// All commands but most of SET. The first row that fits says which it is.
pub static COMMANDS: [Form; 52] = [
    (&[b"begin"], Rest::Modes, Command::Begin),
    (&[b"begin", b"work"], Rest::Modes, Command::Begin),
    (&[b"begin", b"transaction"], Rest::Modes, Command::Begin),
    (&[b"start", b"transaction"], Rest::Modes, Command::Begin),
    (&[b"commit"], Rest::Nothing, Command::Commit),
    (&[b"commit", b"work"], Rest::Nothing, Command::Commit),
    (&[b"commit", b"transaction"], Rest::Nothing, Command::Commit),
    (&[b"end"], Rest::Nothing, Command::Commit),
    (&[b"end", b"work"], Rest::Nothing, Command::Commit),
    (&[b"end", b"transaction"], Rest::Nothing, Command::Commit),
    (&[b"rollback"], Rest::Nothing, Command::Rollback),
    (&[b"rollback", b"work"], Rest::Nothing, Command::Rollback),
    (
        &[b"rollback", b"transaction"],
        Rest::Nothing,
        Command::Rollback,
    ),
    (&[b"abort"], Rest::Nothing, Command::Rollback),
    (&[b"abort", b"work"], Rest::Nothing, Command::Rollback),
    (
        &[b"abort", b"transaction"],
        Rest::Nothing,
        Command::Rollback,
    ),
    (
        &[b"show", b"server_version"],
        Rest::Nothing,
        Command::Show(Setting::ServerVersion),
    ),
    (
        &[b"show", b"server_encoding"],
        Rest::Nothing,
        Command::Show(Setting::ServerEncoding),
    ),
    (
        &[b"show", b"client_encoding"],
        Rest::Nothing,
        Command::Show(Setting::ClientEncoding),
    ),
    (
        &[b"show", b"datestyle"],
        Rest::Nothing,
        Command::Show(Setting::DateStyle),
    ),
    (
        &[b"show", b"timezone"],
        Rest::Nothing,
        Command::Show(Setting::TimeZone),
    ),
    (
        &[b"show", b"integer_datetimes"],
        Rest::Nothing,
        Command::Show(Setting::IntegerDatetimes),
    ),
    (
        &[b"show", b"standard_conforming_strings"],
        Rest::Nothing,
        Command::Show(Setting::StandardConformingStrings),
    ),
    (
        &[b"show", b"transaction_isolation"],
        Rest::Nothing,
        Command::Show(Setting::TransactionIsolation),
    ),
    (
        &[b"show", b"transaction", b"isolation", b"level"],
        Rest::Nothing,
        Command::Show(Setting::TransactionIsolation),
    ),
    (
        &[b"show", b"transaction_read_only"],
        Rest::Nothing,
        Command::Show(Setting::TransactionReadOnly),
    ),
    (
        &[b"show", b"search_path"],
        Rest::Nothing,
        Command::Show(Setting::SearchPath),
    ),
    (
        &[b"show", b"max_identifier_length"],
        Rest::Nothing,
        Command::Show(Setting::MaxIdentifierLength),
    ),
    (&[b"show"], Rest::Word, Command::UnknownSetting),
    (
        &[b"deallocate", b"all"],
        Rest::Nothing,
        Command::DeallocateAll,
    ),
    (
        &[b"deallocate", b"prepare", b"all"],
        Rest::Nothing,
        Command::DeallocateAll,
    ),
    (&[b"deallocate"], Rest::Word, Command::Deallocate(1)),
    (
        &[b"deallocate", b"prepare"],
        Rest::Word,
        Command::Deallocate(2),
    ),
    (&[b"discard", b"all"], Rest::Nothing, Command::DiscardAll),
    (&[b"reset", b"all"], Rest::Nothing, Command::ResetAll),
    (&[b"close", b"all"], Rest::Nothing, Command::CloseAll),
    (&[b"unlisten", b"*"], Rest::Nothing, Command::UnlistenAll),
    (
        &[b"select", b"version", b"(", b")"],
        Rest::Nothing,
        Command::Version,
    ),
    (
        &[b"select", b"current_schema", b"(", b")"],
        Rest::Nothing,
        Command::CurrentSchema,
    ),
    (
        &[b"select", b"pg_advisory_unlock_all", b"(", b")"],
        Rest::Nothing,
        Command::UnlockAll,
    ),
    (&[b"select", b"1"], Rest::Nothing, Command::One),
    (&[b"savepoint"], Rest::Anything, Command::Unserved),
    (&[b"release"], Rest::Anything, Command::Unserved),
    (&[b"declare"], Rest::Anything, Command::Unserved),
    (&[b"fetch"], Rest::Anything, Command::Unserved),
    (&[b"move"], Rest::Anything, Command::Unserved),
    (&[b"prepare"], Rest::Anything, Command::Unserved),
    (&[b"execute"], Rest::Anything, Command::Unserved),
    (&[b"listen"], Rest::Anything, Command::Unserved),
    (&[b"notify"], Rest::Anything, Command::Unserved),
    (&[b"lock"], Rest::Anything, Command::Unserved),
    (
        &[
            b"set",
            b"session",
            b"characteristics",
            b"as",
            b"transaction",
        ],
        Rest::SomeModes,
        Command::Set,
    ),
];

/// SET, behind its first word and SESSION or LOCAL. The last row fits whatever no other does.
pub static SETTINGS: [Form; 15] = [
    (&[b"transaction"], Rest::SomeModes, Command::Set),
    (&[b"time", b"zone"], Rest::Values, Command::Set),
    (&[b"application_name", b"="], Rest::Values, Command::Set),
    (&[b"application_name", b"to"], Rest::Values, Command::Set),
    (&[b"datestyle", b"="], Rest::Values, Command::Set),
    (&[b"datestyle", b"to"], Rest::Values, Command::Set),
    (&[b"timezone", b"="], Rest::Values, Command::Set),
    (&[b"timezone", b"to"], Rest::Values, Command::Set),
    (&[b"extra_float_digits", b"="], Rest::Values, Command::Set),
    (&[b"extra_float_digits", b"to"], Rest::Values, Command::Set),
    (&[b"client_encoding", b"="], Rest::Utf8, Command::Set),
    (&[b"client_encoding", b"to"], Rest::Utf8, Command::Set),
    (
        &[b"standard_conforming_strings", b"="],
        Rest::Yes,
        Command::Set,
    ),
    (
        &[b"standard_conforming_strings", b"to"],
        Rest::Yes,
        Command::Set,
    ),
    (&[], Rest::Anything, Command::UnknownSetting),
];
