//! Commands beside the language, and settings.

ghost use Rattle.std.specs.Prelude.{◌≡◌};
ghost use Rattle.utility_core.specs.Settings.{setting_name, setting_value};

/// A setting whose value a client may ask for.
#[derive(Clone, Copy, PartialEq, Eq)]
pub enum Setting {
    ServerVersion,
    ServerEncoding,
    ClientEncoding,
    DateStyle,
    TimeZone,
    IntegerDatetimes,
    StandardConformingStrings,
    TransactionIsolation,
    TransactionReadOnly,
    SearchPath,
    MaxIdentifierLength,
}

impl Setting {
    /// Its name, as PostgreSQL heads the column of SHOW.
    pub fn name(self) -> &'static str
        ensures { result.now ≡ setting_name self }
    {
        match self {
            Setting::ServerVersion => "server_version",
            Setting::ServerEncoding => "server_encoding",
            Setting::ClientEncoding => "client_encoding",
            Setting::DateStyle => "DateStyle",
            Setting::TimeZone => "TimeZone",
            Setting::IntegerDatetimes => "integer_datetimes",
            Setting::StandardConformingStrings => "standard_conforming_strings",
            Setting::TransactionIsolation => "transaction_isolation",
            Setting::TransactionReadOnly => "transaction_read_only",
            Setting::SearchPath => "search_path",
            Setting::MaxIdentifierLength => "max_identifier_length",
        }
    }

    /// Its value, which never changes.
    pub fn value(self) -> &'static str
        ensures { result.now ≡ setting_value self }
    {
        match self {
            Setting::ServerVersion => "15.0",
            Setting::ServerEncoding => "UTF8",
            Setting::ClientEncoding => "UTF8",
            Setting::DateStyle => "ISO, MDY",
            Setting::TimeZone => "UTC",
            Setting::IntegerDatetimes => "on",
            Setting::StandardConformingStrings => "on",
            Setting::TransactionIsolation => "read committed",
            Setting::TransactionReadOnly => "off",
            Setting::SearchPath => "\"$user\", public",
            Setting::MaxIdentifierLength => "30",
        }
    }
}

/// A command that clients of PostgreSQL send and that the language has not. None changes a table,
/// a right or a checkpoint.
#[derive(Clone, Copy, PartialEq, Eq)]
pub enum Command {
    /// BEGIN, START TRANSACTION: a block begins.
    Begin,
    /// COMMIT, END: the block ends.
    Commit,
    /// ROLLBACK, ABORT: the block ends as well.
    Rollback,
    /// SET of a setting to what it is, or of one that means nothing to numbers and texts.
    Set,
    /// Any other SET, or SHOW of any other setting.
    UnknownSetting,
    /// SHOW of this setting.
    Show(Setting),
    /// DEALLOCATE of the statement whose name is this token of the line, counted from 0.
    Deallocate(usize),
    /// DEALLOCATE of a statement whose name begins with `_`, as no word of the language does.
    DeallocateUnderscored,
    DeallocateAll,
    DiscardAll,
    ResetAll,
    CloseAll,
    UnlistenAll,
    /// `SELECT pg_advisory_unlock_all()`.
    UnlockAll,
    /// `SELECT version()`.
    Version,
    /// `SELECT current_schema()`.
    CurrentSchema,
    /// `SELECT 1`.
    One,
    /// What the server does not do: SAVEPOINT, DECLARE, PREPARE and their like.
    Unserved,
}
