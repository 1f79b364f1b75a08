//! What a user may ask.

use crate::checkpoint::CheckpointNumber;
use crate::privilege::Privileges;
use base_core::{Assignment, Column, Condition, Distinct, Limited, Name, SeveralValues, User};

/// The most columns, names, values, assignments or conditions in one list.
pub const MAX_ITEMS: usize = 32;

/// The most users that one statement names.
pub const MAX_USERS: usize = 16;

/// A statement. Its lists keep the limits and the distinctness of the language, and come in the
/// order written. A filter without conditions is no WHERE: every row is chosen.
#[derive(Drop)]
pub enum Statement {
    CreateTable {
        table: Name,
        columns: Distinct<Column, MAX_ITEMS>,
    },
    Insert {
        table: Name,
        values: SeveralValues<MAX_ITEMS>,
    },
    /// These columns, or with no list all of them, in the order of the table.
    Select {
        list: Option<Distinct<Name, MAX_ITEMS>>,
        table: Name,
        filter: Limited<Condition, MAX_ITEMS>,
    },
    Delete {
        table: Name,
        filter: Limited<Condition, MAX_ITEMS>,
    },
    Update {
        table: Name,
        sets: Distinct<Assignment, MAX_ITEMS>,
        filter: Limited<Condition, MAX_ITEMS>,
    },
    Grant {
        privileges: Privileges,
        table: Name,
        users: Distinct<User, MAX_USERS>,
        /// Whether the users may grant it on.
        option: bool,
    },
    Revoke {
        privileges: Privileges,
        table: Name,
        users: Distinct<User, MAX_USERS>,
    },
    /// Takes back the option alone: the users keep the privileges.
    RevokeOption {
        privileges: Privileges,
        table: Name,
        users: Distinct<User, MAX_USERS>,
    },
    /// Begins a checkpoint.
    Checkpoint,
    /// Lists the checkpoints.
    Checkpoints,
    /// The tables of a checkpoint, or only the one named.
    Export {
        number: CheckpointNumber,
        only: Option<Name>,
    },
}
