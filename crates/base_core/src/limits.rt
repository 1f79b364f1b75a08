//! How much the core keeps.
ghost use Rattle.std.specs.Prelude.{◌≤◌};

/// How much there may be: of changes as many as are asked for, up to 1,000,000,000, and of the rest
/// at most what `full` has.
#[derive(Clone, Copy, PartialEq, Eq)]
pub struct Limits {
    /// Accepted changes.
    pub changes: u64,
    pub tables: u64,
    /// Grants in force of one privilege of one table, the SELECT and UPDATE of each column by
    /// themselves.
    pub grants: u64,
    /// Checkpoints begun.
    pub checkpoints: u64,
    pub ghost changes_within: { changes ≤ 1000000000 },
    pub ghost tables_within: { tables ≤ 1024 },
    pub ghost grants_within: { grants ≤ 1024 },
    pub ghost checkpoints_within: { checkpoints ≤ 1000000 },
}

impl Limits {
    ghost use Rattle.base_core.specs.Full.{IsFull, IsFullBut};

    /// 1,000,000 changes, 1,024 tables, 1,024 grants, 1,000,000 checkpoints.
    pub fn full() -> Limits
        ensures { IsFull result }
    {
        Limits::with_changes(1_000_000)
    }

    /// The same with so many changes.
    pub fn with_changes(changes: u64) -> Limits
        requires { changes ≤ 1000000000 }
        ensures { IsFullBut changes result }
    {
        Limits {
            changes,
            tables: 1_024,
            grants: 1_024,
            checkpoints: 1_000_000,
        }
    }
}
