//! The law of a server's history, as the contract of a function that does nothing.
ghost use Rattle.recovery_core.specs.History.{RestoresHistory};

use folder_core::Dumping;

/// Dumps of what a history leaves: the lines of its dump, each of which can be read.
pub struct HistoryDumps;

impl Dumping for HistoryDumps {
    ghost use Rattle.recovery_core.specs.History.{IsDumpOfHistory, nothing_dumped};

    ghost is_dump = { IsDumpOfHistory };

    ghost none = { nothing_dumped };
}

/// What [`recover`](crate::recover) makes of a folder leaves what a front of its history leaves, which has all that was
/// told: so the core judges and answers as if nothing had happened since the last change of it. The history has at
/// most 1,000,000,000 changes, and none of its fronts leaves more tables, rows and grants together.
pub fn history_is_restored()
    ensures { RestoresHistory }
{}
