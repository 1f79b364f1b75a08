//! The start of a server whose folder restores it.
ghost use Rattle.std.specs.Prelude.{◌≡◌, ◌<◌, ◌≤◌, false, IfOk, IfSome};
ghost use Rattle.folder_core.specs.Serving.{crashed};
ghost use Rattle.journal_core.specs.Keeping.{owing_nothing};
ghost use Rattle.load_core.specs.Ready.{IsReady};
ghost use Rattle.desk_core.specs.Guarded.{origin_at};
ghost use Rattle.data_core.specs.Written.{text_written};
ghost use Rattle.checkpoint_core.specs.Beginning.{MayTend};

use crate::putting::Begun;
use base_core::Limits;
use data_core::Pieces;
use folder_core::Folder;
use recovery_core::{HistoryDumps, Recovered, RecoveryFault, recover};
use std::alloc::Global;
use system_core::System;

// The greatest number of changes that the names of a folder can tell.
const MOST: u64 = 9_999_999_999;

/// What a server begins with: the core that its folder restored, and what its changes are written to; how many changes
/// there were, and of how many the newest dump is, 0 without one.
#[derive(Drop)]
pub struct Beginning<F: Folder<HistoryDumps> + Drop> {
    pub system: System,
    pub sink: Pieces<HistoryDumps, F>,
    pub begun: Begun,
    pub base: u64,
}

/// Starts from a folder, whatever a crash left there: the core is as `recover` of `recovery_core` makes it, and its changes go
/// on in a piece of their own. So a checkpoint of that server may be put into the folder at any time (clause `begins`).
///
/// The faults are those of `recover`; `Full` where the folder has more changes than its names can tell.
pub fn begin<F: Folder<HistoryDumps> + Drop>(
    alloc: Global,
    folder: F,
    chunk: usize,
    limits: Limits,
) -> Result<Beginning<F>, RecoveryFault>
    requires some { 0 < chunk }
    requires small { chunk ≤ 64 }
    requires over { IfSome (F.state folder) (λ s. s.phase ≡ crashed) }
    ensures ready { IfOk result (λ b. IsReady b.system) }
    ensures asked { IfOk result (λ b. (b.system.chunk ≡ chunk) × (b.system.limits ≡ limits)) }
    ensures works { IfOk result (λ b. b.sink.failed ≡ false) }
    ensures begins { IfOk result (λ b. let text = text_written (F.state b.sink.folder) in
        MayTend F.knows b.begun b.system.journal
        (origin_at b.system (owing_nothing text text))) }
{
    let mut folder = folder;
    let recovered = recover(alloc, &mut folder, chunk, limits)?;
    let Recovered {
        system,
        point,
        resumes,
        at,
    } = recovered;
    if at > MOST {
        system.free();
        return Err(RecoveryFault::Full);
    }
    let begun = Begun {
        count: at,
        start: system.moment().0,
    };
    Ok(Beginning {
        system,
        sink: Pieces::new(folder, at, point, resumes),
        begun,
        base: point,
    })
}
