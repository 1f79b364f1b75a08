//! Lines, answered from a core on.
ghost use Rattle.std.specs.Prelude.{◌≡◌, false, Ok, IfOk};
ghost use Rattle.lines_core.specs.Serving.{traffic_of};
ghost use Rattle.script_core.specs.Keeping.{EndsKeptFrom};

use crate::auditing::audit;
use crate::streams::output;
use base_core::{Sink, Source};
use journal_core::Keeper;
use lines_core::give_up;
use script_core::{script_fault_text, script_from};
use std::process::ExitCode;
use system_core::System;

/// What lines or sessions left, and the keeper of their changes.
#[derive(Drop)]
pub struct Left<K> {
    pub system: System,
    pub keeper: K,
}

/// Answers the reader's lines, from this core on, and gives the core that they left, and the keeper
/// of their changes. The error is the status, where it ended by a fault, which is told.
pub fn answered<S: Source, W: Sink, K: Keeper + Drop>(
    rt: &HostRuntime,
    reader: &mut S,
    writer: &mut W,
    keeper: K,
    begins: System,
) -> Result<Left<K>, ExitCode>
    requires source { S.failed reader.old ≡ false }
    requires sink { W.failed writer.old ≡ false }
    requires settled { K.owing keeper ≡ false }
    ensures { IfOk result (λ left. EndsKeptFrom K.Keeper begins (Ok left.system)
        keeper left.keeper (traffic_of (S.left reader.old) (S.left reader.new)
        (W.taken writer.old) (W.taken writer.new))) }
{
    let mut keeper = keeper;
    match script_from(rt.alloc(), reader, writer, &mut keeper, begins) {
        Ok(system) => Ok(Left { system, keeper }),
        Err(fault) => Err(give_up(rt, script_fault_text(fault))),
    }
}

/// The status at the end, behind an audit if one is asked for.
pub fn status_of(rt: &HostRuntime, system: &System, audited: bool) -> ExitCode {
    if !audited {
        return ExitCode::SUCCESS;
    }
    match output(rt) {
        Ok(mut writer) => audit(rt, system, &mut writer),
        Err(status) => status,
    }
}
