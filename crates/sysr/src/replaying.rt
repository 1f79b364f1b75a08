//! Lines of a journal or of a script, carried out for what they leave.
ghost use Rattle.std.specs.Prelude.{◌≡◌, Ok, false, IfOk, IfErr};
ghost use Rattle.std.specs.List.{AllByRecursion};
ghost use Rattle.std.specs.Process.{exit_status};
ghost use Rattle.journal_core.specs.Text.{WasRead};
ghost use Rattle.load_core.specs.Replaying.{EndsReplay};
ghost use Rattle.sysr.specs.Joints.{status_behind};

use crate::command::Reading;
use base_core::{NoMemory, Source};
use lines_core::{NO_MEMORY, give_up};
use load_core::{
    Manner, ReplayFault, Replayed, dropped_text, left_out_text, replay, replay_fault_text,
};
use run_core::tell;
use std::process::ExitCode;
use system_core::System;

/// How the lines are replayed that are read so, as long as the journal has fewer changes than these.
pub fn manner_of(reading: Reading, most: u64) -> Manner
    ensures { result ≡ record { form = reading.form; cut_line = reading.cut_line; most = most } }
{
    Manner {
        form: reading.form,
        cut_line: reading.cut_line,
        most,
    }
}

/// Tells on standard error what ended a replay.
fn give_up_replay(rt: &HostRuntime, fault: &ReplayFault) -> ExitCode
    ensures { exit_status result ≡ 1 }
{
    match replay_fault_text(rt.alloc(), fault) {
        Ok(text) => {
            tell(rt, &text);
            ExitCode::FAILURE
        }
        Err(NoMemory) => give_up(rt, NO_MEMORY),
    }
}

/// What the reader's lines leave, from this core on. The error is the status, where they could not be
/// read or carried out, which is told.
pub fn replayed<S: Source>(
    rt: &HostRuntime,
    reader: &mut S,
    begins: System,
    manner: Manner,
) -> Result<Replayed, ExitCode>
    requires { S.failed reader.old ≡ false }
    ensures ends { IfOk result
        (λ r. EndsReplay manner begins (Ok r) (S.left reader.old) (S.left reader.new)) }
    ensures entries { AllByRecursion WasRead begins.journal
        → IfOk result (λ r. AllByRecursion WasRead r.world.journal) }
    ensures err { IfErr result (λ status. exit_status status ≡ 1) }
{
    match replay(rt.alloc(), reader, begins, manner) {
        Ok(replayed) => Ok(replayed),
        Err(fault) => Err(give_up_replay(rt, &fault)),
    }
}

/// Tells a sentence on standard error, or that there is no memory for it.
fn tell_made(rt: &HostRuntime, made: Result<Vec<u8>, NoMemory>) -> Result<(), ExitCode>
    ensures { IfErr result (λ status. exit_status status ≡ 1) }
{
    match made {
        Ok(sentence) => {
            tell(rt, &sentence);
            Ok(())
        }
        Err(NoMemory) => Err(give_up(rt, NO_MEMORY)),
    }
}

/// Tells on standard error how many lines were left out, and of the first why; and of a last line
/// that was cut off, and dropped, what stands there. The error is the status, where there was no
/// memory for that, which is told.
pub fn tell_left_out(rt: &HostRuntime, replayed: &Replayed) -> Result<(), ExitCode>
    ensures { IfErr result (λ status. exit_status status ≡ 1) }
{
    if let Some(first) = &replayed.first_left_out {
        tell_made(rt, left_out_text(rt.alloc(), replayed.left_out, first))?;
    }
    if let Some(cut) = &replayed.dropped {
        tell_made(rt, dropped_text(rt.alloc(), cut))?;
    }
    Ok(())
}

/// The status behind lines that were carried out: 1 where one of them was left out, and that is asked
/// for, and else 0.
pub fn status_of(replayed: &Replayed, reading: Reading) -> ExitCode
    ensures { exit_status result ≡ status_behind reading replayed.now }
{
    let whole = replayed.first_left_out.is_none() && replayed.dropped.is_none();
    if reading.strict && !whole {
        ExitCode::FAILURE
    } else {
        ExitCode::SUCCESS
    }
}
