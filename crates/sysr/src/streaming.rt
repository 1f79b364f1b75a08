//! What the changes of a journal did, as a stream.
ghost use Rattle.std.specs.Prelude.{◌≡◌, Ok, false, IfOk, IfErr, Option, List, ℕ};
ghost use Rattle.std.proofs.Common.{Vec, Global};
ghost use Rattle.std.specs.Process.{exit_status};
ghost use Rattle.sysr.specs.Streamed.{IsStreamed};

use base_core::{Limits, NoMemory, Sink, Source};
use lines_core::{NO_MEMORY, SessionFault, fault_text, give_up};
use load_core::{LoadFault, Undone, load_fault_text};
use run_core::tell;
use std::process::ExitCode;
use stream_core::{StreamFault, stream};

const CHUNK: usize = 16;

const CUT_OFF: &[u8] = b"the last line was cut off, and says nothing";

/// Tells which line says no change that is done, and why.
fn give_up_line(rt: &HostRuntime, number: u64, why: Undone) -> ExitCode
    ensures { exit_status result ≡ 1 }
{
    match load_fault_text(rt.alloc(), &LoadFault::Line { number, why }) {
        Ok(text) => {
            tell(rt, &text);
            ExitCode::FAILURE
        }
        Err(NoMemory) => give_up(rt, NO_MEMORY),
    }
}

/// Tells why a stream ended before its input did.
fn give_up_stream(rt: &HostRuntime, fault: StreamFault) -> ExitCode
    ensures { exit_status result ≡ 1 }
{
    match fault {
        StreamFault::Read => give_up(rt, fault_text(SessionFault::Read)),
        StreamFault::Write => give_up(rt, fault_text(SessionFault::Write)),
        StreamFault::Bound => give_up(rt, fault_text(SessionFault::Bound)),
        StreamFault::NoMemory => give_up(rt, NO_MEMORY),
        StreamFault::Line { number, why } => give_up_line(rt, number, why),
    }
}

/// Writes what each change of the reader's lines did, behind the moment `from`, and hands on what was written before
/// it reads further. Where the status is given, all was read and told, and it is 0: of a last line without a line feed
/// standard error says that it was cut off. The error is the status, where it could not go on, which is told.
pub fn streamed<S: Source, W: Sink>(
    rt: &HostRuntime,
    reader: &mut S,
    writer: &mut W,
    limits: Limits,
    from: u64,
) -> Result<ExitCode, ExitCode>
    requires source { S.failed reader.old ≡ false }
    requires sink { W.failed writer.old ≡ false }
    ensures ok { IfOk result (λ status. (exit_status status ≡ 0) × IsStreamed limits from
        (S.left reader.old) (S.left reader.new) (W.taken writer.old) (W.taken writer.new)) }
    ensures err { IfErr result (λ status. exit_status status ≡ 1) }
{
    match stream(rt.alloc(), reader, writer, CHUNK, limits, from) {
        Ok(None) => Ok(ExitCode::SUCCESS),
        Ok(Some(_)) => {
            tell(rt, CUT_OFF);
            Ok(ExitCode::SUCCESS)
        }
        Err(fault) => Err(give_up_stream(rt, fault)),
    }
}
