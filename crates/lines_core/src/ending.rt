//! How a program that answers lines ends: what it tells of a fault, and how an audit ends.
ghost use Rattle.std.specs.Prelude.{◌≡◌, IfOk};
ghost use Rattle.std.specs.Process.{exit_status};
ghost use Rattle.lines_core.specs.Endings.{audit_line, audit_status, session_fault_name, session_fault_text};

use crate::serving::SessionFault;
use base_core::NoMemory;
use itoa::Buffer;
use std::alloc::Global;
use std::process::ExitCode;

const AUDIT_FAILED: u8 = 3;

/// What is told where there was no memory.
pub const NO_MEMORY: &str = "sysr: no memory";

/// The fault in a word or two: `read`, `write`, `bound` or `no memory`.
pub fn fault_name(fault: SessionFault) -> &'static str
    ensures { result.now ≡ session_fault_name fault }
{
    match fault {
        SessionFault::Read => "read",
        SessionFault::Write => "write",
        SessionFault::Bound => "bound",
        SessionFault::NoMemory => "no memory",
    }
}

/// What is told of a fault that ended the answering of lines.
pub fn fault_text(fault: SessionFault) -> &'static str
    ensures { result.now ≡ session_fault_text fault }
{
    match fault {
        SessionFault::Read => "sysr: read fault",
        SessionFault::Write => "sysr: write fault",
        SessionFault::Bound => "sysr: bound reached",
        SessionFault::NoMemory => NO_MEMORY,
    }
}

/// The last line of an audit, with its line feed, and the exit status: `audit ok n` and 0 where the
/// rights in force are those of the journal, with n grants among them; else `audit failed` and 3.
/// `NoMemory` where a request for memory was refused.
pub fn audit_end(alloc: Global, found: Option<usize>) -> Result<(Vec<u8>, u8), NoMemory>
    ensures line { IfOk result (λ end. end.0.items ≡ audit_line found) }
    ensures status { IfOk result (λ end. end.1 ≡ audit_status found) }
{
    let mut line = Vec::new(alloc);
    let Some(grants) = found else {
        line.extend_from_slice(b"audit failed\n")?;
        return Ok((line, AUDIT_FAILED));
    };
    let mut digits = Buffer::new();
    line.extend_from_slice(b"audit ok ")?;
    line.extend_from_slice(digits.format(grants).as_bytes())?;
    line.push(b'\n')?;
    Ok((line, 0))
}

/// Tells on standard error why the program could not go on. A fault of standard error is forgotten.
pub fn give_up(rt: &HostRuntime, text: &str) -> ExitCode
    ensures { exit_status result ≡ 1 }
{
    let _ = eprintln!(rt; "{text}");
    ExitCode::FAILURE
}
