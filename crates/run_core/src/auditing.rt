//! The audit at the end.
ghost use Rattle.std.specs.Prelude.{◌≡◌, false};

use base_core::{Broken, Sink, write_all};
use lines_core::{NO_MEMORY, SessionFault, audit_end, fault_text, give_up};
use std::process::ExitCode;
use system_core::System;

// Writes the last line, and hands on what was written.
fn write_last<W: Sink>(writer: &mut W, line: &[u8]) -> Result<(), Broken>
    requires { W.failed writer.old ≡ false }
{
    write_all(writer, line)?;
    writer.flush()
}

/// Compares the rights in force with a replay of the journal, and writes how that ended: the line
/// and the status of [`audit_end`]. Out of memory, or where the writer fails, it says so on standard
/// error, with status 1.
pub fn audit<W: Sink>(rt: &HostRuntime, system: &System, writer: &mut W) -> ExitCode
    requires { W.failed writer.old ≡ false }
{
    let Ok(found) = system.audit() else {
        return give_up(rt, NO_MEMORY);
    };
    let Ok((line, status)) = audit_end(rt.alloc(), found) else {
        return give_up(rt, NO_MEMORY);
    };
    match write_last(writer, line.as_slice()) {
        Ok(()) => ExitCode::from(status),
        Err(Broken) => give_up(rt, fault_text(SessionFault::Write)),
    }
}
