//! What lines leave, as lines again: their changes, or a dump.
ghost use Rattle.std.specs.Prelude.{◌≡◌, Ok, false, IfOk, IfErr};
ghost use Rattle.std.specs.List.{AllByRecursion};
ghost use Rattle.std.specs.Process.{exit_status};
ghost use Rattle.dump_core.specs.Ending.{EndsDump};
ghost use Rattle.journal_core.specs.Keeping.{EndsJournal};
ghost use Rattle.journal_core.specs.Text.{WasRead};
ghost use Rattle.sysr.specs.Joints.{WritesJournal, WritesDump};

use crate::command::Reading;
use crate::loading::loaded_or_empty;
use crate::replaying::{manner_of, replayed, status_of, tell_left_out};
use base_core::{Name, Sink, Source};
use dump_core::{DumpFault, write_dump};
use journal_core::{JournalFault, write_journal};
use lines_core::{NO_MEMORY, SessionFault, fault_text, give_up};
use std::io::Write;
use std::mem::forget;
use std::process::ExitCode;
use system_core::System;

const CHUNK: usize = 16;

/// Writes the journal of a core. The error is the status, where it could not be written whole, which
/// is told.
fn journal_to<W: Sink>(rt: &HostRuntime, system: &System, writer: &mut W) -> Result<(), ExitCode>
    requires works { W.failed writer.old ≡ false }
    requires read { AllByRecursion WasRead system.now.journal }
    ensures ok { IfOk result
        (λ _. EndsJournal (Ok tt) system.now.journal (W.taken writer.old) (W.taken writer.new)) }
    ensures err { IfErr result (λ status. exit_status status ≡ 1) }
{
    match write_journal(rt.alloc(), system, writer) {
        Ok(()) => Ok(()),
        Err(JournalFault::Write) => Err(give_up(rt, fault_text(SessionFault::Write))),
        Err(JournalFault::NoMemory) => Err(give_up(rt, NO_MEMORY)),
    }
}

/// Writes the changes of the reader's lines, and tells of the lines left out. Where the status is
/// given, they were written whole: it is 1 where lines were left out and that is to be strict, and
/// else 0. The error is the status, where they could not be written whole, which is told.
pub fn journal<S: Source, W: Sink>(
    rt: &HostRuntime,
    reader: &mut S,
    writer: &mut W,
    reading: Reading,
) -> Result<ExitCode, ExitCode>
    requires source { S.failed reader.old ≡ false }
    requires sink { W.failed writer.old ≡ false }
    ensures ok { IfOk result (λ status. WritesJournal reading (S.left reader.old)
        (S.left reader.new) (W.taken writer.old) (W.taken writer.new) (exit_status status)) }
    ensures err { IfErr result (λ status. exit_status status ≡ 1) }
{
    let begins = loaded_or_empty(rt, None, CHUNK, reading.limits)?;
    let replayed = replayed(rt, reader, begins, manner_of(reading, u64::MAX))?;
    let written = journal_to(rt, &replayed.system, writer);
    let told = tell_left_out(rt, &replayed);
    let status = status_of(&replayed, reading);
    // The process ends here, and its memory goes back as a whole.
    forget(replayed);
    written?;
    told?;
    Ok(status)
}

/// Tells on standard error of which row no line can say that it is inserted.
fn give_up_row(rt: &HostRuntime, table: &Name, row: u64) -> ExitCode
    ensures { exit_status result ≡ 1 }
{
    let mut err = rt.stderr();
    let _ = write!(err, "sysr: row {row} of ");
    let _ = err.write_all(table.as_bytes());
    let _ = err.write_all(b" fits no line\n");
    ExitCode::FAILURE
}

/// Tells on standard error why a dump is not whole.
fn give_up_dump(rt: &HostRuntime, fault: &DumpFault) -> ExitCode
    ensures { exit_status result ≡ 1 }
{
    match fault {
        DumpFault::Write => give_up(rt, fault_text(SessionFault::Write)),
        DumpFault::NoMemory => give_up(rt, NO_MEMORY),
        DumpFault::LongRow { table, row } => give_up_row(rt, table, *row),
    }
}

/// Writes the dump of a core. The error is the status, where it could not be written whole, which is
/// told.
pub fn dump_to<W: Sink>(rt: &HostRuntime, system: &System, writer: &mut W) -> Result<(), ExitCode>
    requires { W.failed writer.old ≡ false }
    ensures ok { IfOk result
        (λ _. EndsDump system.now.journal (Ok tt) (W.taken writer.old) (W.taken writer.new)) }
    ensures err { IfErr result (λ status. exit_status status ≡ 1) }
{
    match write_dump(rt.alloc(), system, writer) {
        Ok(()) => Ok(()),
        Err(fault) => Err(give_up_dump(rt, &fault)),
    }
}

/// Writes the dump of what the reader's lines leave, behind the changes of a file, if one is named,
/// and tells of the lines left out. Where the status is given, it was written whole: it is 1 where
/// lines were left out and that is to be strict, and else 0. The error is the status, where the dump
/// could not be written whole, which is told.
pub fn dump<S: Source, W: Sink>(
    rt: &HostRuntime,
    reader: &mut S,
    writer: &mut W,
    load: Option<&str>,
    reading: Reading,
) -> Result<ExitCode, ExitCode>
    requires source { S.failed reader.old ≡ false }
    requires sink { W.failed writer.old ≡ false }
    ensures ok { IfOk result (λ status. WritesDump load.entry reading (S.left reader.old)
        (S.left reader.new) (W.taken writer.old) (W.taken writer.new) (exit_status status)) }
    ensures err { IfErr result (λ status. exit_status status ≡ 1) }
{
    let begins = loaded_or_empty(rt, load, CHUNK, reading.limits)?;
    let replayed = replayed(rt, reader, begins, manner_of(reading, u64::MAX))?;
    let dumped = dump_to(rt, &replayed.system, writer);
    let told = tell_left_out(rt, &replayed);
    let status = status_of(&replayed, reading);
    // The process ends here, and its memory goes back as a whole.
    forget(replayed);
    dumped?;
    told?;
    Ok(status)
}
