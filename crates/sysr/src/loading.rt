//! What a program begins with: a core, and the file of a journal.
ghost use Rattle.std.specs.Prelude.{◌≡◌, ◌<◌, ◌≤◌, ◌&&◌, true, false, [], None, Some, IfOk, IfErr, IfSome};
ghost use Rattle.std.specs.Option.{is_some};
ghost use Rattle.std.specs.List.{AllByRecursion};
ghost use Rattle.std.specs.Process.{exit_status};
ghost use Rattle.journal_core.specs.Text.{WasRead};
ghost use Rattle.load_core.specs.Ready.{IsReady};
ghost use Rattle.sysr.specs.Kept.{is_each};

use crate::command::JournalSync;
use crate::files::{Journal, JournalSink, give_up_on, journal_file, journal_gone_on, reader_of};
use crate::mending::mend;
use crate::naming::Named;
use crate::syncing::JournalSyncer;
use base_core::{Limits, NoMemory};
use lines_core::{NO_MEMORY, SessionFault, fault_text, give_up};
use load_core::{Loaded, load_or_text, load_whole_or_text};
use std::mem::forget;
use std::process::ExitCode;
use std::thread::Threads;
use system_core::System;

/// The core that the changes of the file make. The error is the status, where the file cannot be
/// read or a line of it says no change that is done, which is told.
fn loaded(rt: &HostRuntime, path: &str, chunk: usize, limits: Limits) -> Result<System, ExitCode>
    requires some { 0 < chunk }
    requires small { chunk ≤ 64 }
    ensures ready { IfOk result IsReady }
    ensures asked { IfOk result (λ s. (s.chunk ≡ chunk) × (s.limits ≡ limits)) }
    ensures entries { IfOk result (λ system. AllByRecursion WasRead system.journal) }
    ensures err { IfErr result (λ status. exit_status status ≡ 1) }
{
    let mut reader = reader_of(rt, path)?;
    match load_or_text(rt.alloc(), &mut reader, chunk, limits) {
        Ok(system) => Ok(system),
        Err(Ok(text)) => Err(give_up_on(rt, path, text.as_slice())),
        Err(Err(NoMemory)) => Err(give_up(rt, NO_MEMORY)),
    }
}

/// The core with these limits that the file makes, or an empty one, if no file is named. The error is the status, as of
/// [`loaded`].
pub fn loaded_or_empty(
    rt: &HostRuntime,
    load: Option<&str>,
    chunk: usize,
    limits: Limits,
) -> Result<System, ExitCode>
    requires some { 0 < chunk }
    requires small { chunk ≤ 64 }
    ensures ready { IfOk result IsReady }
    ensures asked { IfOk result (λ s. (s.chunk ≡ chunk) × (s.limits ≡ limits)) }
    ensures empty { load.entry ≡ None → IfOk result (λ system. system.journal ≡ []) }
    ensures entries { IfOk result (λ system. AllByRecursion WasRead system.journal) }
    ensures err { IfErr result (λ status. exit_status status ≡ 1) }
{
    let Some(path) = load else {
        return match System::with_limits(rt.alloc(), chunk, limits) {
            Ok(system) => Ok(system),
            Err(NoMemory) => Err(give_up(rt, NO_MEMORY)),
        };
    };
    loaded(rt, path, chunk, limits)
}

/// As [`loaded`], of the file's whole lines: a last line that was cut off is taken off the file, which is
/// told.
fn loaded_and_mended(
    rt: &HostRuntime,
    path: &str,
    chunk: usize,
    limits: Limits,
) -> Result<System, ExitCode>
    requires some { 0 < chunk }
    requires small { chunk ≤ 64 }
    ensures ready { IfOk result IsReady }
    ensures asked { IfOk result (λ s. (s.chunk ≡ chunk) × (s.limits ≡ limits)) }
{
    let mut reader = reader_of(rt, path)?;
    match load_whole_or_text(rt.alloc(), &mut reader, chunk, limits) {
        Ok(loaded) => mended(rt, path, loaded),
        Err(Ok(text)) => Err(give_up_on(rt, path, text.as_slice())),
        Err(Err(NoMemory)) => Err(give_up(rt, NO_MEMORY)),
    }
}

/// The core that was loaded, where what was cut off could be taken off the file.
fn mended(rt: &HostRuntime, path: &str, loaded: Loaded) -> Result<System, ExitCode>
    ensures { IfOk result (λ system. system ≡ loaded.system) }
{
    let Loaded { system, cut } = loaded;
    let Some(cut) = cut else {
        return Ok(system);
    };
    match mend(rt, path, cut.as_slice()) {
        Ok(()) => Ok(system),
        Err(status) => {
            // The process ends here, and its memory goes back as a whole.
            forget(system);
            Err(status)
        }
    }
}

/// The core, once it was said how many changes a file said. The error is the status, where that could
/// not be said.
fn told(rt: &HostRuntime, system: System) -> Result<System, ExitCode>
    ensures { IfOk result (λ told. told ≡ system) }
{
    if println!(rt; "loaded {} changes", system.moment().0).is_err() {
        forget(system);
        return Err(give_up(rt, fault_text(SessionFault::Write)));
    }
    Ok(system)
}

/// As [`loaded_or_empty`], after it was said how many changes the file says. The error is the status,
/// also where that could not be said.
fn loaded_and_told(
    rt: &HostRuntime,
    load: Option<&str>,
    chunk: usize,
    limits: Limits,
) -> Result<System, ExitCode>
    requires some { 0 < chunk }
    requires small { chunk ≤ 64 }
    ensures ready { IfOk result IsReady }
    ensures asked { IfOk result (λ s. (s.chunk ≡ chunk) × (s.limits ≡ limits)) }
    ensures empty { load.entry ≡ None → IfOk result (λ system. system.journal ≡ []) }
{
    let system = loaded_or_empty(rt, load, chunk, limits)?;
    if load.is_some() {
        told(rt, system)
    } else {
        Ok(system)
    }
}

/// What a program begins with: a core, and a journal that its changes are kept in, if there is one; and who
/// puts that on its disk whenever a client is told of it, where that is asked for.
#[derive(Drop)]
pub struct Start<W> {
    pub system: System,
    pub journal: Option<W>,
    pub syncer: Option<JournalSyncer>,
}

/// The same, with the file of a journal, if one is named, which is put on its disk as is asked.
fn with_journal<R: Threads>(
    host: &HostRuntime,
    rt: &R,
    system: System,
    path: Option<&str>,
    sync: JournalSync,
) -> Result<Start<JournalSink>, ExitCode>
    ensures system { IfOk result (λ begun. begun.system ≡ system) }
    ensures named { IfOk result (λ begun. is_some begun.journal ≡ is_some path.entry) }
    ensures each { IfOk result
        (λ begun. is_some begun.syncer ≡ (is_some path.entry && is_each sync)) }
    ensures works { IfOk result (λ begun. IfSome begun.journal (λ sink. sink.failed ≡ false)) }
{
    let Some(path) = path else {
        return Ok(Start {
            system,
            journal: None,
            syncer: None,
        });
    };
    match journal_file(host, rt, path, sync) {
        Ok(journal) => Ok(started(system, journal)),
        Err(status) => {
            // The process ends here, and its memory goes back as a whole.
            forget(system);
            Err(status)
        }
    }
}

/// What a program begins with that goes on with this journal.
fn started(system: System, journal: Journal) -> Start<JournalSink>
    ensures system { result.system ≡ system }
    ensures journal { result.journal ≡ Some journal.sink }
    ensures syncer { result.syncer ≡ journal.syncer }
{
    let Journal { sink, syncer } = journal;
    Start {
        system,
        journal: Some(sink),
        syncer,
    }
}

/// What a program begins with where the file that is loaded is gone on with: it is held before it is
/// read, so that no other program writes to it behind what was read. A last line that was cut off is
/// taken off it.
fn going_on<R: Threads>(
    host: &HostRuntime,
    rt: &R,
    path: &str,
    chunk: usize,
    limits: Limits,
    sync: JournalSync,
) -> Result<Start<JournalSink>, ExitCode>
    requires some { 0 < chunk }
    requires small { chunk ≤ 64 }
    ensures ready { IfOk result (λ begun. IsReady begun.system) }
    ensures asked { IfOk result (λ begun. (begun.system.chunk ≡ chunk)
        × (begun.system.limits ≡ limits)) }
    ensures named { IfOk result (λ begun. is_some begun.journal ≡ true) }
    ensures each { IfOk result (λ begun. is_some begun.syncer ≡ is_each sync) }
    ensures works { IfOk result (λ begun. IfSome begun.journal (λ sink. sink.failed ≡ false)) }
{
    let journal = journal_gone_on(host, rt, path, sync)?;
    let system = told(host, loaded_and_mended(host, path, chunk, limits)?)?;
    Ok(started(system, journal))
}

/// What a program begins with. A file is loaded before another one is opened to write to, so that
/// none is made where it cannot be loaded. What is written to it is put on its disk as is asked: there
/// is one who does it for clients exactly where that is asked for. The error is the status, and the
/// reason is told.
pub fn begun<R: Threads>(
    host: &HostRuntime,
    rt: &R,
    named: Named<'_>,
    chunk: usize,
    limits: Limits,
    sync: JournalSync,
) -> Result<Start<JournalSink>, ExitCode>
    requires some { 0 < chunk }
    requires small { chunk ≤ 64 }
    ensures ready { IfOk result (λ begun. IsReady begun.system) }
    ensures asked { IfOk result (λ begun. (begun.system.chunk ≡ chunk)
        × (begun.system.limits ≡ limits)) }
    ensures empty { named.entry.load ≡ None → IfOk result (λ begun. begun.system.journal ≡ []) }
    ensures named { IfOk result (λ begun. is_some begun.journal ≡ is_some named.entry.journal) }
    ensures each { IfOk result
        (λ begun. is_some begun.syncer ≡ (is_some named.entry.journal && is_each sync)) }
    ensures works { IfOk result (λ begun. IfSome begun.journal (λ sink. sink.failed ≡ false)) }
{
    if let Some(path) = named.gone_on() {
        return going_on(host, rt, path, chunk, limits, sync);
    }
    let system = loaded_and_told(host, named.load, chunk, limits)?;
    with_journal(host, rt, system, named.journal, sync)
}
