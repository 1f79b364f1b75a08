//! The files that are read and written.
ghost use Rattle.std.specs.Prelude.{◌≡◌, false, IfOk, IfErr};
ghost use Rattle.std.specs.Option.{is_some};
ghost use Rattle.std.specs.Process.{exit_status};
ghost use Rattle.sysr.specs.Kept.{is_each};

use crate::command::JournalSync;
use crate::syncing::{JournalFile, JournalSyncer};
use base_core::{NoMemory, StdSink, StdSource, Unbuffered};
use lines_core::{NO_MEMORY, Steady, give_up};
use std::fs;
use std::fs::{File, OpenOptions, TryLockError};
use std::io::{BufWriter, Error, ErrorKind, Write};
use std::process::ExitCode;
use std::thread::Threads;

/// A file that is read.
pub type FileSource = StdSource<Steady<File>>;

/// A file that a dump is written to.
pub type DumpSink = StdSink<Steady<File>>;

/// A file that a journal is written to. It has no buffer, as each line is handed on at once.
pub type JournalSink = Unbuffered<Steady<JournalFile>>;

/// The same, and who puts it on its disk whenever a client is told of it, where that is asked for.
#[derive(Drop)]
pub struct Journal {
    pub sink: JournalSink,
    pub syncer: Option<JournalSyncer>,
}

/// Tells on standard error what is wrong with a file. A fault of standard error is forgotten.
pub fn tell_of(rt: &HostRuntime, path: &str, what: &[u8]) {
    let mut err = rt.stderr();
    let _ = write!(err, "sysr: {path}: ");
    let _ = err.write_all(what);
    let _ = err.write_all(b"\n");
}

/// The same, where nothing goes on then.
pub fn give_up_on(rt: &HostRuntime, path: &str, what: &[u8]) -> ExitCode
    ensures { exit_status result ≡ 1 }
{
    tell_of(rt, path, what);
    ExitCode::FAILURE
}

/// A reader of the file. The error is the status, where the file cannot be opened, which is told.
pub fn reader_of(rt: &HostRuntime, path: &str) -> Result<FileSource, ExitCode>
    ensures ok { IfOk result (λ reader. reader.failed ≡ false) }
    ensures err { IfErr result (λ status. exit_status status ≡ 1) }
{
    match fs::open(rt, path) {
        Ok(file) => Ok(StdSource::new(Steady::new(file))),
        Err(_) => Err(give_up_on(rt, path, b"cannot be read")),
    }
}

/// What is told where a file cannot be opened to write at its end. One that is only missing, and
/// would not be made, cannot be read.
fn fault_of(error: &Error, is_made: bool) -> &'static [u8] {
    if !is_made && error.kind() == ErrorKind::NotFound {
        return b"cannot be read";
    }
    b"cannot be written"
}

/// The file, open to write at its end, which no other program writes as long as it is open. The error
/// is the status, where it cannot be opened, or another program has it open so, which is told.
fn opened(rt: &HostRuntime, path: &str, is_made: bool) -> Result<File, ExitCode> {
    let opened = OpenOptions::new()
        .append(true)
        .create(is_made)
        .open(rt, path);
    let file = match opened {
        Ok(file) => file,
        Err(error) => return Err(give_up_on(rt, path, fault_of(&error, is_made))),
    };
    match file.try_lock() {
        Ok(()) => Ok(file),
        Err(TryLockError::WouldBlock) => Err(give_up_on(rt, path, b"in use by another sysr")),
        Err(TryLockError::Error(_)) => Err(give_up_on(rt, path, b"cannot be locked")),
    }
}

fn is_empty(file: &File) -> bool {
    match file.metadata() {
        Ok(metadata) => metadata.len() == 0,
        Err(_) => false,
    }
}

/// The file, as [`opened`] opens it, which is made if it is missing. Else it has to be empty: the
/// error is the status, where it is not, which is told.
fn fresh(rt: &HostRuntime, path: &str) -> Result<File, ExitCode> {
    let file = opened(rt, path, true)?;
    if !is_empty(&file) {
        return Err(give_up_on(rt, path, b"is not empty"));
    }
    Ok(file)
}

/// Has the system put the file on its disk. The error is the status, where it cannot, which is told. What
/// is no file of a disk stays as it is.
pub fn sync(rt: &HostRuntime, path: &str) -> Result<(), ExitCode>
    ensures { IfErr result (λ status. exit_status status ≡ 1) }
{
    let opened = OpenOptions::new().append(true).open(rt, path);
    let synced = match opened {
        Ok(file) => file.sync_all(),
        Err(error) => Err(error),
    };
    match synced {
        Ok(()) => Ok(()),
        Err(error) if error.kind() == ErrorKind::InvalidInput => Ok(()),
        Err(_) => Err(give_up_on(rt, path, b"cannot be synced")),
    }
}

/// Has the system put the folder of a new file on its disk, so that its name is there. The error is
/// the status, where it cannot, which is told. What is no folder of a disk stays as it is.
fn sync_folder(rt: &HostRuntime, path: &str) -> Result<(), ExitCode> {
    let folder = match path.rsplit_once('/') {
        Some(("", _)) => "/",
        Some((folder, _)) => folder,
        None => ".",
    };
    let synced = match fs::open(rt, folder) {
        Ok(file) => file.sync_all(),
        Err(error) => Err(error),
    };
    match synced {
        Ok(()) => Ok(()),
        Err(error) if error.kind() == ErrorKind::InvalidInput => Ok(()),
        Err(_) => Err(give_up_on(rt, folder, b"cannot be synced")),
    }
}

/// The file of a journal, which is put on its disk as is asked, and who puts it there whenever a client is told
/// of it. `NoMemory` where there was no memory for it, or no thread.
fn opened_journal<R: Threads>(
    host: &HostRuntime,
    rt: &R,
    path: &str,
    file: File,
    sync: JournalSync,
) -> Result<(JournalFile, Option<JournalSyncer>), NoMemory>
    ensures { IfOk result (λ b. is_some b.1 ≡ is_each sync) }
{
    match sync {
        JournalSync::Never => Ok((JournalFile::new(host.alloc(), file)?, None)),
        JournalSync::Second => Ok((JournalFile::synced(host, rt, path, file)?, None)),
        JournalSync::Each => {
            let file = JournalFile::new(host.alloc(), file)?;
            let syncer = file.syncer(host, path)?;
            Ok((file, Some(syncer)))
        }
    }
}

/// A writer to this file of a journal, which is put on its disk as is asked. The error is the status,
/// where there was no memory for it, or no thread, which is told.
fn journal_to<R: Threads>(
    host: &HostRuntime,
    rt: &R,
    path: &str,
    file: File,
    sync: JournalSync,
) -> Result<Journal, ExitCode>
    ensures works { IfOk result (λ journal. journal.sink.failed ≡ false) }
    ensures each { IfOk result (λ journal. is_some journal.syncer ≡ is_each sync) }
{
    match opened_journal(host, rt, path, file, sync) {
        Ok((file, syncer)) => Ok(Journal {
            sink: Unbuffered::new(Steady::new(file)),
            syncer,
        }),
        Err(NoMemory) => Err(give_up(host, NO_MEMORY)),
    }
}

/// A writer to the file of a journal that goes on. The error is the status, as of [`opened`].
pub fn journal_gone_on<R: Threads>(
    host: &HostRuntime,
    rt: &R,
    path: &str,
    sync: JournalSync,
) -> Result<Journal, ExitCode>
    ensures works { IfOk result (λ journal. journal.sink.failed ≡ false) }
    ensures each { IfOk result (λ journal. is_some journal.syncer ≡ is_each sync) }
{
    let file = opened(host, path, false)?;
    journal_to(host, rt, path, file, sync)
}

/// A writer to the file of a journal, which has to be missing or empty. The error is the status, as
/// of [`fresh`].
pub fn journal_file<R: Threads>(
    host: &HostRuntime,
    rt: &R,
    path: &str,
    sync: JournalSync,
) -> Result<Journal, ExitCode>
    ensures works { IfOk result (λ journal. journal.sink.failed ≡ false) }
    ensures each { IfOk result (λ journal. is_some journal.syncer ≡ is_each sync) }
{
    let file = fresh(host, path)?;
    if sync != JournalSync::Never {
        sync_folder(host, path)?;
    }
    journal_to(host, rt, path, file, sync)
}

/// A writer to the file of a dump, which has to be missing or empty. The error is the status, as of
/// [`fresh`], or where there was no memory for a buffer, which is told.
pub fn dump_file(rt: &HostRuntime, path: &str) -> Result<DumpSink, ExitCode>
    ensures { IfOk result (λ writer. writer.failed ≡ false) }
{
    let file = fresh(rt, path)?;
    match BufWriter::new(rt.alloc(), Steady::new(file)) {
        Ok(buffered) => Ok(StdSink::new(buffered)),
        Err(_) => Err(give_up(rt, NO_MEMORY)),
    }
}
