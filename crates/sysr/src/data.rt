//! A server's own folder: what it begins with, and who looks after it.
ghost use Rattle.std.specs.Prelude.{◌≡◌, ◌<◌, ◌≤◌, None, false, IfOk};
ghost use Rattle.journal_core.specs.Keeping.{owing_nothing};
ghost use Rattle.load_core.specs.Ready.{IsReady};
ghost use Rattle.desk_core.specs.Guarded.{origin_at};
ghost use Rattle.checkpoint_core.specs.Beginning.{MayTend};

use crate::command::{JournalSync, OwnFolder};
use crate::files::give_up_on;
use base_core::{Limits, Name, User};
use checkpoint_core::{Beginning, FolderArchive, Plan, begin};
use data_core::Pieces;
use directory_core::{Directory, Hands, OpenFault, Syncer, open};
use lines_core::{NO_MEMORY, SessionFault, fault_text, give_up};
use load_core::{LoadFault, load_fault_text};
use recovery_core::{HistoryDumps, RecoveryFault};
use std::mem::forget;
use std::process::ExitCode;
use std::thread;
use std::thread::Threads;

// As whom a server says CHECKPOINT for itself.
const OWN_NAME: &[u8] = b"sysr";

/// What a server's changes are written to that has a folder of its own.
pub type DataSink = Pieces<HistoryDumps, Directory>;

/// That folder as an archive of checkpoints.
pub type DataArchive = FolderArchive<Directory, Hands>;

/// What a server begins with that has a folder of its own, and who does for that what takes long.
#[derive(Drop)]
pub struct DataStart {
    pub beginning: Beginning<Directory>,
    pub hands: Hands,
}

/// Tells why the folder was not opened.
fn give_up_open(rt: &HostRuntime, path: &str, fault: OpenFault) -> ExitCode {
    match fault {
        OpenFault::Broken => give_up_on(rt, path, b"cannot be opened"),
        OpenFault::InUse => give_up_on(rt, path, b"in use by another sysr"),
        OpenFault::NoMemory => give_up(rt, NO_MEMORY),
    }
}

/// Tells why a file of the folder cannot be loaded.
fn give_up_file(rt: &HostRuntime, path: &str, kind: &str, point: u64, why: &LoadFault) -> ExitCode {
    let alloc = rt.alloc();
    let (Ok(name), Ok(text)) = (
        format!(in alloc; "{path}/{kind}-{point:010}"),
        load_fault_text(alloc, why),
    ) else {
        return give_up(rt, NO_MEMORY);
    };
    give_up_on(rt, name.as_str(), text.as_slice())
}

/// Tells why the folder restored nothing.
fn give_up_recovery(rt: &HostRuntime, path: &str, fault: RecoveryFault) -> ExitCode {
    match fault {
        RecoveryFault::Broken => give_up_on(rt, path, b"cannot be read and written"),
        RecoveryFault::NoMemory => give_up(rt, NO_MEMORY),
        RecoveryFault::Dump { point, why } => give_up_file(rt, path, "dump", point, &why),
        RecoveryFault::Piece { point, why } => give_up_file(rt, path, "journal", point, &why),
        RecoveryFault::BadDump { .. } => give_up_on(rt, path, b"its newest dump is not whole"),
        RecoveryFault::Missing { .. } => {
            give_up_on(rt, path, b"lines are missing behind its newest dump")
        }
        RecoveryFault::Full => give_up_on(rt, path, b"has too many changes"),
    }
}

/// Says how many changes were restored, and behind which moment the next are made.
fn told(rt: &HostRuntime, begun: DataStart) -> Result<DataStart, ExitCode>
    ensures { IfOk result (λ told. told ≡ begun) }
{
    let (count, moment) = (begun.beginning.begun.count, begun.beginning.begun.start);
    if println!(rt; "loaded {count} changes, now at @{moment}").is_err() {
        forget(begun);
        return Err(give_up(rt, fault_text(SessionFault::Write)));
    }
    Ok(begun)
}

/// What a server begins with that has this folder: what that restores, which is told. The error is the
/// status, and the reason is told.
pub fn begun_in(
    rt: &HostRuntime,
    path: &str,
    chunk: usize,
    limits: Limits,
    sync: JournalSync,
) -> Result<DataStart, ExitCode>
    requires some { 0 < chunk }
    requires small { chunk ≤ 64 }
    ensures ready { IfOk result (λ b. IsReady b.beginning.system) }
    ensures asked { IfOk result (λ b. (b.beginning.system.chunk ≡ chunk)
        × (b.beginning.system.limits ≡ limits)) }
    ensures works { IfOk result (λ b. b.beginning.sink.failed ≡ false) }
    ensures begins { IfOk result (λ b. MayTend false b.beginning.begun b.beginning.system.journal
        (origin_at b.beginning.system (owing_nothing None None))) }
{
    let (directory, hands) = match open(rt, path, sync == JournalSync::Second) {
        Ok(opened) => opened,
        Err(fault) => return Err(give_up_open(rt, path, fault)),
    };
    match begin(rt.alloc(), directory, chunk, limits) {
        Ok(beginning) => told(rt, DataStart { beginning, hands }),
        Err(fault) => Err(give_up_recovery(rt, path, fault)),
    }
}

/// Has what is written put on the disk as is asked: by a thread of its own, or by whom it gives, whenever a client is
/// told of it. The error is the status, where there was no memory for it, or no thread, which is told.
fn syncer_of<R: Threads>(
    host: &HostRuntime,
    rt: &R,
    hands: &Hands,
    sync: JournalSync,
) -> Result<Option<Syncer>, ExitCode> {
    if sync == JournalSync::Never {
        return Ok(None);
    }
    let Ok(own) = hands.try_clone() else {
        return Err(give_up(host, NO_MEMORY));
    };
    if sync == JournalSync::Each {
        return Ok(Some(Syncer(own)));
    }
    let syncs = move || {
        own.keep_synced();
        drop(own);
    };
    match thread::spawn(rt, syncs) {
        Ok(_) => Ok(None),
        Err(_) => Err(give_up(host, NO_MEMORY)),
    }
}

/// Who puts on the disk at the end what was written, and who does meanwhile, where that is asked for. The error is the
/// status, as of [`syncer_of`].
pub fn hands_of<R: Threads>(
    host: &HostRuntime,
    rt: &R,
    hands: &Hands,
    sync: JournalSync,
) -> Result<(Hands, Option<Syncer>), ExitCode> {
    let Ok(last) = hands.try_clone() else {
        return Err(give_up(host, NO_MEMORY));
    };
    let syncer = syncer_of(host, rt, hands, sync)?;
    Ok((last, syncer))
}

/// When checkpoints are written to the folder. The error is the status, where there was no memory for it,
/// which is told.
pub fn plan_of(rt: &HostRuntime, folder: OwnFolder<'_>) -> Result<Plan, ExitCode> {
    let Some(name) = Name::read(OWN_NAME) else {
        return Err(give_up(rt, NO_MEMORY));
    };
    Ok(Plan {
        every: folder.every,
        pieces: folder.pieces,
        user: User(name),
    })
}
