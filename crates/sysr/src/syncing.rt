//! A journal that is put on its disk: once a second by a thread of its own, which sleeps while nothing is
//! written; or whenever a client is told of it.
ghost use Rattle.std.specs.Prelude.{true};

use crate::files::tell_of;
use base_core::{Broken, NoMemory};
use directory_core::Waker;
use journal_core::Syncs;
use std::alloc::Global;
use std::fs::File;
use std::io::{Error, ErrorKind, Result, Write};
use std::snapshot::Snapshot;
use std::sync::Arc;
use std::sync::atomic::{AtomicBool, Ordering};
use std::thread;
use std::thread::Threads;
use std::time::Duration;

const PAUSE_SECONDS: u64 = 1;

/// What a journal's writer and the thread that syncs it have in common.
#[derive(Drop)]
struct Shared {
    file: File,
    /// None where no thread syncs it.
    waker: Option<Waker>,
    /// Whether it could not be put on its disk.
    is_lost: AtomicBool,
}

impl Shared {
    /// Has the system put the file on its disk. Whether it could: else the file takes nothing more, which is
    /// told. What is no file of a disk is as it is.
    fn sync(&self, rt: &HostRuntime, path: &str) -> bool {
        match self.file.sync_data() {
            Ok(()) => true,
            Err(error) if error.kind() == ErrorKind::InvalidInput => true,
            Err(_) => {
                self.is_lost.store(true, Ordering::SeqCst);
                tell_of(rt, path, b"cannot be synced");
                false
            }
        }
    }
}

/// The file of a journal. Once it could not be put on its disk it takes nothing more, since nobody knows
/// then how much of it is there, and a later call would not tell.
#[derive(Drop)]
pub struct JournalFile {
    shared: Arc<Shared>,
}

impl JournalFile {
    fn with(
        alloc: Global,
        file: File,
        waker: Option<Waker>,
    ) -> std::result::Result<JournalFile, NoMemory> {
        let is_lost = AtomicBool::new(false);
        let shared = Arc::new(
            alloc,
            Shared {
                file,
                waker,
                is_lost,
            },
        )?;
        Ok(JournalFile { shared })
    }

    /// This file, open to write at its end. `NoMemory` where a request for memory was refused.
    pub fn new(alloc: Global, file: File) -> std::result::Result<JournalFile, NoMemory> {
        JournalFile::with(alloc, file, None)
    }

    /// The same, where what is written is put on its disk within a second, until the process ends.
    /// `NoMemory` also where no thread could be started for it.
    pub fn synced<R: Threads>(
        host: &HostRuntime,
        rt: &R,
        path: &str,
        file: File,
    ) -> std::result::Result<JournalFile, NoMemory> {
        let Ok(waker) = Waker::new(host) else {
            return Err(NoMemory);
        };
        let made = JournalFile::with(host.alloc(), file, Some(waker))?;
        if made.keep_synced(host, rt, path) {
            Ok(made)
        } else {
            Err(NoMemory)
        }
    }

    /// Who puts it on its disk whenever a client is told of it. `NoMemory` where a request for memory was
    /// refused.
    pub fn syncer(
        &self,
        host: &HostRuntime,
        path: &str,
    ) -> std::result::Result<JournalSyncer, NoMemory> {
        Ok(JournalSyncer {
            host: *host,
            shared: Arc::try_clone(&self.shared)?,
            path: path.to_string(host.alloc())?,
        })
    }

    /// Whether a thread could be started that puts what is written on its disk.
    fn keep_synced<R: Threads>(&self, host: &HostRuntime, rt: &R, path: &str) -> bool {
        let Ok(shared) = Arc::try_clone(&self.shared) else {
            return false;
        };
        let Ok(path) = path.to_string(host.alloc()) else {
            return false;
        };
        let host = *host;
        let syncs = move || {
            sync_repeatedly(&host, &shared, path.as_str());
            drop(shared);
            drop(path);
        };
        thread::spawn(rt, syncs).is_ok()
    }
}

/// Who puts a journal on its disk whenever a client is told of it.
#[derive(Drop)]
pub struct JournalSyncer {
    host: HostRuntime,
    shared: Arc<Shared>,
    path: String,
}

impl<K> Syncs<K> for JournalSyncer {
    ghost asks = { true };

    // Of a disk nothing is known but that it was asked.
    ghost durable = { λ k. Unit {0} };

    fn is_asked(&self) -> bool {
        true
    }

    fn sync(&self, _kept: &Snapshot<K>) -> std::result::Result<(), Broken> {
        if self.shared.sync(&self.host, self.path.as_str()) {
            Ok(())
        } else {
            Err(Broken)
        }
    }
}

/// Puts what is written on its disk, a second behind the first of it, until it cannot be put there, which
/// is told.
fn sync_repeatedly(rt: &HostRuntime, shared: &Shared, path: &str) {
    let Some(waker) = &shared.waker else {
        return;
    };
    for _ in 0..u64::MAX {
        if !waker.wait() {
            return;
        }
        thread::sleep(rt, Duration::from_secs(PAUSE_SECONDS));
        // Before the call: what comes meanwhile may not be on the disk behind it.
        waker.sleep();
        if !shared.sync(rt, path) {
            return;
        }
    }
}

impl Write for JournalFile {
    ghost use Rattle.std.specs.Prelude.{None};

    // Nothing is told of it.
    ghost contents = { λ _. None };

    fn write(&mut self, buf: &[u8]) -> Result<usize> {
        if self.shared.is_lost.load(Ordering::SeqCst) {
            return Err(Error::from(ErrorKind::Other));
        }
        let mut file = &self.shared.file;
        let count = file.write(buf)?;
        if let Some(waker) = &self.shared.waker {
            waker.wake();
        }
        Ok(count)
    }

    fn flush(&mut self) -> Result<()> {
        Ok(())
    }
}
