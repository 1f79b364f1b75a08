//! What takes long, and is done for a directory while it is written to.
use crate::directory::Directory;
use crate::dump_file::DumpFile;
use crate::listing::{dumps_of, names_in, pieces_of};
use crate::names::unfinished_in;
use crate::shared::Shared;
use base_core::{Broken, NoMemory};
use checkpoint_core::{CheckpointFault, Outside};
use folder_core::{NamesSynced, Synced, Written};
use journal_core::Syncs;
use recovery_core::HistoryDumps;
use std::alloc::Global;
use std::fs::{File, OpenOptions};
use std::io::Write;
use std::snapshot::Snapshot;
use std::sync::{Arc, Wait};
use std::thread;
use std::time::Duration;

const PAUSE_SECONDS: u64 = 1;

/// Who does for a directory what takes long, while it is written to.
#[derive(Drop)]
pub struct Hands {
    host: HostRuntime,
    path: String,
    shared: Arc<Shared>,
}

impl Hands {
    pub(crate) fn new(host: HostRuntime, path: String, shared: Arc<Shared>) -> Hands {
        Hands { host, path, shared }
    }

    /// The same once more. `NoMemory` where there was no memory for it.
    pub fn try_clone(&self) -> Result<Hands, NoMemory> {
        Ok(Hands {
            host: self.host,
            path: self.path.as_str().to_string(self.host.alloc())?,
            shared: Arc::try_clone(&self.shared)?,
        })
    }

    /// Has on the disk what was written to the journal, and says how many changes are there. Where it could not, it is
    /// told on standard error, and the journal takes nothing more.
    pub fn sync_journal(&self) -> Result<u64, Broken> {
        match self.shared.sync() {
            Ok(count) => Ok(count),
            Err(Broken) => {
                self.say("cannot be synced");
                Err(Broken)
            }
        }
    }

    /// Puts what is written to the journal on the disk, a second behind the first of it, until it cannot be put
    /// there. It sleeps while nothing is written, and returns at once where the folder was not opened for it.
    pub fn keep_synced(&self) {
        let Some(waker) = self.shared.waker() else {
            return;
        };
        for _ in 0..u64::MAX {
            if !waker.wait() {
                return;
            }
            thread::sleep(&self.host, Duration::from_secs(PAUSE_SECONDS));
            // Before the call: what comes meanwhile may not be on the disk behind it.
            waker.sleep();
            if self.sync_journal().is_err() {
                return;
            }
        }
    }

    /// Tells something of the folder on standard error. A fault of that is forgotten.
    fn say(&self, what: &str) {
        let path = self.path.as_str();
        let _ = eprintln!(&self.host; "sysr: {path}: {what}");
    }

    fn unfinished(&self) -> Result<File, Broken> {
        let Ok(path) = unfinished_in(self.host.alloc(), self.path.as_str()) else {
            return Err(Broken);
        };
        let made = OpenOptions::new()
            .write(true)
            .create(true)
            .truncate(true)
            .open(&self.host, path.as_str());
        match made {
            Ok(file) => Ok(file),
            Err(_) => Err(Broken),
        }
    }
}

impl Outside<HistoryDumps, Directory> for Hands {
    type Writer = DumpFile;

    fn begin_dump(&self) -> Result<DumpFile, Broken> {
        let file = self.unfinished()?;
        match DumpFile::new(self.host.alloc(), file) {
            Ok(dump) => Ok(dump),
            Err(NoMemory) => Err(Broken),
        }
    }

    fn finish(&self, writer: DumpFile) -> Result<Written, Broken> {
        writer.finish()?;
        Ok(Written { number: 0 })
    }

    fn sync(&self) -> Result<Synced, Broken> {
        let count = self.sync_journal()?;
        Ok(Synced { count })
    }

    fn sync_names(&self) -> Result<NamesSynced, Broken> {
        let names = self.shared.sync_names()?;
        Ok(NamesSynced { names })
    }

    fn dumps(&self, alloc: Global) -> Result<Vec<u64>, Broken> {
        let Ok(names) = names_in(&self.host, alloc, self.path.as_str()) else {
            return Err(Broken);
        };
        match dumps_of(alloc, names.as_slice()) {
            Ok(points) => Ok(points),
            Err(_) => Err(Broken),
        }
    }

    fn pieces(&self, alloc: Global) -> Result<Vec<u64>, Broken> {
        let Ok(names) = names_in(&self.host, alloc, self.path.as_str()) else {
            return Err(Broken);
        };
        match pieces_of(alloc, names.as_slice()) {
            Ok(mut points) => {
                points.as_mut_slice().sort_unstable();
                Ok(points)
            }
            Err(_) => Err(Broken),
        }
    }

    fn count(&self) -> u64 {
        self.shared.count()
    }

    fn rest<R: Wait>(&self, rt: &R, count: u64) {
        self.shared.let_go(self.host.alloc());
        self.shared.rest(rt, count);
    }

    fn wake(&self) {
        self.shared.wake();
    }

    fn tell(&self, taken: &Result<u64, CheckpointFault>) {
        let why = match taken {
            Ok(_) | Err(CheckpointFault::Stopped) => return,
            Err(CheckpointFault::Worn) => "no checkpoint: all turns are drawn",
            Err(CheckpointFault::NoMemory) => "no checkpoint: no memory",
            Err(CheckpointFault::Gone) => "no checkpoint: it is kept no more",
            Err(CheckpointFault::TooLarge) => "no checkpoint: it could not be loaded",
            Err(CheckpointFault::LongRow) => "no checkpoint: a row fits no line",
            Err(CheckpointFault::Broken) => "no checkpoint: cannot be written",
            Err(CheckpointFault::Refused) => "no checkpoint: refused",
        };
        self.say(why);
    }
}

/// Who puts the journal on the disk whenever a client is told of it.
#[derive(Drop)]
pub struct Syncer(pub Hands);

impl<K> Syncs<K> for Syncer {
    ghost use Rattle.std.specs.Prelude.{true};

    ghost asks = { true };

    // Of a disk nothing is known but that it was asked.
    ghost durable = { λ k. Unit {0} };

    fn is_asked(&self) -> bool {
        true
    }

    fn sync(&self, _kept: &Snapshot<K>) -> Result<(), Broken> {
        self.0.sync_journal()?;
        Ok(())
    }
}
