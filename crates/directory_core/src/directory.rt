//! The folder of a server, on a disk.
ghost use Rattle.std.specs.Prelude.{◌≡◌, ◌<◌, ◌≤◌, All, IfOk, MatchResult, false, true, length};
ghost use Rattle.directory_core.specs.Small.{IsSmall};

use crate::listing::{dumps_of, names_in, pieces_of, resumes_of};
use crate::names::{FileName, unfinished_in};
use crate::piece::Piece;
use crate::shared::Shared;
use base_core::{Broken, StdSource};
use folder_core::{Dumping, Folder, FolderFault, NamesSynced, Synced, Written};
use lines_core::Steady;
use std::alloc::Global;
use std::fs;
use std::fs::{File, OpenOptions};
use std::io::{ErrorKind, Write};
use std::sync::Arc;
use std::sync::atomic::{AtomicU64, Ordering};

/// The directory of a server, which nobody else has open.
#[derive(Drop)]
pub struct Directory {
    host: HostRuntime,
    path: String,
    shared: Arc<Shared>,
    /// The piece that is written to.
    current: Option<Arc<Piece>>,
    /// How many changes the journal has.
    count: u64,
    /// How often names have changed.
    names: u64,
    failed: bool,
    // Locked as long as it is open.
    _lock: File,
}

impl Directory {
    /// The directory of this path, to which nothing was written yet. It is locked by that file.
    pub(crate) fn new(host: HostRuntime, path: String, shared: Arc<Shared>, lock: File) -> Directory
        ensures { result.failed ≡ false }
    {
        Directory {
            host,
            path,
            shared,
            current: None,
            count: 0,
            names: 0,
            failed: false,
            _lock: lock,
        }
    }

    /// The names of a server's files in it.
    fn names(&self, alloc: Global) -> Result<Vec<FileName>, FolderFault>
        ensures { IfOk result (λ names. All IsSmall names.items) }
    {
        names_in(&self.host, alloc, self.path.as_str())
    }

    fn open(&self, alloc: Global, name: FileName) -> Result<File, FolderFault> {
        let path = match name.path_in(alloc, self.path.as_str()) {
            Ok(path) => path,
            Err(_) => return Err(FolderFault::NoMemory),
        };
        match fs::open(&self.host, path.as_str()) {
            Ok(file) => Ok(file),
            Err(_) => Err(FolderFault::Broken),
        }
    }

    /// Has a file of it on the disk.
    fn sync(&self, name: FileName) -> Result<(), Broken> {
        let Ok(file) = self.open(self.host.alloc(), name) else {
            return Err(Broken);
        };
        match file.sync_all() {
            Ok(()) => Ok(()),
            Err(error) if error.kind() == ErrorKind::InvalidInput => Ok(()),
            Err(_) => Err(Broken),
        }
    }

    /// Removes the dump of this point.
    fn remove_one(&mut self, point: u64) -> Result<(), Broken> {
        let Ok(names) = self.names(self.host.alloc()) else {
            return Err(Broken);
        };
        let Some(resumes) = resumes_of(names.as_slice(), point) else {
            return Err(Broken);
        };
        self.remove(FileName::Dump { point, resumes })
    }

    fn remove(&mut self, name: FileName) -> Result<(), Broken>
        ensures { self.new ≡ record self.old { names = self.new.names } }
    {
        let Ok(path) = name.path_in(self.host.alloc(), self.path.as_str()) else {
            return Err(Broken);
        };
        // Held open, since what it has is freed else in this very turn.
        let held = fs::open(&self.host, path.as_str());
        if fs::remove_file(&self.host, path.as_str()).is_err() {
            return Err(Broken);
        }
        self.names = self.shared.names_changed();
        if let Ok(file) = held {
            self.shared.hold(file);
        }
        Ok(())
    }
}

impl Directory {
    /// Notes whether a change of it failed.
    fn noted(&mut self, changed: Result<(), Broken>) -> Result<(), Broken>
        ensures same { result ≡ changed }
        ensures failed { MatchResult result (λ _. self.new.failed ≡ false)
            (λ _. self.new.failed ≡ true) }
    {
        match changed {
            Ok(()) => {
                self.failed = false;
                Ok(())
            }
            Err(Broken) => {
                self.failed = true;
                Err(Broken)
            }
        }
    }

    /// Has on the disk the pieces from this one on, the dump of this point, and the names.
    fn sync_found(&self, point: u64, resumes: u64) -> Result<(), Broken> {
        let Ok(names) = self.names(self.host.alloc()) else {
            return Err(Broken);
        };
        for &name in names.as_slice() {
            let is_read = match name {
                FileName::Dump { point: its, .. } => its == point,
                FileName::Piece { point: its } => its >= resumes,
            };
            if is_read {
                self.sync(name)?;
            }
        }
        self.shared.sync_folder()
    }

    /// A file of this name that was not there, to which it is written.
    fn made(&self, name: FileName) -> Result<File, Broken> {
        let Ok(path) = name.path_in(self.host.alloc(), self.path.as_str()) else {
            return Err(Broken);
        };
        let made = OpenOptions::new()
            .append(true)
            .create_new(true)
            .open(&self.host, path.as_str());
        match made {
            Ok(file) => Ok(file),
            Err(_) => Err(Broken),
        }
    }

    /// Begins the piece behind all changes.
    fn begin(&mut self) -> Result<(), Broken>
        ensures { self.new
            ≡ record self.old { current = self.new.current; names = self.new.names } }
    {
        let point = self.count;
        let file = self.made(FileName::Piece { point })?;
        let alloc = self.host.alloc();
        let lines = AtomicU64::new(0);
        let Ok(piece) = Arc::new(alloc, Piece { point, file, lines }) else {
            return Err(Broken);
        };
        let Ok(shared) = Arc::try_clone(&piece) else {
            return Err(Broken);
        };
        self.names = self.shared.names_changed();
        self.shared.begin(shared)?;
        self.current = Some(piece);
        Ok(())
    }

    /// Gives the finished file the name of this dump.
    fn rename(&mut self, name: FileName) -> Result<(), Broken>
        ensures { self.new ≡ record self.old { names = self.new.names } }
    {
        let alloc = self.host.alloc();
        let (Ok(from), Ok(to)) = (
            unfinished_in(alloc, self.path.as_str()),
            name.path_in(alloc, self.path.as_str()),
        ) else {
            return Err(Broken);
        };
        match fs::rename(&self.host, from.as_str(), to.as_str()) {
            Ok(()) => {
                self.names = self.shared.names_changed();
                Ok(())
            }
            Err(_) => Err(Broken),
        }
    }

    /// Writes some of the bytes to the piece, and counts their lines.
    fn written(&mut self, bytes: &[u8]) -> Result<usize, Broken>
        ensures same { self.new ≡ record self.old { count = self.new.count } }
        ensures count { IfOk result (λ n. n ≤ length bytes.now) }
        ensures some { 0 < length bytes.now → IfOk result (λ n. 0 < n) }
    {
        let Some(piece) = &self.current else {
            return Err(Broken);
        };
        if self.shared.is_lost() {
            return Err(Broken);
        }
        let mut file = Steady::new(&piece.file);
        let count = match file.write(bytes) {
            Ok(count) if count > 0 || bytes.is_empty() => count,
            _ => return Err(Broken),
        };
        let lines = feeds_in(&bytes[..count]);
        piece.lines.fetch_add(lines, Ordering::SeqCst);
        self.count = self.count.saturating_add(lines);
        self.shared.grow(self.count);
        Ok(count)
    }
}

/// How many line feeds there are.
fn feeds_in(bytes: &[u8]) -> u64 {
    bytes.iter().filter(|&&byte| byte == b'\n').count() as u64
}

impl<D: Dumping> Folder<D> for Directory {
    type Reader = StdSource<Steady<File>>;

    ghost use Rattle.std.specs.Prelude.{false, None, []};
    ghost use Rattle.std.proofs.Common.{refl};
    ghost use Rattle.directory_core.specs.Small.{are_names};

    // Of a directory nothing is known but that its calls were made.
    ghost knows = { false };

    ghost state = { λ _. None };

    ghost failed = { λ directory. directory.failed };

    ghost told_by = { λ _ synced. synced.count };

    ghost are_now = { λ directory synced. are_names directory.names synced };

    ghost lines_of = { λ _. [] };

    fn dumps(&self, alloc: Global) -> Result<Vec<u64>, FolderFault> {
        let names = self.names(alloc)?;
        dumps_of(alloc, names.as_slice())
    }

    fn pieces(&self, alloc: Global) -> Result<Vec<u64>, FolderFault> {
        let names = self.names(alloc)?;
        pieces_of(alloc, names.as_slice())
    }

    fn open_piece(&self, point: u64) -> Result<StdSource<Steady<File>>, FolderFault> {
        let file = self.open(self.host.alloc(), FileName::Piece { point })?;
        Ok(StdSource::new(Steady::new(file)))
    }

    fn open_dump(&self, point: u64) -> Result<(StdSource<Steady<File>>, u64), FolderFault> {
        let alloc = self.host.alloc();
        let names = self.names(alloc)?;
        let Some(resumes) = resumes_of(names.as_slice(), point) else {
            return Err(FolderFault::Broken);
        };
        let file = self.open(alloc, FileName::Dump { point, resumes })?;
        Ok((StdSource::new(Steady::new(file)), resumes))
    }

    fn keep_found(&mut self, point: u64, resumes: u64, count: u64) -> Result<(), Broken> {
        let synced = self.sync_found(point, resumes);
        self.count = point.saturating_add(count);
        self.shared.grow(self.count);
        self.noted(synced)
    }

    fn remove_piece(&mut self, point: u64) -> Result<(), Broken> {
        let removed = self.remove(FileName::Piece { point });
        self.noted(removed)
    }

    fn remove_dump(&mut self, point: u64) -> Result<(), Broken> {
        let removed = self.remove_one(point);
        self.noted(removed)
    }

    fn sync_names(&mut self) -> Result<(), Broken> {
        let synced = self.shared.sync_folder();
        self.noted(synced)
    }

    fn begin_piece(&mut self) -> Result<u64, Broken> {
        let point = self.count;
        let begun = self.begin();
        self.noted(begun)?;
        Ok(point)
    }

    fn write(&mut self, bytes: &[u8]) -> Result<usize, Broken> {
        match self.written(bytes) {
            Ok(count) => {
                self.failed = false;
                Ok(count)
            }
            Err(Broken) => {
                self.failed = true;
                Err(Broken)
            }
        }
    }

    fn tell(&mut self, synced: Synced) -> u64 {
        synced.count
    }

    fn tell_names(&mut self, synced: NamesSynced) -> bool {
        synced.names == self.names
    }

    fn put(&mut self, point: u64, _dump: Written) -> Result<(), Broken> {
        let resumes = match &self.current {
            Some(piece) => piece.point,
            None => 0,
        };
        let renamed = self.rename(FileName::Dump { point, resumes });
        self.noted(renamed)
    }

    fn settle(&mut self, _point: u64) {}

    ghost known = { λ directory. refl };

    ghost reached = { λ directory. tt };

    ghost texts = { λ directory. tt };
}
