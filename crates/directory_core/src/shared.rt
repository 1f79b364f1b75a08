//! What a directory and its hands have in common.

use crate::piece::{Piece, Standing};
use crate::waiting::Waiting;
use crate::waker::Waker;
use base_core::Broken;
use std::alloc::Global;
use std::fs::File;
use std::io::ErrorKind;
use std::sync::atomic::{AtomicBool, AtomicU64, Ordering};
use std::sync::{Arc, Mutex, MutexGuard, Wait};
use std::{hint, mem};

// How often a lock is tried that others hold for some moves.
const TRIES: u64 = 1_000_000;

/// What a directory and its hands have in common.
#[derive(Drop)]
pub struct Shared {
    folder: File,
    standing: Mutex<Standing>,
    /// How often a name of the folder was made, changed or removed.
    names: AtomicU64,
    /// How often by the last sync of the folder.
    synced_names: AtomicU64,
    /// How many changes the journal has.
    count: AtomicU64,
    /// Who takes checkpoints of them.
    taker: Waiting,
    /// What wakes who puts them on the disk from time to time, if there is one.
    waker: Option<Waker>,
    /// Whether something could not be put on the disk: nobody knows then how much of it is there.
    is_lost: AtomicBool,
    /// Files that were removed, held open.
    removed: Mutex<Vec<File>>,
}

impl Shared {
    /// Of a folder to which nothing was written yet.
    pub fn new(alloc: Global, folder: File, waker: Option<Waker>) -> Shared {
        Shared {
            folder,
            standing: Mutex::new(Standing {
                before: None,
                last: None,
            }),
            names: AtomicU64::new(0),
            synced_names: AtomicU64::new(0),
            count: AtomicU64::new(0),
            taker: Waiting::new(),
            waker,
            is_lost: AtomicBool::new(false),
            removed: Mutex::new(Vec::new(alloc)),
        }
    }

    fn standing(&self) -> Result<MutexGuard<'_, Standing>, Broken> {
        for _ in 0..TRIES {
            if let Some(standing) = self.standing.try_lock() {
                return Ok(standing);
            }
            hint::spin_loop();
        }
        Err(Broken)
    }

    /// From now on this piece is written to.
    pub fn begin(&self, piece: Arc<Piece>) -> Result<(), Broken> {
        let mut standing = self.standing()?;
        if standing.before.is_some() {
            return Err(Broken);
        }
        standing.before = standing.last.take();
        standing.last = Some(piece);
        Ok(())
    }

    /// The pieces that may not be on the disk.
    fn unsynced(&self) -> Result<Standing, Broken> {
        let standing = self.standing()?;
        let Ok(before) = shared_once_more(&standing.before) else {
            return Err(Broken);
        };
        let Ok(last) = shared_once_more(&standing.last) else {
            return Err(Broken);
        };
        Ok(Standing { before, last })
    }

    /// The piece before that is on the disk.
    fn forget(&self, piece: &Piece) {
        let Ok(mut standing) = self.standing() else {
            return;
        };
        let is_it = match &standing.before {
            Some(before) => before.point == piece.point,
            None => false,
        };
        if is_it {
            standing.before = None;
        }
    }

    /// Has the system put a file on its disk. What is no file of a disk is as it is.
    fn sync_file(&self, file: &File) -> Result<(), Broken> {
        match file.sync_data() {
            Ok(()) => Ok(()),
            Err(error) if error.kind() == ErrorKind::InvalidInput => Ok(()),
            Err(_) => {
                self.is_lost.store(true, Ordering::SeqCst);
                Err(Broken)
            }
        }
    }

    /// Has on the disk what was written to the journal, and says how many of its changes are there.
    pub fn sync(&self) -> Result<u64, Broken> {
        let Standing { before, last } = self.unsynced()?;
        if let Some(piece) = &before {
            self.sync_file(&piece.file)?;
        }
        self.sync_names()?;
        let Some(piece) = last else {
            return Ok(0);
        };
        // Before the call: what comes meanwhile may not be on the disk behind it.
        let lines = piece.lines.load(Ordering::SeqCst);
        self.sync_file(&piece.file)?;
        if let Some(piece) = &before {
            self.forget(piece);
        }
        Ok(piece.point.saturating_add(lines))
    }

    /// Has on the disk the names of the folder, and says how often they had changed.
    pub fn sync_names(&self) -> Result<u64, Broken> {
        let names = self.names.load(Ordering::SeqCst);
        if names != self.synced_names.load(Ordering::SeqCst) {
            self.sync_file(&self.folder)?;
            self.synced_names.store(names, Ordering::SeqCst);
        }
        Ok(names)
    }

    /// Has on the disk the names of the folder, whether they have changed or not.
    pub fn sync_folder(&self) -> Result<(), Broken> {
        self.sync_file(&self.folder)
    }

    /// A name was made, changed or removed. How often that was.
    pub fn names_changed(&self) -> u64 {
        self.names.fetch_add(1, Ordering::SeqCst).saturating_add(1)
    }

    /// Holds a file open that was removed. The system frees what it has when it is let go, which takes long.
    pub fn hold(&self, file: File) {
        if let Some(mut removed) = self.removed.try_lock() {
            let _ = removed.push(file);
        }
    }

    /// Lets go the files that are held open.
    pub fn let_go(&self, alloc: Global) {
        let Some(mut removed) = self.removed.try_lock() else {
            return;
        };
        let files = mem::replace(&mut *removed, Vec::new(alloc));
        drop(removed);
        drop(files);
    }

    pub fn is_lost(&self) -> bool {
        self.is_lost.load(Ordering::SeqCst)
    }

    pub fn count(&self) -> u64 {
        self.count.load(Ordering::SeqCst)
    }

    /// The journal has so many changes.
    pub fn grow(&self, count: u64) {
        self.count.store(count, Ordering::SeqCst);
        self.taker.grown(count);
        if let Some(waker) = &self.waker {
            waker.wake();
        }
    }

    /// Has `rest` return.
    pub fn wake(&self) {
        self.taker.wake();
    }

    /// Returns once the journal has so many changes, or this was woken since it returned last.
    pub fn rest<R: Wait>(&self, rt: &R, count: u64) {
        self.taker.rest(rt, &self.count, count);
    }

    pub fn waker(&self) -> Option<&Waker> {
        self.waker.as_ref()
    }
}

/// The same piece, for one more who has it.
fn shared_once_more(piece: &Option<Arc<Piece>>) -> Result<Option<Arc<Piece>>, Broken> {
    let Some(piece) = piece else {
        return Ok(None);
    };
    match Arc::try_clone(piece) {
        Ok(piece) => Ok(Some(piece)),
        Err(_) => Err(Broken),
    }
}
