//! The sign that no further session is taken.

use door_core::Entrance;
use libc::net::{SHUT_RD, SHUT_RDWR};
use std::sync::atomic::{AtomicBool, AtomicU64, Ordering};

/// The sign that no further session is taken, and whether those that run are to end; and how many workers
/// have left.
#[derive(Drop)]
pub struct Sign {
    is_closed: AtomicBool,
    is_stopped: AtomicBool,
    is_cut: AtomicBool,
    left: AtomicU64,
    // A client could not be let in, and is to be let in later.
    is_owed: AtomicBool,
}

impl Sign {
    /// Sessions are taken.
    pub(crate) fn new() -> Sign {
        Sign {
            is_closed: AtomicBool::new(false),
            is_stopped: AtomicBool::new(false),
            is_cut: AtomicBool::new(false),
            left: AtomicU64::new(0),
            is_owed: AtomicBool::new(false),
        }
    }

    /// No further session is taken, and who connects from now on is refused.
    pub(crate) fn close(&self, entrance: &Entrance) {
        self.is_closed.store(true, Ordering::SeqCst);
        entrance.close();
    }

    /// Whether no further session is taken.
    pub fn is_closed(&self) -> bool {
        self.is_closed.load(Ordering::SeqCst)
    }

    /// The sessions that are open are to end.
    pub(crate) fn stop(&self) {
        self.is_stopped.store(true, Ordering::SeqCst);
    }

    /// Whether the sessions that are open are to end.
    pub fn is_stopped(&self) -> bool {
        self.is_stopped.load(Ordering::SeqCst)
    }

    /// Connections are to end at once.
    pub(crate) fn cut(&self) {
        self.is_cut.store(true, Ordering::SeqCst);
    }

    /// Whether they are.
    pub(crate) fn is_cut(&self) -> bool {
        self.is_cut.load(Ordering::SeqCst)
    }

    /// How connections are to be shut, if they are.
    pub(crate) fn shut(&self) -> Option<i32> {
        match (self.is_cut(), self.is_stopped()) {
            (true, _) => Some(SHUT_RDWR),
            (false, true) => Some(SHUT_RD),
            (false, false) => None,
        }
    }

    /// A client could not be let in, and is to be let in later.
    pub(crate) fn ask_later(&self) {
        self.is_owed.store(true, Ordering::SeqCst);
    }

    /// Whether one was, since this was asked.
    pub(crate) fn was_owed(&self) -> bool {
        self.is_owed.swap(false, Ordering::SeqCst)
    }

    /// A worker has left.
    pub(crate) fn go(&self) {
        self.left.fetch_add(1, Ordering::SeqCst);
    }

    /// How many workers have left.
    pub fn left(&self) -> u64 {
        self.left.load(Ordering::SeqCst)
    }
}
