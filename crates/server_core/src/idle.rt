//! The workers who wait for somebody.

use door_core::{Entrance, Ready};
use std::sync::atomic::{AtomicU64, Ordering};

/// How many workers wait for somebody to come or go on. No contract speaks of it.
#[derive(Drop)]
pub(crate) struct Idle {
    workers: AtomicU64,
}

impl Idle {
    pub(crate) fn new() -> Idle {
        Idle {
            workers: AtomicU64::new(0),
        }
    }

    /// Whether any worker waits.
    pub(crate) fn is_any(&self) -> bool {
        self.workers.load(Ordering::SeqCst) > 0
    }

    /// Waits at the entrance, as one of them.
    pub(crate) fn while_waiting(&self, entrance: &Entrance) -> Ready {
        self.workers.fetch_add(1, Ordering::SeqCst);
        let ready = entrance.wait();
        self.workers.fetch_sub(1, Ordering::SeqCst);
        ready
    }
}
