//! What wakes a thread that waits.

use std::sync::Wait;
use std::sync::atomic::{AtomicU64, Ordering};

/// What wakes a thread that waits, and how often it was rung.
#[derive(Drop)]
pub struct Bell {
    rings: AtomicU64,
}

impl Bell {
    /// Nobody has rung it.
    pub(crate) fn new() -> Bell {
        Bell {
            rings: AtomicU64::new(0),
        }
    }

    /// Wakes who waits, and who waits next.
    pub fn ring(&self) {
        self.rings.fetch_add(1, Ordering::SeqCst);
        self.rings.wake_all();
    }

    /// Waits until it was rung more often than this. How often it was.
    pub(crate) fn wait<R: Wait>(&self, rt: &R, rings: u64) -> u64 {
        for _ in rt.forever() {
            let rung = self.rings.load(Ordering::SeqCst);
            if rung != rings {
                return rung;
            }
            self.rings.park(rt, (rung & 0xffff_ffff) as u32);
        }
        unreachable!()
    }
}
