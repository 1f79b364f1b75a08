//! One who waits until a journal has so many changes.

use std::sync::Wait;
use std::sync::atomic::{AtomicBool, AtomicU64, Ordering};

/// One who waits until a journal has so many changes.
#[derive(Drop)]
pub struct Waiting {
    /// For how many he waits.
    wanted: AtomicU64,
    rings: AtomicU64,
    is_woken: AtomicBool,
}

impl Waiting {
    /// Nobody waits yet.
    pub fn new() -> Waiting {
        Waiting {
            wanted: AtomicU64::new(u64::MAX),
            rings: AtomicU64::new(0),
            is_woken: AtomicBool::new(false),
        }
    }

    fn ring(&self) {
        self.rings.fetch_add(1, Ordering::SeqCst);
        self.rings.wake_all();
    }

    /// There are so many changes now.
    pub fn grown(&self, count: u64) {
        if count >= self.wanted.load(Ordering::SeqCst) {
            self.ring();
        }
    }

    /// Has him go on, whatever he waits for.
    pub fn wake(&self) {
        self.is_woken.store(true, Ordering::SeqCst);
        self.ring();
    }

    /// Returns once there are so many changes, or he was woken since he waited last.
    pub fn rest<R: Wait>(&self, rt: &R, count: &AtomicU64, wanted: u64) {
        self.wanted.store(wanted, Ordering::SeqCst);
        for _ in rt.forever() {
            let rung = self.rings.load(Ordering::SeqCst);
            let is_there = count.load(Ordering::SeqCst) >= wanted;
            if is_there || self.is_woken.swap(false, Ordering::SeqCst) {
                self.wanted.store(u64::MAX, Ordering::SeqCst);
                return;
            }
            self.rings.park(rt, (rung & 0xffff_ffff) as u32);
        }
        unreachable!()
    }
}
