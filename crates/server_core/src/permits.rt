//! How many sessions run at once.
use std::sync::Wait;
use std::sync::atomic::{AtomicU64, Ordering};
use std::time::Duration;

// How many milliseconds one sleeps for a permit at most, and how often.
const PATIENCE_MILLIS: u64 = 1;

const MOST_SLEEPS: u32 = 3;

/// Permits to run, of which a session that runs holds one. There are half as many as processors, at
/// least one: the system's calls for lines and answers, which are made without one, take the other
/// half.
///
/// Who finds a permit free takes it, whoever else waits, since most hold theirs for less time than a
/// wake takes. [`hand_over`](Permits::hand_over) is for a session that has run for long: it gets in line
/// behind all that have not run yet. Nobody waits for more than some milliseconds: who gets no permit in
/// that time runs without one, so that a session that holds its own for long does not hold up others.
#[derive(Drop)]
pub struct Permits {
    free: AtomicU64,
    fresh: Line,
    run: Line,
}

/// Sessions that wait for a permit.
#[derive(Drop)]
struct Line {
    waiting: AtomicU64,
    bell: AtomicU64,
}

impl Line {
    fn new() -> Line {
        Line {
            waiting: AtomicU64::new(0),
            bell: AtomicU64::new(0),
        }
    }

    fn is_empty(&self) -> bool {
        self.waiting.load(Ordering::SeqCst) == 0
    }

    /// Wakes one of those who sleep.
    fn ring(&self) {
        self.bell.fetch_add(1, Ordering::SeqCst);
        self.bell.wake_one();
    }

    fn rung(&self) -> u64 {
        self.bell.load(Ordering::SeqCst)
    }

    /// Sleeps until a ring behind the one of this number, for as long as one has patience.
    fn sleep<R: Wait>(&self, rt: &R, rung: u64) {
        let word = (rung & 0xffff_ffff) as u32;
        self.bell
            .park_timeout(rt, word, Duration::from_millis(PATIENCE_MILLIS));
    }
}

impl Permits {
    /// The permits of a server that has so many processors.
    pub fn new(processors: usize) -> Permits {
        Permits {
            free: AtomicU64::new((processors as u64 / 2).max(1)),
            fresh: Line::new(),
            run: Line::new(),
        }
    }

    fn try_acquire(&self) -> bool {
        let free = self.free.load(Ordering::SeqCst);
        free > 0
            && self
                .free
                .compare_exchange(free, free - 1, Ordering::SeqCst, Ordering::SeqCst)
                .is_ok()
    }

    /// Whether it gets a permit. Where none is free it waits for one.
    pub(crate) fn acquire<R: Wait>(&self, rt: &R) -> bool {
        self.try_acquire() || self.wait_in(rt, &self.fresh)
    }

    /// Gives a permit back.
    pub(crate) fn release(&self) {
        self.free.fetch_add(1, Ordering::SeqCst);
        self.ring();
    }

    /// Gives a permit back where another session waits, and gets in line behind that. Whether it
    /// has a permit then.
    pub(crate) fn hand_over<R: Wait>(&self, rt: &R) -> bool {
        if self.fresh.is_empty() && self.run.is_empty() {
            return true;
        }
        self.free.fetch_add(1, Ordering::SeqCst);
        self.ring();
        self.run.waiting.fetch_add(1, Ordering::SeqCst);
        self.run.sleep(rt, self.run.rung());
        let acquired = self.wait(rt, &self.run);
        self.run.waiting.fetch_sub(1, Ordering::SeqCst);
        acquired
    }

    /// Wakes one who has not run yet, or else one who has.
    fn ring(&self) {
        if !self.fresh.is_empty() {
            self.fresh.ring();
        } else if !self.run.is_empty() {
            self.run.ring();
        }
    }

    fn wait_in<R: Wait>(&self, rt: &R, line: &Line) -> bool {
        line.waiting.fetch_add(1, Ordering::SeqCst);
        let acquired = self.wait(rt, line);
        line.waiting.fetch_sub(1, Ordering::SeqCst);
        acquired
    }

    /// Whether one who is counted in this line gets a permit. Whoever gives one back later than it was
    /// looked for rings later than the bell was read, so that this one does not sleep.
    fn wait<R: Wait>(&self, rt: &R, line: &Line) -> bool {
        for _ in 0..MOST_SLEEPS {
            let rung = line.rung();
            if self.try_acquire() {
                return true;
            }
            line.sleep(rt, rung);
        }
        self.try_acquire()
    }
}
