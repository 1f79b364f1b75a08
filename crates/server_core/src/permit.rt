//! The permit of one session.

use crate::permits::Permits;
use std::cell::Cell;
use std::sync::Wait;

// Behind so many lines a session lets another run.
const QUANTUM: u64 = 32;

/// Whether a session runs, whether it has a permit for that, and how many lines it answered since it
/// last let another run. It may run without a permit, where none came in time.
#[derive(Drop)]
pub(crate) struct Permit<'a, R: Wait> {
    rt: &'a R,
    permits: &'a Permits,
    is_running: Cell<bool>,
    is_held: Cell<bool>,
    lines: Cell<u64>,
}

impl<'a, R: Wait> Permit<'a, R> {
    /// The session does not run yet.
    pub(crate) fn new(rt: &'a R, permits: &'a Permits) -> Permit<'a, R> {
        Permit {
            rt,
            permits,
            is_running: Cell::new(false),
            is_held: Cell::new(false),
            lines: Cell::new(0),
        }
    }

    /// The session runs from now on.
    pub(crate) fn run(&self) {
        if !self.is_running.replace(true) {
            self.is_held.set(self.permits.acquire(self.rt));
        }
    }

    /// The session does not run from now on, and has no permit.
    pub(crate) fn rest(&self) {
        self.is_running.set(false);
        if self.is_held.replace(false) {
            self.permits.release();
        }
    }

    /// Behind a line that was answered: the session runs, and behind so many lines lets another run.
    pub(crate) fn count_line(&self) {
        self.run();
        let lines = self.lines.get().saturating_add(1);
        if lines < QUANTUM {
            self.lines.set(lines);
            return;
        }
        self.lines.set(0);
        let acquired = if self.is_held.get() {
            self.permits.hand_over(self.rt)
        } else {
            self.permits.acquire(self.rt)
        };
        self.is_held.set(acquired);
    }
}
