//! What wakes a thread that sleeps while nothing is written.

use lines_core::Steady;
use std::io::{Read, Result, Write};
use std::os::unix::net::UnixStream;
use std::sync::atomic::{AtomicBool, Ordering};

/// What wakes the thread that syncs a journal, which sleeps while nothing is written.
#[derive(Drop)]
pub struct Waker {
    bell: UnixStream,
    ear: UnixStream,
    /// Whether it will sync what is written by now anyway.
    is_awake: AtomicBool,
}

impl Waker {
    /// Of a thread that sleeps. An error is the system's.
    pub fn new(host: &HostRuntime) -> Result<Waker> {
        let (bell, ear) = UnixStream::pair(host)?;
        Ok(Waker {
            bell,
            ear,
            is_awake: AtomicBool::new(false),
        })
    }

    /// Something was written.
    pub fn wake(&self) {
        if !self.is_awake.load(Ordering::SeqCst) && !self.is_awake.swap(true, Ordering::SeqCst) {
            let _ = Steady::new(&self.bell).write(&[0]);
        }
    }

    /// Waits until something was written since it slept. Whether it could.
    pub fn wait(&self) -> bool {
        Steady::new(&self.ear).read(&mut [0; 1]).is_ok()
    }

    /// Of what is written from now on it wants to be told.
    pub fn sleep(&self) {
        self.is_awake.store(false, Ordering::SeqCst);
    }
}
