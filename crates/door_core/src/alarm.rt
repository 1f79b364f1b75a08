//! What wakes the timekeeper of a server.

use lines_core::Steady;
use std::io;
use std::io::{Read, Write};
use std::net::Net;
use std::os::fd::AsRawFd;
use std::os::unix::net::UnixStream;
use std::sync::atomic::{AtomicBool, Ordering};

/// What wakes the timekeeper of a server, who sleeps while nobody's time runs. Threads share it. No
/// contract speaks of it.
#[derive(Drop)]
pub struct Alarm {
    bell: UnixStream,
    ear: UnixStream,
    // He looks at the clock anyway.
    is_awake: AtomicBool,
}

impl Alarm {
    /// One that nobody has rung, of a timekeeper who is awake. An error is the system's.
    pub(crate) fn new<N: Net>(net: &N) -> io::Result<Alarm> {
        let (bell, ear) = UnixStream::pair(net)?;
        bell.set_nonblocking(true)?;
        ear.set_nonblocking(true)?;
        Ok(Alarm {
            bell,
            ear,
            is_awake: AtomicBool::new(true),
        })
    }

    /// Wakes the timekeeper, or has him not sleep when he would next.
    pub fn ring(&self) {
        // Where there is no room for one more, he has not heard the last yet.
        let _ = Steady::new(&self.bell).write(&[0]);
    }

    /// Somebody's time runs from now on. The timekeeper is woken, unless he looks at the clock anyway.
    pub fn need(&self) {
        if !self.is_awake.load(Ordering::SeqCst) && !self.is_awake.swap(true, Ordering::SeqCst) {
            self.ring();
        }
    }

    /// Whether the timekeeper looks at the clock anyway from now on. At first he does.
    pub fn set_awake(&self, is_awake: bool) {
        self.is_awake.store(is_awake, Ordering::SeqCst);
    }

    /// The descriptor at which something comes once the alarm was rung, until it is hushed. It is open as
    /// long as the alarm is there.
    pub fn ear(&self) -> i32 {
        self.ear.as_raw_fd()
    }

    /// The timekeeper has heard it, 64 rings of it at most. It never waits.
    pub fn hush(&self) {
        let mut heard = [0; 64];
        let _ = Steady::new(&self.ear).read(&mut heard);
    }
}
