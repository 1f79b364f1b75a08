//! Which descriptors are ready.

use libc::net::{EPOLL_CTL_ADD, EPOLL_CTL_MOD, EPOLLIN, EPOLLONESHOT, EPOLLOUT, EPOLLRDHUP};
use mio::Poll;
use os::{EpollEvent, epoll_ctl, epoll_wait};
use std::io;
use std::net::Net;
use std::os::fd::AsRawFd;

/// It waits without a limit.
pub(crate) const NO_LIMIT: i32 = -1;

/// It does not wait.
pub(crate) const NO_WAIT: i32 = 0;

/// What is waited for at a descriptor, beside its end.
#[derive(Clone, Copy, Debug, PartialEq, Eq)]
pub enum Interest {
    /// That something can be read.
    Input,
    /// That something can be written.
    Room,
    /// Neither.
    Nothing,
}

/// Descriptors, each with a number, that are waited for together. Threads share it: of those who wait
/// one is told of a descriptor that is ready, and nobody is told of it again until it is asked for anew.
/// A descriptor that is closed is waited for no longer. No contract speaks of it.
#[derive(Drop)]
pub struct Readiness {
    set: Poll,
}

fn events_of(interest: Interest) -> u32 {
    match interest {
        Interest::Input => EPOLLIN | EPOLLRDHUP | EPOLLONESHOT,
        Interest::Room => EPOLLOUT | EPOLLONESHOT,
        Interest::Nothing => EPOLLONESHOT,
    }
}

impl Readiness {
    /// None are waited for. An error is the system's.
    pub(crate) fn new<N: Net>(net: &N) -> io::Result<Readiness> {
        Ok(Readiness {
            set: Poll::new(net)?,
        })
    }

    fn ask(&self, how: i32, descriptor: i32, events: u32, number: u64) -> bool {
        epoll_ctl(self.set.as_raw_fd(), how, descriptor, events, number) == 0
    }

    /// Waits for this descriptor too from now on, and tells of it once, by this number. Whether the system
    /// does: not where it is waited for already, is of a file, or is closed, nor where memory is wanting.
    pub fn add(&self, descriptor: i32, interest: Interest, number: u64) -> bool {
        self.ask(EPOLL_CTL_ADD, descriptor, events_of(interest), number)
    }

    /// The same, where everyone who waits is told, as often as he waits.
    pub(crate) fn add_for_all(&self, descriptor: i32, number: u64) -> bool {
        self.ask(EPOLL_CTL_ADD, descriptor, EPOLLIN, number)
    }

    /// Waits anew for a descriptor that was added, now for this, and tells of it once, by this number.
    /// Whether the system does: not where it was never added, or is closed.
    pub fn again(&self, descriptor: i32, interest: Interest, number: u64) -> bool {
        self.ask(EPOLL_CTL_MOD, descriptor, events_of(interest), number)
    }

    /// Waits until a descriptor is ready, for so many milliseconds: its number. None where none is by then,
    /// or a signal came.
    pub(crate) fn wait(&self, millis: i32) -> Option<u64> {
        let mut events = [EpollEvent { events: 0, data: 0 }; 1];
        match epoll_wait(self.set.as_raw_fd(), &mut events, millis) {
            0 => None,
            _ => Some(events[0].data),
        }
    }
}

impl AsRawFd for Readiness {
    fn as_raw_fd(&self) -> i32 {
        self.set.as_raw_fd()
    }
}
