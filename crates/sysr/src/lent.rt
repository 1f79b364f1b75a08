//! Listeners that a supervisor has opened.
ghost use Rattle.std.specs.Prelude.{pos, ◌≤ℤ◌};

use os::FromRawFd;
use std::net::TcpListener;
use std::os::fd::OwnedFd;
use std::os::unix::net::UnixListener;
use std::{env, fs};

// The first descriptor that a supervisor hands on.
const FIRST: i32 = 3;

// This process, as the system names it.
const SELF: &str = "/proc/self";

/// Listeners: at a port, at one for PostgreSQL's clients, and at a socket file. A supervisor opens
/// none at the second.
#[derive(Drop)]
pub struct Listeners {
    pub port: Option<TcpListener>,
    pub pg_port: Option<TcpListener>,
    pub file: Option<UnixListener>,
}

/// Whether the variable names this process.
fn is_for_this_process(rt: &HostRuntime) -> bool {
    let (Ok(wanted), Ok(process)) = (env::var(rt, "LISTEN_PID"), fs::read_link(rt, SELF)) else {
        return false;
    };
    process.to_str() == Some(wanted.as_str())
}

/// How many listeners were handed on to this process.
fn count_of(rt: &HostRuntime) -> u32 {
    let Ok(count) = env::var(rt, "LISTEN_FDS") else {
        return 0;
    };
    if !is_for_this_process(rt) {
        return 0;
    }
    count.as_str().parse::<u32>().unwrap_or(0)
}

impl Listeners {
    /// Takes the listener of this descriptor, which is of a port if it has an address of one.
    fn take(&mut self, descriptor: i32)
        requires { pos 0 ≤ℤ descriptor }
    {
        let listener = unsafe { TcpListener::from_raw_fd(descriptor) };
        if listener.local_addr().is_ok() {
            self.port = Some(listener);
        } else {
            self.file = Some(UnixListener::from(OwnedFd::from(listener)));
        }
    }
}

/// The listeners that a supervisor has opened for this process, by `LISTEN_FDS`: two at most. None,
/// where there are none.
pub fn lent_listeners(rt: &HostRuntime) -> Option<Listeners> {
    let mut lent = Listeners {
        port: None,
        pg_port: None,
        file: None,
    };
    match count_of(rt) {
        0 => return None,
        1 => lent.take(FIRST),
        _ => {
            lent.take(FIRST);
            lent.take(FIRST + 1);
        }
    }
    Some(lent)
}
