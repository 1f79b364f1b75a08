//! How a thread waits for what comes at descriptors.

use libc::net::POLLIN;
use libc::types::pollfd;

/// What asks whether something comes at the descriptor. A negative one is none.
fn asked(descriptor: i32) -> pollfd {
    pollfd {
        fd: descriptor,
        events: POLLIN,
        revents: 0,
    }
}

/// Waits until something comes at one of the descriptors, for so many milliseconds at most, or without
/// a limit where these are negative. A negative descriptor is none. A signal may end it before, and so
/// does a descriptor that is closed.
pub fn wait_for_any(descriptors: [i32; 3], millis: i32) {
    let [first, second, third] = descriptors;
    let mut waited = [asked(first), asked(second), asked(third)];
    let _ = libc::net::poll(&mut waited, millis);
}
