//! The end of standard input, noticed by a thread of its own.
use std::alloc::Global;
use std::io::{Read, Stdin};
use std::net::Net;
use std::os::unix::net::UnixStream;
use std::thread;
use std::thread::Threads;

/// Reads to the end of standard input. What stands there is nothing to a server. A fault is an end too.
fn read_to_end(input: Stdin) {
    let mut input = input;
    let mut bytes = [0; 1024];
    for _ in 0..u64::MAX {
        match input.read(&mut bytes) {
            Ok(0) | Err(_) => return,
            Ok(_) => {}
        }
    }
}

/// A stream that ends once standard input has, and from which no call waits. None where there is none to be had, or no memory for a
/// thread, which the process leaves behind when it ends.
pub fn ends_with<R: Threads, N: Net>(
    rt: &R,
    net: &N,
    alloc: Global,
    input: Stdin,
) -> Option<UnixStream> {
    let (near, far) = UnixStream::pair(net).ok()?;
    near.set_nonblocking(true).ok()?;
    let reads = move || {
        read_to_end(input);
        drop(far);
    };
    let thread = thread::spawn(rt, reads).ok()?;
    drop(thread);
    Some(near)
}
