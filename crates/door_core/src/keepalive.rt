//! How a client is noticed that is gone without a word.
ghost use Rattle.libc.specs.Net.{SockOption};

use std::net::TcpStream;
use std::os::fd::AsRawFd;

// The options and their levels, by the system's numbers.
const SOL_SOCKET: i32 = 1;

const SO_KEEPALIVE: i32 = 9;

const IPPROTO_TCP: i32 = 6;

const TCP_KEEPIDLE: i32 = 4;

const TCP_KEEPINTVL: i32 = 5;

const TCP_KEEPCNT: i32 = 6;

// A client that was silent for so many seconds is asked whether it is there, so often, and so many
// seconds apart.
const SILENT_SECONDS: i32 = 120;

const PROBES: i32 = 4;

const SECONDS_APART: i32 = 30;

/// Sets an option of the descriptor. One that refuses it stays as it is.
fn set(fd: i32, level: i32, name: i32, value: i32)
    requires { SockOption level name }
{
    let mut bytes = [0; 16];
    for (place, byte) in value.to_ne_bytes().iter().enumerate() {
        bytes[place] = *byte;
    }
    let _ = unsafe { libc::net::setsockopt(fd, level, name, &bytes, 4) };
}

/// Has the system ask a client that is silent whether it is there: after 120 seconds, and then every 30.
/// Where four such questions found no answer, what is read of it is a fault. A stream that refuses a
/// setting, as one of a socket file does, stays as it is.
pub fn keep_alive(stream: &TcpStream) {
    let fd = stream.as_raw_fd();
    set(fd, SOL_SOCKET, SO_KEEPALIVE, 1);
    set(fd, IPPROTO_TCP, TCP_KEEPIDLE, SILENT_SECONDS);
    set(fd, IPPROTO_TCP, TCP_KEEPINTVL, SECONDS_APART);
    set(fd, IPPROTO_TCP, TCP_KEEPCNT, PROBES);
}
