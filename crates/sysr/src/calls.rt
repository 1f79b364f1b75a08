//! What is asked at a control socket.

use crate::command::StatusForm;
use std::io::Read;
use std::os::unix::net::UnixStream;
use std::time::Duration;

// For how many seconds it waits for a word at most.
const PATIENCE_SECONDS: u64 = 1;

/// What is asked at a control socket.
#[derive(Clone, Copy, Debug, PartialEq, Eq)]
pub enum Call {
    /// That the server stops.
    Stop,
    /// How it fares, in this form.
    Status(StatusForm),
    /// That it reads its file of users anew.
    Reload,
    Unknown,
}

/// The line that asks for it.
pub fn line_of(call: Call) -> &'static [u8] {
    match call {
        Call::Stop => b"STOP\n",
        Call::Status(StatusForm::Text) => b"STATUS\n",
        Call::Status(StatusForm::Prometheus) => b"STATUS prometheus\n",
        Call::Status(StatusForm::Json) => b"STATUS json\n",
        Call::Reload => b"RELOAD\n",
        Call::Unknown => b"\n",
    }
}

// All that can be asked.
const KNOWN: [Call; 5] = [
    Call::Stop,
    Call::Status(StatusForm::Text),
    Call::Status(StatusForm::Prometheus),
    Call::Status(StatusForm::Json),
    Call::Reload,
];

fn call_of(line: &[u8]) -> Call {
    for call in KNOWN {
        if line == line_of(call) {
            return call;
        }
    }
    Call::Unknown
}

/// What is asked through the stream by one line. It waits for it for a second at most.
pub fn read_call(stream: &UnixStream) -> Call {
    let mut stream = stream;
    let _ = stream.set_read_timeout(Some(Duration::from_secs(PATIENCE_SECONDS)));
    let mut line = [0; 32];
    match stream.read(&mut line) {
        Ok(read) => call_of(line.get(..read).unwrap_or(&[])),
        Err(_) => Call::Unknown,
    }
}
