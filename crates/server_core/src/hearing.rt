//! What a client has sent.

use lines_core::Steady;
use std::io::{ErrorKind, Read};
use std::net::TcpStream;

/// What a client has sent.
pub(crate) enum Heard {
    /// So many bytes.
    Piece(usize),
    /// Nothing more comes.
    End,
    /// Nothing by now.
    Nothing,
    Failed,
}

/// Reads what a client has sent, to the front of the input.
pub(crate) fn hear(stream: &TcpStream, input: &mut [u8]) -> Heard {
    match Steady::new(stream).read(input) {
        Ok(0) => Heard::End,
        Ok(read) => Heard::Piece(read),
        Err(error) if error.kind() == ErrorKind::WouldBlock => Heard::Nothing,
        Err(_) => Heard::Failed,
    }
}
