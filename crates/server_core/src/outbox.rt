//! What a session's client is sent.
ghost use Rattle.std.specs.Prelude.{None};

use crate::instance::Instance;
use crate::syncing::Synced;
use journal_core::Keeper;
use lines_core::Steady;
use std::io::{Error, ErrorKind, Result, Write};
use std::net::TcpStream;

/// A writer that gathers what a client is sent. It fails where a request for memory was refused.
#[derive(Drop)]
pub(crate) struct Outbox<'a> {
    gathered: &'a mut Vec<u8>,
}

impl<'a> Outbox<'a> {
    pub(crate) fn new(gathered: &'a mut Vec<u8>) -> Outbox<'a> {
        Outbox { gathered }
    }
}

impl<'a> Write for Outbox<'a> {
    // Nothing is told of it.
    ghost contents = { λ _. None };

    fn write(&mut self, buf: &[u8]) -> Result<usize> {
        self.gathered.extend_from_slice(buf)?;
        Ok(buf.len())
    }

    fn flush(&mut self) -> Result<()> {
        Ok(())
    }
}

/// Sends as much of what was gathered as goes in at once, and takes that away.
pub(crate) fn send<K: Keeper + Drop, I: Instance<K>>(
    stream: &TcpStream,
    _synced: &Synced<K, I>,
    gathered: &mut Vec<u8>,
) -> Result<()> {
    send_on(stream, gathered)
}

/// The same of what was let through before.
pub(crate) fn send_on(stream: &TcpStream, waiting: &mut Vec<u8>) -> Result<()> {
    if waiting.is_empty() {
        return Ok(());
    }
    match Steady::new(stream).write(waiting.as_slice()) {
        Ok(0) => Err(Error::from(ErrorKind::WriteZero)),
        Ok(sent) => {
            drop_front(waiting, sent);
            Ok(())
        }
        Err(error) => match error.kind() {
            ErrorKind::WouldBlock => Ok(()),
            _ => Err(error),
        },
    }
}

/// Takes so many bytes away.
pub(crate) fn drop_front(bytes: &mut Vec<u8>, count: usize) {
    let count = count.min(bytes.len());
    let left = bytes.len() - count;
    bytes.as_mut_slice().copy_within(count.., 0);
    bytes.truncate(left);
}
