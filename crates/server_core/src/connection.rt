//! The connection of a client.
ghost use Rattle.std.specs.Prelude.{◌≡◌, []};

use crate::instance::Instance;
use crate::outbox::{send, send_on};
use crate::syncing::Synced;
use door_core::Client;
use journal_core::Keeper;
use std::alloc::Global;
use std::cell::Cell;
use std::net::{Shutdown, TcpStream};
use std::os::fd::AsRawFd;
use std::time::Instant;

/// The connection of a client: what may be sent to him and his stream has not taken yet, and until when
/// it waits for him.
#[derive(Drop)]
pub(crate) struct Connection {
    pub stream: TcpStream,
    pub client: Client,
    pub unsent: Vec<u8>,
    /// None: it waits for ever.
    pub until: Option<Instant>,
    /// Whether its time was over.
    pub is_late: Cell<bool>,
    /// Whether its descriptor is waited for already.
    pub is_known: bool,
    /// Whether the client was told that nothing more is sent.
    pub is_shut: bool,
}

impl Connection {
    /// One over which nothing was sent.
    pub(crate) fn new(alloc: Global, stream: TcpStream, client: Client) -> Connection {
        Connection {
            stream,
            client,
            unsent: Vec::new(alloc),
            until: None,
            is_late: Cell::new(false),
            is_known: false,
            is_shut: false,
        }
    }

    pub(crate) fn descriptor(&self) -> i32 {
        self.stream.as_raw_fd()
    }

    /// Sends what waits, as far as it goes in. Whether the connection stands.
    pub(crate) fn send(&mut self) -> bool {
        send_on(&self.stream, &mut self.unsent).is_ok()
    }

    /// Sends what was gathered, as far as it goes in behind what waits, and keeps the rest. Whether the
    /// connection stands, and there was memory for it.
    pub(crate) fn hand_on<K: Keeper + Drop, I: Instance<K>>(
        &mut self,
        synced: &Synced<K, I>,
        gathered: &mut Vec<u8>,
    ) -> bool
        ensures { gathered.new.items ≡ [] }
    {
        if self.unsent.is_empty() && send(&self.stream, synced, gathered).is_err() {
            // It is no other client's.
            gathered.clear();
            return false;
        }
        self.keep(synced, gathered)
    }

    /// Keeps what was gathered for later. Whether there was memory for it.
    pub(crate) fn keep<K: Keeper + Drop, I: Instance<K>>(
        &mut self,
        _synced: &Synced<K, I>,
        gathered: &mut Vec<u8>,
    ) -> bool
        ensures { gathered.new.items ≡ [] }
    {
        let kept = self.unsent.extend_from_slice(gathered.as_slice());
        gathered.clear();
        kept.is_ok()
    }

    /// Once all is sent, tells the client that nothing more is. To close a connection while bytes of the
    /// client are unread would reset it, and he would lose the last replies. Whether it stands.
    pub(crate) fn shut(&mut self) -> bool {
        if !self.is_shut && self.unsent.is_empty() {
            self.is_shut = true;
            return self.stream.shutdown(Shutdown::Write).is_ok();
        }
        true
    }
}
