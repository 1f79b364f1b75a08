//! Who has come in.

use crate::connection::Connection;
use crate::instance::Instance;
use crate::owing::Owing;
use crate::parked_session::ParkedSession;
use door_core::{Interest, Readiness};
use journal_core::Keeper;
use libc::net::SHUT_RDWR;
use session_core::Summary;
use std::time::Instant;

/// How far a guest is.
#[derive(Drop)]
pub(crate) enum Stage<K: Keeper + Drop, I: Instance<K>> {
    /// His session goes on, behind these bytes that he has sent and nobody has answered yet.
    Speaking(ParkedSession<K, I>, Vec<u8>),
    /// His session has ended so, and this is still to be written.
    Hearing(Owing<K, I>, Summary),
    /// His login was refused, and he is told so once his time is over.
    Refused,
    /// He was told all, and may read it until his time is over.
    Leaving,
}

/// Who has come in, and waits for his client.
#[derive(Drop)]
pub(crate) struct Guest<K: Keeper + Drop, I: Instance<K>> {
    pub connection: Connection,
    pub stage: Stage<K, I>,
}

impl<K: Keeper + Drop, I: Instance<K>> Guest<K, I> {
    /// What he waits for.
    pub(crate) fn interest(&self) -> Interest {
        match &self.stage {
            Stage::Refused => Interest::Nothing,
            Stage::Hearing(..) => Interest::Room,
            Stage::Speaking(session, left) if session.is_owing() || !left.is_empty() => {
                Interest::Room
            }
            _ if self.connection.unsent.is_empty() => Interest::Input,
            _ => Interest::Room,
        }
    }

    /// Has him go on under this number, if his time is over: there is room in his stream, or it is cut.
    /// Whether his time runs at all.
    pub(crate) fn watch_time(&self, readiness: &Readiness, number: u64, now: Instant) -> bool {
        let Some(until) = self.connection.until else {
            return false;
        };
        if now < until {
            return true;
        }
        self.connection.is_late.set(true);
        let descriptor = self.connection.descriptor();
        match self.interest() {
            Interest::Room => {
                let _ = libc::net::shutdown(descriptor, SHUT_RDWR);
            }
            Interest::Input | Interest::Nothing => {
                let _ = readiness.again(descriptor, Interest::Room, number);
            }
        }
        true
    }
}
