//! Who looks on at a session.

use crate::bell::Bell;
use crate::counters::Counters;
use crate::permit::Permit;
use base_core::{Gate, Moment, User};
use door_core::Log;
use reader_core::Statement;
use session_core::Witness;
use std::cell::Cell;
use std::sync::Wait;
use std::time::{Clock, Instant};
use system_core::Reply;

/// One who counts the statements and lines of a session, which does not run while it writes records,
/// and how long each waits for its turn and takes it; tells the log whom the desk denies what; and rings
/// the checkpointer's bell where a checkpoint begins.
#[derive(Drop)]
pub(crate) struct Counting<'a, R: Wait, G> {
    rt: &'a R,
    permit: &'a Permit<'a, R>,
    counters: &'a Counters,
    bell: &'a Bell,
    log: &'a G,
    number: u64,
    // When the last statement was read.
    since: Cell<Option<Instant>>,
}

impl<'a, R: Wait, G> Counting<'a, R, G> {
    /// Of the session of this number.
    pub(crate) fn new(
        rt: &'a R,
        permit: &'a Permit<'a, R>,
        counters: &'a Counters,
        bell: &'a Bell,
        log: &'a G,
        number: u64,
    ) -> Counting<'a, R, G> {
        Counting {
            rt,
            permit,
            counters,
            bell,
            log,
            number,
            since: Cell::new(None),
        }
    }
}

impl<'a, R: Wait + Clock, G: Log> Gate for Counting<'a, R, G> {
    fn before_record(&self, _given: u64) {
        self.permit.rest();
    }

    fn before_step(&self, _left: u64) {}

    fn answered(&self, _at: Option<Moment>) {
        self.permit.count_line();
    }
}

impl<'a, R: Wait + Clock, G: Log> Witness for Counting<'a, R, G> {
    fn said(&self, statement: &Statement) {
        self.counters.said(statement);
        self.since.set(Instant::now(self.rt).ok());
    }

    fn replied(&self, user: &User, reply: &Reply) {
        if let Some(since) = self.since.get()
            && let Ok(took) = since.elapsed(self.rt)
        {
            self.counters.took(took);
        }
        self.counters.replied(reply);
        match reply {
            Reply::Denied { .. } => self.log.denied(self.rt, self.number, user, reply),
            Reply::Begun { .. } => self.bell.ring(),
            _ => {}
        }
    }

    fn faulty(&self) {
        self.counters.faulty();
    }

    fn unread(&self) {
        self.counters.unread();
    }
}
