//! What the threads of a server share, beside the desk.
ghost use Rattle.std.specs.Prelude.{◌≡◌, IfOk};

use crate::bell::Bell;
use crate::counters::Counters;
use crate::idle::Idle;
use crate::instance::Instance;
use crate::permits::Permits;
use crate::sessions::Sessions;
use crate::sign::Sign;
use crate::syncing::Syncing;
use base_core::{Moment, NoMemory};
use door_core::{Entrance, Manners};
use journal_core::Keeper;
use libc::net::{SHUT_RD, SHUT_RDWR};
use std::alloc::Global;
use std::sync::Wait;
use std::time::{Clock, Instant};

/// What the threads of a server share, beside the desk: where clients come in, the sign that none is
/// taken, the sessions that wait for their clients, the permits to run, what is counted, how far the journal
/// is durable, and how sessions are treated.
#[derive(Drop)]
pub struct Service<'a, K: Keeper + Drop, I: Instance<K>> {
    pub entrance: &'a Entrance,
    pub sign: Sign,
    pub(crate) sessions: Sessions<K, I>,
    pub permits: Permits,
    pub counters: Counters,
    /// Wakes the checkpointer.
    pub bell: Bell,
    pub(crate) syncing: Syncing<K, I>,
    pub(crate) idle: Idle,
    pub manners: Manners,
}

impl<'a, K: Keeper + Drop, I: Instance<K>> Service<'a, K, I> {
    /// What workers share on so many processors, from this moment on, with this one who makes durable what
    /// clients are told. `NoMemory` where a request for
    /// memory was refused.
    pub fn new(
        alloc: Global,
        entrance: &'a Entrance,
        processors: usize,
        syncer: I::Syncer,
        manners: Manners,
        moment: Moment,
    ) -> Result<Service<'a, K, I>, NoMemory>
        ensures { IfOk result (λ service. service.entrance.now ≡ entrance.now) }
    {
        let sessions = Sessions::new(alloc)?;
        let counters = Counters::new(alloc, moment)?;
        Ok(Service {
            entrance,
            sign: Sign::new(),
            sessions,
            permits: Permits::new(processors),
            counters,
            bell: Bell::new(),
            syncing: Syncing::new(syncer),
            idle: Idle::new(),
            manners,
        })
    }

    /// Until when a session waits for its client, if it waits from now on.
    pub(crate) fn idle_until<R: Clock>(&self, rt: &R) -> Option<Instant> {
        let idle = self.manners.idle?;
        Instant::now(rt).ok()?.checked_add(idle)
    }

    /// Whether as many sessions are open as there may be.
    pub(crate) fn is_full(&self) -> bool {
        match self.manners.max_sessions {
            Some(most) => self.sessions.open() >= most,
            None => false,
        }
    }

    /// Whether no session is open, and none will be.
    pub(crate) fn is_done(&self) -> bool {
        self.sign.is_closed() && self.sessions.open() == 0
    }

    /// No further session is taken.
    pub(crate) fn close(&self) {
        self.sign.close(self.entrance);
        if self.is_done() {
            self.entrance.ring();
        }
    }

    /// A client has gone. Behind the last one all workers are told.
    pub(crate) fn let_go(&self) {
        if self.sessions.end() == 0 && self.is_done() {
            self.entrance.ring();
        }
    }

    /// No further session is taken, and those that are open have no more input than they were sent by now.
    pub(crate) fn stop<R: Wait>(&self, rt: &R) {
        self.sign.stop();
        self.close();
        self.sessions.shut_all(rt, SHUT_RD);
    }

    /// Ends the connection of each session that waits for its client, at once.
    pub(crate) fn cut<R: Wait>(&self, rt: &R) {
        self.sign.cut();
        self.sessions.shut_all(rt, SHUT_RDWR);
    }

    /// A client could not be let in, and is to be let in later.
    pub(crate) fn ask_later(&self) {
        self.sign.ask_later();
        self.entrance.alarm().need();
    }

    /// A worker has left. Who watches over the sessions is told.
    pub(crate) fn go(&self) {
        self.sign.go();
        self.entrance.alarm().ring();
    }

    /// Has each session go on whose time is over, and lets in who could not be before. Whether anybody's
    /// time runs.
    pub(crate) fn watch_time<R: Wait + Clock>(&self, rt: &R) -> bool {
        let is_owed = self.sign.was_owed();
        if is_owed {
            self.entrance.ask_again();
        }
        match Instant::now(rt) {
            Ok(now) => self.sessions.watch_time(rt, self.entrance.readiness(), now) || is_owed,
            Err(_) => is_owed,
        }
    }
}
