//! What comes of what a client has sent.
ghost use Rattle.std.specs.Prelude.{◌≡◌, [], Some};
ghost use Rattle.session_core.specs.Gains.{Watches};
ghost use Rattle.server_core.specs.Sessions.{IsOf};

use crate::connection::Connection;
use crate::guest::{Guest, Stage};
use crate::instance::Instance;
use crate::leaving::{dismiss, end_behind, refuse, stop, wait};
use crate::owing::Owing;
use crate::parked_session::ParkedSession;
use crate::room::Speech;
use crate::service::Service;
use crate::syncing::Synced;
use base_core::Name;
use desk_core::{Desk, Pass};
use door_core::Log;
use journal_core::Keeper;
use session_core::{SessionEnd, SessionFault, Summary};
use std::sync::Wait;
use std::time::Clock;

/// What comes of what a client has sent.
#[derive(Drop)]
pub(crate) enum Outcome<K: Keeper + Drop, I: Instance<K>> {
    /// His session goes on, behind these bytes. He may have sent more by now.
    GoesOn(ParkedSession<K, I>, Vec<u8>),
    /// It goes on, behind these bytes, once he sends or takes more, or others have had their turn.
    Waits(ParkedSession<K, I>, Vec<u8>),
    /// It has ended, once this is written, if anything is still to be.
    Ended(Summary, Option<Owing<K, I>>),
    /// It has ended as the server was stopped.
    Stopped(Summary),
    /// His login was refused, that of this user, if he has said who he is.
    Refused(Option<Name>),
    /// It was not whole in time.
    Late(Option<Name>),
}

impl<K: Keeper + Drop, I: Instance<K>> Outcome<K, I> {
    /// The same, but that a session waits which may have gone on at once.
    pub(crate) fn in_turn(self) -> Outcome<K, I> {
        match self {
            Outcome::GoesOn(session, left) => Outcome::Waits(session, left),
            outcome => outcome,
        }
    }

    /// The same, where the client may not be told, there was no memory for what he has not taken, or his
    /// connection is gone. This is then the end of the session, if it had no fault.
    pub(crate) fn unheard(self, end: SessionEnd) -> Outcome<K, I> {
        match self.in_turn() {
            Outcome::Waits(session, left) => {
                drop(left);
                let ended = Err(end);
                let summary = session.fails(SessionFault::Write);
                Outcome::Ended(Summary { ended, ..summary }, None)
            }
            Outcome::Ended(summary, owed) => {
                drop(owed);
                let ended = summary.ended.and(Err(end));
                Outcome::Ended(Summary { ended, ..summary }, None)
            }
            outcome => outcome,
        }
    }
}

/// A connection, and what comes of what its client has sent.
#[derive(Drop)]
pub(crate) struct Behind<K: Keeper + Drop, I: Instance<K>> {
    pub connection: Connection,
    pub outcome: Outcome<K, I>,
}

impl<K: Keeper + Drop, I: Instance<K>> Behind<K, I> {
    /// Hands on what was gathered for the client, if he may be told.
    pub(crate) fn hand_on(
        self,
        synced: Option<&Synced<K, I>>,
        gathered: &mut Vec<u8>,
        service: &Service<'_, K, I>,
    ) -> Behind<K, I>
        ensures { gathered.new.items ≡ [] }
    {
        let Behind {
            mut connection,
            outcome,
        } = self;
        let is_refused = matches!(outcome, Outcome::Refused(_));
        let is_told = match synced {
            Some(synced) if is_refused => {
                // What he is told waits. Without memory for it he is told nothing.
                let _ = connection.keep(synced, gathered);
                true
            }
            Some(synced) => connection.hand_on(synced, gathered),
            None => {
                gathered.clear();
                false
            }
        };
        let outcome = if !is_told {
            outcome.unheard(service.syncing.untold())
        } else if connection.unsent.is_empty() {
            outcome
        } else {
            outcome.in_turn()
        };
        Behind {
            connection,
            outcome,
        }
    }

    /// Hands on what was gathered for the client, and has him wait, or leave. He is given back where he may
    /// have sent more.
    pub(crate) fn tell<R: Wait + Clock, G: Log>(
        self,
        rt: &R,
        desk: &Desk<K>,
        pass: &mut Pass<K>,
        speech: &mut Speech,
        service: &Service<'_, K, I>,
        log: &G,
    ) -> Option<Guest<K, I>>
        requires desk { I.desk ≡ Some desk.now }
        requires pass { IsOf desk.now pass.old }
        ensures watched { Watches pass.old pass.new }
        ensures handed_on { speech.new.output.items ≡ [] }
    {
        let synced = service.syncing.sync_seen(rt, desk, pass).ok();
        let behind = self.hand_on(synced.as_ref(), &mut speech.output, service);
        behind.conclude(rt, desk, pass, speech, service, log)
    }

    /// Has the client wait, or leave. He is given back where he may have sent more.
    pub(crate) fn conclude<R: Wait + Clock, G: Log>(
        self,
        rt: &R,
        desk: &Desk<K>,
        pass: &mut Pass<K>,
        speech: &mut Speech,
        service: &Service<'_, K, I>,
        log: &G,
    ) -> Option<Guest<K, I>>
        requires desk { I.desk ≡ Some desk.now }
        requires pass { IsOf desk.now pass.old }
        requires nothing { speech.old.output.items ≡ [] }
        ensures watched { Watches pass.old pass.new }
        ensures handed_on { speech.new.output.items ≡ [] }
    {
        let Behind {
            mut connection,
            outcome,
        } = self;
        match outcome {
            Outcome::GoesOn(session, left) => {
                connection.is_late.set(false);
                let stage = Stage::Speaking(session, left);
                return Some(Guest { connection, stage });
            }
            Outcome::Waits(session, left) => wait(rt, connection, session, left, service, log),
            Outcome::Ended(summary, owed) => {
                end_behind(
                    rt, desk, pass, connection, owed, summary, speech, service, log,
                );
            }
            Outcome::Stopped(summary) => stop(rt, connection, summary, service, log),
            Outcome::Refused(claimed) => refuse(rt, connection, claimed, service, log),
            Outcome::Late(claimed) => dismiss(rt, connection, claimed, service, log),
        }
        None
    }
}
