//! What a session has to send, added to, and how it stands then.
ghost use Rattle.std.specs.Prelude.{◌≡◌, ◌+◌, ◌<◌, ◌≤◌, ◌++◌, [], ◌∷◌, true, length, OnOk};
ghost use Rattle.sending_core.specs.Queue.{capacity};
ghost use Rattle.conversation_core.specs.State.{behind_error, behind_problem, ended, failed, noted, without_portals};
ghost use Rattle.conversation_core.specs.Telling.{error, fatal_error, plain};

use crate::conversation::Conversation;
use base_core::Moment;
use messages_core::{Severity, Status};
use sending_core::{Item, Plain, Problem, Sending};
use std::alloc::AllocError;

/// Has this sent behind all else, for which there is room.
fn push(sending: &mut Sending, item: Item)
    requires { 0 < sending.old.room }
    ensures items { sending.new.items ≡ sending.old.items ++ item ∷ [] }
    ensures room { sending.new.room + 1 ≡ sending.old.room }
{
    let _ = sending.push(item);
}

/// How a block stands behind an error.
fn failed(block: Status) -> Status
    ensures { result ≡ failed block }
{
    match block {
        Status::Idle => Status::Idle,
        _ => Status::InFailedTransaction,
    }
}

impl Conversation {
    /// Makes room for so many items more. The error is `AllocError`: memory was refused, which is only
    /// asked for if there is not so much room.
    pub(crate) fn reserve(&mut self, n: usize) -> Result<(), AllocError>
        ensures ok { OnOk result (n ≤ self.new.sending.room) }
        ensures room { self.old.sending.room ≤ self.new.sending.room }
        ensures items { self.new.sending.items ≡ self.old.sending.items }
        ensures state { self.new.state ≡ self.old.state }
    {
        self.sending.reserve(n)
    }

    /// Has this sent behind all else, for which there is room.
    pub(crate) fn add(&mut self, item: Item)
        requires { 0 < self.old.sending.room }
        ensures items { self.new.sending.items ≡ self.old.sending.items ++ item ∷ [] }
        ensures room { self.new.sending.room + 1 ≡ self.old.sending.room }
        ensures capacity { capacity self.new.sending ≡ capacity self.old.sending }
        ensures state { self.new.state ≡ self.old.state }
    {
        push(&mut self.sending, item);
    }

    /// Has this message sent. At most one may wait before it.
    pub fn send(&mut self, message: Plain)
        requires { length self.old.sending.items < 2 }
        ensures items { self.new.sending.items ≡ self.old.sending.items ++ plain message }
        ensures capacity { capacity self.new.sending ≡ capacity self.old.sending }
        ensures least { 2 ≤ capacity self.new.sending }
        ensures state { self.new.state ≡ self.old.state }
    {
        push(&mut self.sending, Item::Plain(message));
    }

    /// The session is over.
    pub fn close(&mut self)
        ensures sending { self.new.sending ≡ self.old.sending }
        ensures state { self.new.state ≡ ended self.old.state }
    {
        self.is_over = true;
    }

    /// Tells an error that ends the session. At most one message may wait before it.
    pub fn end(&mut self, problem: Problem)
        requires { length self.old.sending.items < 2 }
        ensures items { self.new.sending.items ≡ self.old.sending.items ++ fatal_error problem }
        ensures capacity { capacity self.new.sending ≡ capacity self.old.sending }
        ensures state { self.new.state ≡ ended self.old.state }
    {
        self.send(Plain::Error {
            severity: Severity::Fatal,
            problem,
        });
        self.close();
    }

    /// Tells an error, for which there is room.
    pub(crate) fn tell(&mut self, problem: Problem)
        requires { 0 < self.old.sending.room }
        ensures items { self.new.sending.items ≡ self.old.sending.items ++ error problem }
        ensures room { self.new.sending.room + 1 ≡ self.old.sending.room }
        ensures capacity { capacity self.new.sending ≡ capacity self.old.sending }
        ensures state { self.new.state ≡ self.old.state }
    {
        self.add(Item::Plain(Plain::Error {
            severity: Severity::Error,
            problem,
        }));
    }

    /// A statement has failed, and with it the block that is open.
    pub(crate) fn fail(&mut self)
        ensures sending { self.new.sending ≡ self.old.sending }
        ensures state { self.new.state ≡ behind_error self.old.state }
    {
        self.block = failed(self.block);
    }

    /// What follows is passed over up to the next Sync, since a message has failed.
    pub(crate) fn skip(&mut self)
        ensures sending { self.new.sending ≡ self.old.sending }
        ensures state { self.new.state ≡ behind_problem self.old.state }
    {
        self.block = failed(self.block);
        self.is_skipping = true;
    }

    /// Tells an error of a message of the extended protocol: what follows is passed over. At most one message
    /// may wait before it.
    pub(crate) fn refuse(&mut self, problem: Problem)
        requires { length self.old.sending.items < 2 }
        ensures items { self.new.sending.items ≡ self.old.sending.items ++ error problem }
        ensures capacity { capacity self.new.sending ≡ capacity self.old.sending }
        ensures state { self.new.state ≡ behind_problem self.old.state }
    {
        self.send(Plain::Error {
            severity: Severity::Error,
            problem,
        });
        self.skip();
    }

    /// A statement more is answered, by a reply that bears this moment, if it bears one.
    pub(crate) fn note(&mut self, at: Option<Moment>)
        ensures sending { self.new.sending ≡ self.old.sending }
        ensures state { self.new.state ≡ noted at self.old.state }
    {
        self.answered = self.answered.saturating_add(1);
        if at.is_some() {
            self.moment = at;
        }
    }

    /// Closes all portals.
    pub(crate) fn close_portals(&mut self)
        ensures sending { self.new.sending ≡ self.old.sending }
        ensures state { self.new.state ≡ without_portals self.old.state }
    {
        self.portals.clear();
        self.lefts.clear();
    }
}
