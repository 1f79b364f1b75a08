//! A session of messages between two pieces of what its client sends.
ghost use Rattle.std.specs.Prelude.{◌≡◌, ◌≤◌, ◌<◌, [], false, length, take, Some};
ghost use Rattle.session_core.specs.Parking.{GainsFor};
ghost use Rattle.wire_core.specs.State.{IsFront};
ghost use Rattle.wire_core.specs.Coming.{IsFed};

use crate::client::Client;
use base_core::{Broken, Gate, Sink, User};
use conversation_core::Lent;
use desk_core::{Desk, Note, Pass};
use journal_core::Keeper;
use lexer_core::Token;
use login_core::Beginning;
use session_core::{
    Admission, Scratch, SessionFault, SessionMachine, Summary, Witness, end_of, meet,
};
use std::alloc::{AllocError, Global};
use std::marker::Model;
use std::mem;
use std::sync::Wait;

/// The bytes that a client may send in all.
const MOST_BYTES: u64 = 4_294_967_296;

/// What lies between two pieces of a session of messages: the front of a message, how far the client has
/// come and what it is still to be sent, and a note of what the pass had seen that it went through last. Any
/// worker can go on with it, through a pass that meets the note.
#[derive(Drop)]
pub struct WireSession<K: Keeper + Drop> {
    kept: Vec<u8>,
    unread: u64,
    client: Client,
    note: Option<Note<K>>,
}

impl<K: Keeper + Drop> Model for WireSession<K> {
    ghost use Rattle.wire_core.specs.State.{IsFront, WireState};

    ghost Value = { WireState K };

    ghost view = { λ w. record {
      kept = w.kept.items;
      unread = w.unread;
      client = w.client.state;
      sending = w.client.sending;
      note = w.note;
    } };

    ghost invariant = { λ w. IsFront w.client.state w.kept.items };
}

impl<K: Keeper + Drop> WireSession<K> {
    /// Takes what stands first in this piece, behind what is kept, through the pass; where that is only a
    /// front of a message it is kept. How many bytes of the piece it took.
    fn take<R: Wait, G: Witness>(
        &mut self,
        lent: &Lent<'_, K, R, G>,
        pass: &mut Pass<K>,
        tokens: &mut Vec<Token>,
        admission: &Admission,
        piece: &[u8],
    ) -> usize
        requires pass { pass.old.lock ≡ Some lent.now.desk.now }
        requires free { self.old.sending.items ≡ [] }
        ensures took { result ≤ length piece.now }
        ensures some { 0 < length piece.now → 0 < result }
        ensures unread { self.new.unread ≡ self.old.unread }
        ensures gained { GainsFor self.new.client.user pass.old pass.new }
        ensures fed { IsFed lent.now.desk.now admission.now self.old pass.old
            (take result piece.now) self.new pass.new }
        ensures front { IsFront self.new.client self.new.kept }
    {
        if self.client.is_over() {
            return piece.len();
        }
        if self.kept.is_empty() {
            return self.take_first(lent, pass, tokens, admission, piece);
        }
        let mut came = mem::replace(&mut self.kept, Vec::new(lent.alloc));
        let Ok(()) = came.extend_from_slice(piece) else {
            self.client.run_out();
            return piece.len();
        };
        match self
            .client
            .hear(lent, pass, tokens, admission, came.as_slice())
        {
            Some(rest) => piece.len() - rest,
            None => {
                self.kept = came;
                piece.len()
            }
        }
    }

    /// The same where nothing is kept.
    fn take_first<R: Wait, G: Witness>(
        &mut self,
        lent: &Lent<'_, K, R, G>,
        pass: &mut Pass<K>,
        tokens: &mut Vec<Token>,
        admission: &Admission,
        piece: &[u8],
    ) -> usize
        requires pass { pass.old.lock ≡ Some lent.now.desk.now }
        requires free { self.old.sending.items ≡ [] }
        requires open { self.old.client.talk.over ≡ false }
        requires kept { self.old.kept ≡ [] }
        ensures took { result ≤ length piece.now }
        ensures some { 0 < length piece.now → 0 < result }
        ensures unread { self.new.unread ≡ self.old.unread }
        ensures gained { GainsFor self.new.client.user pass.old pass.new }
        ensures fed { IsFed lent.now.desk.now admission.now self.old pass.old
            (take result piece.now) self.new pass.new }
        ensures front { IsFront self.new.client self.new.kept }
    {
        if let Some(rest) = self.client.hear(lent, pass, tokens, admission, piece) {
            return piece.len() - rest;
        }
        let Ok(()) = self.kept.extend_from_slice(piece) else {
            self.client.run_out();
            return piece.len();
        };
        piece.len()
    }
}

impl<K: Keeper + Drop> SessionMachine<K> for WireSession<K> {
    ghost use Rattle.entry_core.specs.Right.{HasEnteredAs};
    ghost use Rattle.wire_core.specs.State.{wire_machine};
    ghost use Rattle.wire_core.specs.Coming.{HasAnswered, HasStopped, OwesMessages, SpeaksMessages};
    ghost use Rattle.wire_core.specs.Stopping.{HasAnswered-stops, HasAnswered-breaks, HasAnswered-unseen, HasStopped-unseen, HasStopped-spoken, OwesMessages-payable, OwesMessages-settled};
    ghost use Rattle.wire_core.specs.Rightful.{SpeaksMessages-rightful};

    ghost protocol = { SpeaksMessages };

    ghost right = { HasEnteredAs };

    ghost state = { wire_machine };

    ghost come = { HasAnswered };

    ghost ended = { HasStopped };

    ghost owes = { OwesMessages };

    fn new(alloc: Global) -> Result<WireSession<K>, AllocError> {
        let client = Client::new(alloc)?;
        Ok(WireSession {
            kept: Vec::new(alloc),
            unread: MOST_BYTES,
            client,
            note: None,
        })
    }

    fn unread(&self) -> u64 {
        self.unread
    }

    fn is_over(&self) -> bool {
        self.client.is_over()
    }

    fn user(&self) -> Option<User> {
        self.client.user
    }

    fn begun(&self) -> Option<&Beginning> {
        self.client.begun.as_ref()
    }

    fn is_owing(&self) -> bool {
        self.client.is_owing()
    }

    fn feed<'x, R: Wait, W: Sink, G: Witness>(
        &mut self,
        rt: &'x R,
        alloc: Global,
        desk: &'x Desk<K>,
        pass: &'x mut Pass<K>,
        admission: &'x Admission,
        scratch: &'x mut Scratch,
        writer: &mut W,
        gate: &'x G,
        piece: &[u8],
    ) -> Result<usize, Broken> {
        meet(desk, &mut *pass, self.note.take());
        let lent = Lent {
            rt,
            alloc,
            desk,
            gate,
        };
        let taken = self.take(&lent, pass, &mut scratch.tokens, admission, piece);
        self.unread -= taken as u64;
        self.note = Some(desk.note(pass));
        Ok(taken)
    }

    fn go_on<W: Sink, G: Gate>(
        &mut self,
        scratch: &mut Scratch,
        writer: &mut W,
        gate: &G,
    ) -> Result<(), Broken> {
        if !self.client.is_owing() {
            return Ok(());
        }
        self.client.go_on(&mut scratch.buffer, writer, gate)
    }

    fn finish<'x, R: Wait, W: Sink, G: Witness>(
        &mut self,
        rt: &'x R,
        alloc: Global,
        desk: &'x Desk<K>,
        pass: &'x mut Pass<K>,
        admission: &'x Admission,
        scratch: &'x mut Scratch,
        writer: &mut W,
        gate: &'x G,
    ) -> Result<(), Broken> {
        meet(desk, &mut *pass, self.note.take());
        self.note = Some(desk.note(pass));
        Ok(())
    }

    fn summary(&self, served: Result<(), SessionFault>) -> Summary {
        let conversation = &self.client.conversation;
        Summary {
            user: self.client.user,
            lines: conversation.answered(),
            moment: conversation.moment(),
            ended: end_of(conversation.is_unkept(), served),
        }
    }

    ghost stops = { HasAnswered-stops };

    ghost payable = { OwesMessages-payable };

    ghost settled = { OwesMessages-settled };

    ghost breaks = { HasAnswered-breaks };

    ghost come_unseen = { HasAnswered-unseen };

    ghost ended_unseen = { HasStopped-unseen };

    ghost spoken = { HasStopped-spoken };

    ghost rightful = { SpeaksMessages-rightful };
}
