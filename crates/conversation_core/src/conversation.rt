//! How a session of messages stands once its user is welcome.
ghost use Rattle.std.specs.Prelude.{◌≡◌, ◌≢◌, ◌↔◌, ◌<◌, [], false, true, length, IfOk, IsTrue, MatchResult, OnErr, OnOk};
ghost use Rattle.base_core.specs.Streams.{Writes, WritesFrontOf};
ghost use Rattle.sending_core.specs.Owing.{count_owed, IsOwed, SendsPart};
ghost use Rattle.conversation_core.specs.State.{unspoken};

use crate::portals::Bound;
use crate::statements::NamedStatement;
use answer_core::Portal;
use base_core::{Broken, Gate, Moment, Sink};
use messages_core::Status;
use reply_core::ReplyBuffer;
use sending_core::Sending;
use std::alloc::{AllocError, Global};
use std::marker::Model;

/// How a session stands once its user is welcome, and what it has still to send. The rows that a portal has
/// left stand in `lefts`, at its place.
#[derive(Drop)]
pub struct Conversation {
    pub(crate) block: Status,
    pub(crate) is_skipping: bool,
    pub(crate) statements: Vec<NamedStatement>,
    pub(crate) portals: Vec<Option<Bound>>,
    pub(crate) lefts: Vec<Option<Portal>>,
    pub(crate) answered: u64,
    pub(crate) moment: Option<Moment>,
    pub(crate) is_over: bool,
    pub(crate) is_unkept: bool,
    pub(crate) sending: Sending,
}

impl Model for Conversation {
    ghost use Rattle.std.specs.Prelude.{◌≡◌, ◌≤◌, length};
    ghost use Rattle.sending_core.specs.Queue.{capacity};
    ghost use Rattle.conversation_core.specs.State.{Conversing};

    ghost Value = { Conversing };

    ghost view = { λ c. record {
      state = record {
        block = c.block;
        skipping = c.is_skipping;
        statements = c.statements.items;
        portals = c.portals.items;
        lefts = c.lefts.items;
        answered = c.answered;
        moment = c.moment;
        over = c.is_over;
        unkept = c.is_unkept;
      };
      sending = c.sending;
    } };

    ghost invariant = { λ c. (length c.portals.items ≡ length c.lefts.items)
        × (2 ≤ capacity c.sending) };
}

/// The items for which a session has always room: an error, and that it is ready.
const LEAST_ROOM: usize = 2;

impl Conversation {
    /// A session that has said nothing. The error is `AllocError`: there was no memory for it.
    pub fn new(alloc: Global) -> Result<Conversation, AllocError>
        ensures state { IfOk result (λ c. c.state ≡ unspoken) }
        ensures sending { IfOk result (λ c. c.sending.items ≡ []) }
    {
        let mut sending = Sending::new(alloc);
        sending.reserve(LEAST_ROOM)?;
        Ok(Conversation {
            block: Status::Idle,
            is_skipping: false,
            statements: Vec::new(alloc),
            portals: Vec::new(alloc),
            lefts: Vec::new(alloc),
            answered: 0,
            moment: None,
            is_over: false,
            is_unkept: false,
            sending,
        })
    }

    /// Whether it is over.
    pub fn is_over(&self) -> bool
        ensures { result ≡ self.now.state.over }
    {
        self.is_over
    }

    /// Whether a reply was withheld.
    pub fn is_unkept(&self) -> bool
        ensures { result ≡ self.now.state.unkept }
    {
        self.is_unkept
    }

    /// How many statements were answered, as far as 64 bits count.
    pub fn answered(&self) -> u64
        ensures { result ≡ self.now.state.answered }
    {
        self.answered
    }

    /// The moment of the last reply that bore one.
    pub fn moment(&self) -> Option<Moment>
        ensures { result ≡ self.now.state.moment }
    {
        self.moment
    }

    /// Whether something is still to be sent.
    pub fn is_owing(&self) -> bool
        ensures { IsTrue result ↔ (self.now.sending.items ≢ []) }
    {
        !self.sending.is_empty()
    }

    /// Writes some of what is to be sent, as [`Sending::go_on`] does. Rows that a portal has left then stand at
    /// its place.
    pub fn go_on<W: Sink, G: Gate>(
        &mut self,
        buffer: &mut ReplyBuffer,
        writer: &mut W,
        gate: &G,
    ) -> Result<(), Broken>
        requires { W.failed writer.old ≡ false }
        ensures failed { MatchResult result (λ _. W.failed writer.new ≡ false)
            (λ _. W.failed writer.new ≡ true) }
        ensures ok { OnOk result (Writes
            (SendsPart self.old.sending.items self.old.state.lefts
            self.new.sending.items self.new.state.lefts)
            (W.taken writer.old) (W.taken writer.new)) }
        ensures progress { OnOk result (0 < length self.old.sending.items
            → count_owed self.new.sending.items < count_owed self.old.sending.items) }
        ensures state { self.new.state
            ≡ record (self.old.state) { lefts = self.new.state.lefts } }
        ensures err { OnErr result (WritesFrontOf
            (IsOwed self.old.sending.items self.old.state.lefts)
            (W.taken writer.old) (W.taken writer.new)) }
    {
        self.sending
            .go_on(self.lefts.as_mut_slice(), buffer, writer, gate)
    }
}
