//! How far the client of a session has come.
ghost use Rattle.std.specs.Prelude.{◌≡◌, ◌≢◌, ◌↔◌, ◌<◌, [], false, true, length, IfOk, IsTrue, MatchResult, OnErr, OnOk};
ghost use Rattle.base_core.specs.Streams.{Writes, WritesFrontOf};
ghost use Rattle.sending_core.specs.Owing.{count_owed, IsOwed, SendsPart};
ghost use Rattle.sending_core.specs.declared.problem.Problem.TheVariants as problems;
ghost use Rattle.conversation_core.specs.Telling.{fatal_error};
ghost use Rattle.wire_core.specs.State.{gone, unknown, with_lefts};

use base_core::{Broken, Gate, Name, Sink, User};
use conversation_core::Conversation;
use login_core::Beginning;
use reply_core::ReplyBuffer;
use sending_core::Problem;
use std::alloc::{AllocError, Global};
use std::marker::Model;

/// The greatest number of bytes of a message's body before the client is welcome.
pub const MOST_LOGIN_BYTES: usize = 1_024;

/// The greatest number of bytes of a body then.
pub const MOST_BODY_BYTES: usize = 65_536;

/// How far a client has come: whom its start names, if it has to log in; the login that was begun; its user,
/// once he is welcome; and how the session stands with him, with what is still to be sent.
#[derive(Drop)]
pub struct Client {
    pub(crate) claimed: Option<Name>,
    pub(crate) begun: Option<Beginning>,
    pub(crate) user: Option<User>,
    pub(crate) conversation: Conversation,
}

impl Model for Client {
    ghost use Rattle.wire_core.specs.State.{ClientAndQueue};

    ghost Value = { ClientAndQueue };

    ghost view = { λ c. record {
      state = record {
        claimed = c.claimed;
        begun = c.begun;
        user = c.user;
        talk = c.conversation.state;
      };
      sending = c.conversation.sending;
    } };
}

impl Client {
    /// One of which nothing has come. The error is `AllocError`: there was no memory for it.
    pub(crate) fn new(alloc: Global) -> Result<Client, AllocError>
        ensures state { IfOk result (λ c. c.state ≡ unknown) }
        ensures sending { IfOk result (λ c. c.sending.items ≡ []) }
    {
        let conversation = Conversation::new(alloc)?;
        Ok(Client {
            claimed: None,
            begun: None,
            user: None,
            conversation,
        })
    }

    /// Whether its session is over.
    pub(crate) fn is_over(&self) -> bool
        ensures { result ≡ self.now.state.talk.over }
    {
        self.conversation.is_over()
    }

    /// Whether something is still to be sent.
    pub(crate) fn is_owing(&self) -> bool
        ensures { IsTrue result ↔ (self.now.sending.items ≢ []) }
    {
        self.conversation.is_owing()
    }

    /// Ends its session for want of memory, where nothing is still to be sent.
    pub(crate) fn run_out(&mut self)
        requires { self.old.sending.items ≡ [] }
        ensures items { self.new.sending.items ≡ fatal_error problems.NoMemory }
        ensures state { self.new.state ≡ gone self.old.state }
    {
        self.conversation.end(Problem::NoMemory);
    }

    /// Writes some of what is to be sent, as [`Conversation::go_on`] does.
    pub(crate) fn go_on<W: Sink, G: Gate>(
        &mut self,
        buffer: &mut ReplyBuffer,
        writer: &mut W,
        gate: &G,
    ) -> Result<(), Broken>
        requires { W.failed writer.old ≡ false }
        ensures failed { MatchResult result (λ _. W.failed writer.new ≡ false)
            (λ _. W.failed writer.new ≡ true) }
        ensures ok { OnOk result (Writes
            (SendsPart self.old.sending.items self.old.state.talk.lefts
            self.new.sending.items self.new.state.talk.lefts)
            (W.taken writer.old) (W.taken writer.new)) }
        ensures progress { OnOk result (0 < length self.old.sending.items
            → count_owed self.new.sending.items < count_owed self.old.sending.items) }
        ensures state { self.new.state ≡ with_lefts self.new.state.talk.lefts self.old.state }
        ensures err { OnErr result (WritesFrontOf
            (IsOwed self.old.sending.items self.old.state.talk.lefts)
            (W.taken writer.old) (W.taken writer.new)) }
    {
        self.conversation.go_on(buffer, writer, gate)
    }
}
