//! A message of a user, answered.
ghost use Rattle.std.specs.Prelude.{◌≡◌, ◌≤◌, [], Some, length};
ghost use Rattle.messages_core.specs.Client.{body_of};
ghost use Rattle.session_core.specs.Gains.{Gains};
ghost use Rattle.conversation_core.specs.Messages.{Answers, ComesTo, ends_skipping, is_passed_over};
ghost use Rattle.conversation_core.specs.State.{Adds};

use crate::conversation::Conversation;
use crate::lent::Lent;
use base_core::User;
use desk_core::Pass;
use journal_core::Keeper;
use lexer_core::Token;
use messages_core::{ClientMessage, Target};
use sending_core::Problem;
use session_core::Witness;
use std::sync::Wait;

/// Whether the message is heard where others are passed over.
fn ends_skipping(message: &ClientMessage<'_>) -> bool
    ensures { result ≡ ends_skipping message.now }
{
    match message {
        ClientMessage::Sync => true,
        ClientMessage::Terminate => true,
        _ => false,
    }
}

impl Conversation {
    /// Whether the message is passed over.
    fn passes_over(&self, message: &ClientMessage<'_>) -> bool
        ensures { result ≡ is_passed_over self.now.state message.now }
    {
        self.is_skipping && !ends_skipping(message)
    }

    /// Answers a message that is not passed over.
    fn hear<K: Keeper + Drop, R: Wait, G: Witness>(
        &mut self,
        lent: &Lent<'_, K, R, G>,
        pass: &mut Pass<K>,
        tokens: &mut Vec<Token>,
        user: User,
        message: ClientMessage<'_>,
    )
        requires pass { pass.old.lock ≡ Some lent.now.desk.now }
        requires free { self.old.sending.items ≡ [] }
        requires short { length (body_of message) ≤ 65536 }
        ensures adds { Adds self.old self.new (λ answer new. Answers
            lent.now.desk.now user self.old.state pass.old message.entry answer new pass.new) }
        ensures gained { Gains user pass.old pass.new }
    {
        match message {
            ClientMessage::Query(text) => self.query(lent, pass, tokens, user, text.as_slice()),
            ClientMessage::Parse(parse) => self.parse(lent, pass, tokens, user, &parse),
            ClientMessage::Bind(bind) => self.bind(lent.alloc, &bind),
            ClientMessage::Describe { target, name } => match target {
                Target::Portal => self.describe_portal(lent, pass, tokens, user, name.as_slice()),
                Target::Statement => {
                    self.describe_statement(lent, pass, tokens, user, name.as_slice());
                }
            },
            ClientMessage::Execute { portal, most } => {
                self.execute(lent, pass, tokens, user, portal.as_slice(), most);
            }
            ClientMessage::Close { target, name } => match target {
                Target::Portal => self.close_portal(name.as_slice()),
                Target::Statement => self.close_statement(name.as_slice()),
            },
            ClientMessage::Flush => {}
            ClientMessage::Sync => self.sync(),
            ClientMessage::Terminate => self.close(),
            ClientMessage::Password(_) => self.end(Problem::NotExpected),
        }
    }

    /// Answers a message of the user, through the pass, where nothing is still to be sent: what is to be sent
    /// for it waits then. What the vector of tokens has before and behind the call means nothing.
    pub fn answer<K: Keeper + Drop, R: Wait, G: Witness>(
        &mut self,
        lent: &Lent<'_, K, R, G>,
        pass: &mut Pass<K>,
        tokens: &mut Vec<Token>,
        user: User,
        message: ClientMessage<'_>,
    )
        requires pass { pass.old.lock ≡ Some lent.now.desk.now }
        requires free { self.old.sending.items ≡ [] }
        requires short { length (body_of message) ≤ 65536 }
        ensures comes { ComesTo lent.now.desk.now user self.old.state pass.old message.entry
            self.new.sending.items self.new.state pass.new }
        ensures gained { Gains user pass.old pass.new }
    {
        if self.passes_over(&message) {
            return;
        }
        self.hear(lent, pass, tokens, user, message);
    }
}
