//! What a client sends, message by message.
ghost use Rattle.std.specs.Prelude.{◌≡◌, [], false, None, Some, IfSome, MatchOption};
ghost use Rattle.session_core.specs.Gains.{Gains};
ghost use Rattle.session_core.specs.Parking.{GainsFor};
ghost use Rattle.session_core.specs.declared.admission.Admission.{Admission as Admitted};
ghost use Rattle.wire_core.specs.Running.{IsEntered, IsHeard, IsUnheard, StandsBefore};

use crate::client::{Client, MOST_BODY_BYTES, MOST_LOGIN_BYTES};
use base_core::{Name, User};
use conversation_core::Lent;
use desk_core::Pass;
use journal_core::Keeper;
use lexer_core::Token;
use messages_core::{Reading, read_message, read_start};
use sending_core::Problem;
use session_core::{Admission, Witness};
use std::alloc::Global;
use std::sync::Wait;

impl Client {
    /// Takes the message that stands first in what has come, through the pass, where nothing is still to be sent.
    /// How many bytes stand behind it. None where only a front of one has come. What is no message ends the
    /// session, and nothing stands behind that.
    pub(crate) fn hear<K: Keeper + Drop, R: Wait, G: Witness>(
        &mut self,
        lent: &Lent<'_, K, R, G>,
        pass: &mut Pass<K>,
        tokens: &mut Vec<Token>,
        admission: &Admission,
        came: &[u8],
    ) -> Option<usize>
        requires pass { pass.old.lock ≡ Some lent.now.desk.now }
        requires open { self.old.state.talk.over ≡ false }
        requires free { self.old.sending.items ≡ [] }
        ensures heard { MatchOption result
            (IsUnheard self.old came.now self.new × (pass.new ≡ pass.old))
            (λ rest. IsHeard lent.now.desk.now admission.now self.old pass.old came.now rest
            self.new pass.new) }
        ensures first { IfSome result (StandsBefore self.old.state came.now) }
        ensures gained { GainsFor self.new.state.user pass.old pass.new }
    {
        match (self.user, self.claimed) {
            (Some(user), _) => self.hear_user(lent, pass, tokens, user, came),
            (None, Some(name)) => self.hear_login(lent.alloc, admission, name, came),
            (None, None) => self.hear_start(admission, came),
        }
    }

    /// The same of a client that has not begun.
    fn hear_start(&mut self, admission: &Admission, came: &[u8]) -> Option<usize>
        requires open { self.old.state.talk.over ≡ false }
        requires free { self.old.sending.items ≡ [] }
        requires user { self.old.state.user ≡ None }
        requires claimed { self.old.state.claimed ≡ None }
        ensures heard { MatchOption result (IsUnheard self.old came.now self.new)
            (λ rest. IsEntered admission.now self.old came.now rest self.new) }
        ensures first { IfSome result (StandsBefore self.old.state came.now) }
    {
        match read_start(came, MOST_LOGIN_BYTES) {
            Reading::Whole { message, rest } => {
                self.start(admission, message);
                Some(rest.as_slice().len())
            }
            Reading::Part => None,
            Reading::Faulty(_) => {
                self.conversation.end(Problem::BadMessage);
                Some(0)
            }
        }
    }

    /// The same of one that has to log in as the user of this name.
    fn hear_login(
        &mut self,
        alloc: Global,
        admission: &Admission,
        name: Name,
        came: &[u8],
    ) -> Option<usize>
        requires open { self.old.state.talk.over ≡ false }
        requires free { self.old.sending.items ≡ [] }
        requires user { self.old.state.user ≡ None }
        requires claimed { self.old.state.claimed ≡ Some name }
        ensures heard { MatchOption result (IsUnheard self.old came.now self.new)
            (λ rest. IsEntered admission.now self.old came.now rest self.new) }
        ensures first { IfSome result (StandsBefore self.old.state came.now) }
    {
        match read_message(came, MOST_LOGIN_BYTES) {
            Reading::Whole { message, rest } => {
                let rest = rest.as_slice().len();
                self.log_in(alloc, admission, name, message);
                Some(rest)
            }
            Reading::Part => None,
            Reading::Faulty(_) => {
                self.conversation.end(Problem::BadMessage);
                Some(0)
            }
        }
    }

    /// The same of one whose user is welcome.
    fn hear_user<K: Keeper + Drop, R: Wait, G: Witness>(
        &mut self,
        lent: &Lent<'_, K, R, G>,
        pass: &mut Pass<K>,
        tokens: &mut Vec<Token>,
        user: User,
        came: &[u8],
    ) -> Option<usize>
        requires pass { pass.old.lock ≡ Some lent.now.desk.now }
        requires open { self.old.state.talk.over ≡ false }
        requires free { self.old.sending.items ≡ [] }
        requires user { self.old.state.user ≡ Some user }
        ensures heard { (admission : Admitted) → MatchOption result
            (IsUnheard self.old came.now self.new × (pass.new ≡ pass.old))
            (λ rest. IsHeard lent.now.desk.now admission self.old pass.old came.now rest
            self.new pass.new) }
        ensures first { IfSome result (StandsBefore self.old.state came.now) }
        ensures user { self.new.state.user ≡ Some user }
        ensures gained { Gains user pass.old pass.new }
    {
        match read_message(came, MOST_BODY_BYTES) {
            Reading::Whole { message, rest } => {
                let rest = rest.as_slice().len();
                self.conversation.answer(lent, pass, tokens, user, message);
                Some(rest)
            }
            Reading::Part => None,
            Reading::Faulty(_) => {
                self.conversation.end(Problem::BadMessage);
                Some(0)
            }
        }
    }
}
