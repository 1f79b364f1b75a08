//! How a session begins.
ghost use Rattle.std.specs.Prelude.{◌≡◌, [], None, IfSome};
ghost use Rattle.wire_core.specs.Entering.{EntersBy, LogsInBy, WelcomesBy, behind_entry, behind_start, entry_items, start_items};

use crate::client::Client;
use base_core::{Name, Sequence, User};
use entry_core::{Entry, FirstStep, LastStep, begin_login, end_login, entry_of, user_named};
use login_core::{DIGEST_BYTES, Users};
use messages_core::{ClientMessage, StartMessage};
use sending_core::{Few, Plain, Problem};
use session_core::Admission;
use std::alloc::Global;

/// The bytes, for a message that has them.
fn few_bytes(alloc: Global, bytes: &[u8]) -> Option<Few<u8>>
    ensures { IfSome result (λ few. few ≡ bytes.now) }
{
    let Ok(copy) = [bytes].concat(alloc) else {
        return None;
    };
    Few::new(Sequence::from_vec(copy))
}

impl Client {
    /// Takes what it sends first.
    pub(crate) fn start(&mut self, admission: &Admission, start: StartMessage<'_>)
        requires { self.old.sending.items ≡ [] }
        ensures items { self.new.sending.items ≡ start_items admission.now start.entry }
        ensures state { self.new.state ≡ behind_start admission.now start.entry self.old.state }
    {
        match start {
            StartMessage::SslRequest | StartMessage::GssEncRequest => {
                self.conversation.send(Plain::NoEncryption);
            }
            StartMessage::CancelRequest { .. } => self.conversation.close(),
            StartMessage::Startup(parameters) => {
                self.enter(entry_of(admission, user_named(&parameters)));
            }
        }
    }

    fn enter(&mut self, entry: Entry)
        requires { self.old.sending.items ≡ [] }
        ensures items { self.new.sending.items ≡ entry_items entry }
        ensures state { self.new.state ≡ behind_entry entry self.old.state }
    {
        match entry {
            Entry::Welcome(user) => {
                self.user = Some(user);
                self.conversation.send(Plain::Welcome);
            }
            Entry::Login(name) => {
                self.claimed = Some(name);
                self.conversation.send(Plain::LoginWanted);
            }
            Entry::Refused => self.conversation.end(Problem::NoUser),
        }
    }

    /// Takes a message while it has to log in as the user of this name.
    pub(crate) fn log_in(
        &mut self,
        alloc: Global,
        admission: &Admission,
        name: Name,
        message: ClientMessage<'_>,
    )
        requires { self.old.sending.items ≡ [] }
        ensures { EntersBy admission.now name self.old.state message.entry self.new.sending.items
            self.new.state }
    {
        let body = match message {
            ClientMessage::Password(body) => body,
            ClientMessage::Terminate => {
                self.conversation.close();
                return;
            }
            _ => {
                self.conversation.end(Problem::NotExpected);
                return;
            }
        };
        match admission {
            Admission::Login { file, secret, own } => {
                self.log_in_by(alloc, &file.users, secret, own, name, body.as_slice());
            }
            _ => self.conversation.end(Problem::NotExpected),
        }
    }

    /// Takes a message of the login.
    fn log_in_by(
        &mut self,
        alloc: Global,
        users: &Users,
        secret: &[u8; DIGEST_BYTES],
        own: &[u8],
        name: Name,
        body: &[u8],
    )
        requires { self.old.sending.items ≡ [] }
        ensures { LogsInBy users.now secret.now own.now name body.now self.old.state
            self.new.sending.items self.new.state }
    {
        let step = match &self.begun {
            None => return self.begin(alloc, users, secret, own, name, body),
            Some(begun) => end_login(alloc, users, begun, body),
        };
        match step {
            LastStep::LoggedIn { user, answer } => self.welcome(user, answer),
            LastStep::Refused => self.conversation.end(Problem::RefusedLogin),
            LastStep::Unread => self.conversation.end(Problem::NoMemory),
        }
    }

    /// Takes the first message of the login.
    fn begin(
        &mut self,
        alloc: Global,
        users: &Users,
        secret: &[u8; DIGEST_BYTES],
        own: &[u8],
        name: Name,
        body: &[u8],
    )
        requires none { self.old.state.begun ≡ None }
        requires free { self.old.sending.items ≡ [] }
        ensures { LogsInBy users.now secret.now own.now name body.now self.old.state
            self.new.sending.items self.new.state }
    {
        let begun = match begin_login(alloc, users, secret, own, name, body) {
            FirstStep::Challenged(begun) => begun,
            FirstStep::Refused => return self.conversation.end(Problem::RefusedLogin),
            FirstStep::Unread => return self.conversation.end(Problem::NoMemory),
        };
        let Some(challenge) = few_bytes(alloc, begun.server_first()) else {
            return self.conversation.end(Problem::NoMemory);
        };
        self.conversation.send(Plain::Challenge(challenge));
        self.begun = Some(begun);
    }

    /// Welcomes the user with the answer to his last message, if there is one that can be sent.
    fn welcome(&mut self, user: User, answer: Vec<u8>)
        requires { self.old.sending.items ≡ [] }
        ensures { WelcomesBy user answer.items self.old.state self.new.sending.items self.new.state }
    {
        let Some(answer) = Few::new(Sequence::from_vec(answer)) else {
            return self.conversation.end(Problem::NoMemory);
        };
        self.user = Some(user);
        self.conversation.send(Plain::Signature(answer));
        self.conversation.send(Plain::Welcome);
    }
}
