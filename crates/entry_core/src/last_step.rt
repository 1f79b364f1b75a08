//! What a client's last message in a login comes to.
ghost use Rattle.entry_core.specs.Steps.{IsLastStep};

use base_core::User;
use login_core::{Beginning, Users};
use std::alloc::{AllocError, Global};

/// What a client's last message in a login comes to.
#[derive(Drop)]
pub enum LastStep {
    /// It proves the client to be this user. The server's last message is the answer.
    LoggedIn { user: User, answer: Vec<u8> },
    /// It proves nothing.
    Refused,
    /// There was no memory to look at it.
    Unread,
}

/// What a client's last message in this login comes to. The body is `client-final-message` (RFC 5802, section
/// 7) and no more.
///
/// It is `Unread` where there was no memory to look at the message, and says nothing of it then.
pub fn end_login(alloc: Global, users: &Users, begun: &Beginning, body: &[u8]) -> LastStep
    ensures { IsLastStep users.now begun.now body.now result }
{
    match begun.answer(alloc, users, body) {
        Ok(Some(answer)) => LastStep::LoggedIn {
            user: User(begun.user()),
            answer,
        },
        Ok(None) => LastStep::Refused,
        Err(AllocError) => LastStep::Unread,
    }
}
