//! What a line of a session comes to before its user is welcome.
ghost use Rattle.std.specs.Prelude.{◌≡◌, ◌++◌, ℕ, List, codes, IfOk, MatchOption};
ghost use Rattle.login_core.specs.Login.{LogsIn, Refuses};
ghost use Rattle.session_core.specs.Admission.{Receives, ReceivesName, ReceivesKnown, ReceivesOpening, ReceivesLast};

use crate::admission::Admission;
use crate::greeting::greeting;
use base_core::User;
use lexer_core::Code;
use login_core::{Beginning, DIGEST_BYTES, Users};
use std::alloc::{AllocError, Global};

//// The bytes that a message of a login has at most.
const LONGEST_MESSAGE: usize = 1024;

/// What a line of a session comes to before its user is welcome.
#[derive(Drop)]
pub enum Reception {
    /// The session is this user's. This answer comes before his welcome.
    Welcomed { user: User, answer: Vec<u8> },
    /// It begins this login.
    Challenged(Beginning),
    /// It names no user, or begins no login.
    Faulty { code: Code, offset: usize },
    /// It proves nothing.
    Refused,
    /// There was no memory to look at it.
    Unread,
}

/// What a line comes to that is none of those that are taken.
const NOT_EXPECTED: Reception = Reception::Faulty {
    code: Code::Expected,
    offset: 0,
};

/// What a line comes to that has to name a user.
fn named(alloc: Global, line: &[u8]) -> Reception
    ensures { ReceivesName line.now result }
{
    match greeting(line) {
        Ok(user) => Reception::Welcomed {
            user,
            answer: Vec::new(alloc),
        },
        Err((code, offset)) => Reception::Faulty { code, offset },
    }
}

/// What a line comes to that has to name this user.
fn known(alloc: Global, user: User, line: &[u8]) -> Reception
    ensures { ReceivesKnown user line.now result }
{
    match greeting(line) {
        Ok(named) if named == user => Reception::Welcomed {
            user,
            answer: Vec::new(alloc),
        },
        Ok(_) => NOT_EXPECTED,
        Err((code, offset)) => Reception::Faulty { code, offset },
    }
}

/// The answer to the last message of a login, with a line feed. None where it proves nothing.
fn proved(
    alloc: Global,
    users: &Users,
    begun: &Beginning,
    line: &[u8],
) -> Result<Option<Vec<u8>>, AllocError>
    ensures { IfOk result (λ o. MatchOption o (Refuses users.now begun.now line.now)
        (λ answer. (signed : List ℕ) × LogsIn users.now begun.now line.now signed
        × (answer.items ≡ signed ++ codes "\n"))) }
{
    let Some(mut answer) = begun.answer(alloc, users, line)? else {
        return Ok(None);
    };
    answer.push(b'\n')?;
    Ok(Some(answer))
}

/// What a line comes to that has to be the last message of a login.
fn logged_in(alloc: Global, users: &Users, begun: &Beginning, line: &[u8]) -> Reception
    ensures { ReceivesLast users.now begun.now line.now result }
{
    if line.len() > LONGEST_MESSAGE {
        return Reception::Refused;
    }
    match proved(alloc, users, begun, line) {
        Ok(Some(answer)) => Reception::Welcomed {
            user: User(begun.user()),
            answer,
        },
        Ok(None) => Reception::Refused,
        Err(AllocError) => Reception::Unread,
    }
}

/// What a line comes to that has to begin a login.
fn challenged(
    alloc: Global,
    users: &Users,
    secret: &[u8; DIGEST_BYTES],
    own: &[u8],
    line: &[u8],
) -> Reception
    ensures { ReceivesOpening users.now secret.now own.now line.now result }
{
    if line.len() > LONGEST_MESSAGE {
        return NOT_EXPECTED;
    }
    match Beginning::read(alloc, users, secret, own, line) {
        Ok(Some(begun)) => Reception::Challenged(begun),
        Ok(None) => NOT_EXPECTED,
        Err(AllocError) => Reception::Unread,
    }
}

/// What a line comes to before the user of a session is welcome who is admitted so and has begun
/// this login, if he has.
pub(crate) fn received(
    alloc: Global,
    admission: &Admission,
    begun: &Option<Beginning>,
    line: &[u8],
) -> Reception
    ensures { Receives admission.now begun.now line.now result }
{
    match admission {
        Admission::Anyone => named(alloc, line),
        Admission::Known(user) => known(alloc, *user, line),
        Admission::Login { file, secret, own } => match begun {
            Some(begun) => logged_in(alloc, &file.users, begun, line),
            None => challenged(alloc, &file.users, secret, own, line),
        },
    }
}
