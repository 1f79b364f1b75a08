//! What a client's first message in a login comes to.
ghost use Rattle.std.specs.Prelude.{◌≡◌, IfOk, MatchOption};
ghost use Rattle.entry_core.specs.Steps.{IsFirstStep, IsNoScram, OpensLogin, OpensNoLogin, SaysScram, login_line};

use base_core::Name;
use login_core::{Beginning, DIGEST_BYTES, Users};
use messages_core::InitialResponse;
use std::alloc::{AllocError, Global};

/// What a client's first message in a login comes to.
#[derive(Drop)]
pub enum FirstStep {
    /// It begins this login, whose `server_first` is the answer.
    Challenged(Beginning),
    /// It begins none.
    Refused,
    /// There was no memory to look at it.
    Unread,
}

/// The client's first message by the mechanism that is offered. None comes exactly where the body has none.
fn scram_message(body: &[u8]) -> Option<&[u8]>
    ensures { MatchOption result (IsNoScram body.now) (λ first. SaysScram body.now first.now) }
{
    let InitialResponse {
        mechanism,
        response,
    } = InitialResponse::read(body)?;
    if mechanism.as_slice() != b"SCRAM-SHA-256".as_slice() {
        return None;
    }
    let response = response?;
    Some(response.as_slice())
}

/// The line by which a session of lines begins such a login.
fn login_line(alloc: Global, user: &[u8], first: &[u8]) -> Result<Vec<u8>, AllocError>
    ensures { IfOk result (λ line. line.items ≡ login_line user.now first.now) }
{
    [b"LOGIN ".as_slice(), user, b" ", first].concat(alloc)
}

/// The login that a client's first message begins, if it begins one.
fn begun_by(
    alloc: Global,
    users: &Users,
    secret: &[u8; DIGEST_BYTES],
    own: &[u8],
    user: Name,
    first: &[u8],
) -> Result<Option<Beginning>, AllocError>
    ensures { IfOk result (λ o. MatchOption o
        (OpensNoLogin users.now secret.now own.now user first.now)
        (λ begun. OpensLogin users.now secret.now own.now user first.now begun
        × (begun.user ≡ user))) }
{
    let line = login_line(alloc, user.as_bytes(), first)?;
    let begun = Beginning::read(alloc, users, secret, own, line.as_slice())?;
    Ok(begun)
}

/// What a client's first message in the login of this user comes to. Its body has to have the mechanism
/// SCRAM-SHA-256 and `client-first-message` (RFC 5802, section 7). The server's nonce is `own`: new bytes in
/// each session, of printable ASCII without a comma. Who is no user is challenged like others (see
/// [`Beginning::read`]).
///
/// It is `Unread` where there was no memory for the login, and then it says no more of the message than that the
/// body has one.
pub fn begin_login(
    alloc: Global,
    users: &Users,
    secret: &[u8; DIGEST_BYTES],
    own: &[u8],
    user: Name,
    body: &[u8],
) -> FirstStep
    ensures { IsFirstStep users.now secret.now own.now user body.now result }
{
    let Some(first) = scram_message(body) else {
        return FirstStep::Refused;
    };
    match begun_by(alloc, users, secret, own, user, first) {
        Ok(Some(begun)) => FirstStep::Challenged(begun),
        Ok(None) => FirstStep::Refused,
        Err(AllocError) => FirstStep::Unread,
    }
}
