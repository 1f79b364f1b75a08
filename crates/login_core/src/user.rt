//! A user's line.
ghost use Rattle.std.specs.Prelude.{◌≡◌, IfOk, MatchOption};
ghost use Rattle.login_core.specs.Decoding.{LacksByte};
ghost use Rattle.login_core.specs.Verifiers.{user_line, verifier_text, IsNoUser};

use crate::decoding::cut;
use crate::reading::read_verifier;
use crate::verifier::Verifier;
use std::alloc::{AllocError, Global};

/// A name, and what a server keeps of its user.
#[derive(Drop)]
pub(crate) struct UserLine<'a> {
    /// The name, which has no colon.
    pub name: &'a [u8],
    /// What is kept of the user.
    pub verifier: Verifier,
}

/// The name and the verifier of a line `ann:SCRAM-SHA-256$4096:<salt>$<StoredKey>:<ServerKey>`. None comes
/// exactly where it is no such line. The name is all before the first colon, and may be empty: whether it
/// is a name of a user is the caller's to see.
///
/// The error is `AllocError`: there was no memory for what is decoded.
pub(crate) fn read_user(alloc: Global, line: &[u8]) -> Result<Option<UserLine<'_>>, AllocError>
    ensures { IfOk result (λ o. MatchOption o (IsNoUser line.now)
        (λ u. (line.now ≡ user_line u.name.now (verifier_text u.verifier.salt.items
        u.verifier.iterations u.verifier.stored_key u.verifier.server_key))
        × LacksByte 58 u.name.now)) }
{
    let Some((name, behind)) = cut(line, b':') else {
        return Ok(None);
    };
    let Some(verifier) = read_verifier(alloc, behind)? else {
        return Ok(None);
    };
    Ok(Some(UserLine { name, verifier }))
}
