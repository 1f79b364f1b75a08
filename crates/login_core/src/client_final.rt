//! The client's last message.
ghost use Rattle.std.specs.Prelude.{◌≡◌, ◌≢◌, ◌++◌, ◌↔◌, ℕ, List, IsTrue, IfOk, MatchOption, codes};
ghost use Rattle.login_core.specs.Scram.{auth_message};
ghost use Rattle.login_core.specs.ClientFinal.{without_proof, ProvesToBe};

use crate::decoding::given_digest;
use crate::digest::DIGEST_BYTES;
use crate::proof::proves;
use std::alloc::{AllocError, Global};

/// `client-final-message-without-proof` (RFC 5802, section 7): the channel binding and the nonce.
///
/// The error is `AllocError`: there was no memory for the text.
pub(crate) fn without_proof(
    alloc: Global,
    channel_binding: &[u8],
    nonce: &[u8],
) -> Result<Vec<u8>, AllocError>
    ensures { IfOk result (λ text. text.items ≡ without_proof channel_binding.now nonce.now) }
{
    [b"c=".as_slice(), channel_binding, b",r=", nonce].concat(alloc)
}

/// `AuthMessage` (RFC 5802, section 3): what a proof and a signature are of.
///
/// The error is `AllocError`: there was no memory for the text.
pub(crate) fn auth_message(
    alloc: Global,
    bare: &[u8],
    server_first: &[u8],
    without_proof: &[u8],
) -> Result<Vec<u8>, AllocError>
    ensures { IfOk result
        (λ text. text.items ≡ auth_message bare.now server_first.now without_proof.now) }
{
    [bare, b",", server_first, b",", without_proof].concat(alloc)
}

/// The proof in base64, behind this `client-final-message-without-proof`.
fn proof_text<'a>(front: &[u8], message: &'a [u8]) -> Option<&'a [u8]>
    ensures { MatchOption result
        ((text : List ℕ) → message.now ≢ front.now ++ codes ",p=" ++ text)
        (λ text. message.now ≡ front.now ++ codes ",p=" ++ text.now) }
{
    let behind = message.strip_prefix(front)?;
    behind.strip_prefix(b",p=")
}

/// Whether the message is the client's last one (RFC 5802, section 7) behind this
/// `client-final-message-without-proof`, with a proof of this `AuthMessage` by the holder of a key for which
/// the `StoredKey` stands. An extension is not taken, and the base64 has to be the canonical one.
///
/// The error is `AllocError`, and says nothing of the message: there was no memory to look at it.
pub(crate) fn proves_to_be(
    alloc: Global,
    stored: &[u8; DIGEST_BYTES],
    front: &[u8],
    said: &[u8],
    message: &[u8],
) -> Result<bool, AllocError>
    ensures { IfOk result
        (λ yes. IsTrue yes ↔ ProvesToBe stored.now front.now said.now message.now) }
{
    let Some(text) = proof_text(front, message) else {
        return Ok(false);
    };
    let Some(proof) = given_digest(alloc, text)? else {
        return Ok(false);
    };
    Ok(proves(stored, said, &proof))
}
