//! A verifier, read from a text.
ghost use Rattle.std.specs.Prelude.{◌≡◌, IfOk, MatchOption};
ghost use Rattle.base64.specs.GeneralPurpose.{IsBytes};
ghost use Rattle.login_core.specs.Decoding.{IsDigest};
ghost use Rattle.login_core.specs.Verifiers.{keys_text, salted_text, verifier_text, IsNoKeys, IsNoSalted, IsNoVerifier};

use crate::decoding::{cut, given_bytes, given_count, given_digest};
use crate::digest::DIGEST_BYTES;
use crate::verifier::Verifier;
use std::alloc::{AllocError, Global};

/// A stored key and a server key.
#[derive(Clone, Copy, Drop)]
struct Keys {
    stored: [u8; DIGEST_BYTES],
    server: [u8; DIGEST_BYTES],
    ghost digests: { IsDigest stored × IsDigest server },
}

/// A salt, and the keys behind it.
#[derive(Drop)]
struct Salted {
    salt: Vec<u8>,
    keys: Keys,
    ghost salted: { IsBytes salt.items },
}

/// The two keys of a text.
fn read_keys(alloc: Global, text: &[u8]) -> Result<Option<Keys>, AllocError>
    ensures { IfOk result (λ o. MatchOption o (IsNoKeys text.now)
        (λ k. text.now ≡ keys_text k.stored k.server)) }
{
    let Some((front, behind)) = cut(text, b':') else {
        return Ok(None);
    };
    let Some(stored) = given_digest(alloc, front)? else {
        return Ok(None);
    };
    let Some(server) = given_digest(alloc, behind)? else {
        return Ok(None);
    };
    Ok(Some(Keys { stored, server }))
}

/// The salt of a text, and its keys.
fn read_salted(alloc: Global, text: &[u8]) -> Result<Option<Salted>, AllocError>
    ensures { IfOk result (λ o. MatchOption o (IsNoSalted text.now)
        (λ s. text.now ≡ salted_text s.salt.items s.keys.stored s.keys.server)) }
{
    let Some((front, behind)) = cut(text, b'$') else {
        return Ok(None);
    };
    let Some(salt) = given_bytes(alloc, front)? else {
        return Ok(None);
    };
    let Some(keys) = read_keys(alloc, behind)? else {
        return Ok(None);
    };
    Ok(Some(Salted { salt, keys }))
}

/// The verifier that the text is of, as PostgreSQL writes it (see [`crate::verifier_text`]). None comes
/// exactly where it is the text of no verifier: so a count with a zero before it is not taken, nor base64
/// that is not the canonical one.
///
/// The error is `AllocError`: there was no memory for what is decoded.
pub(crate) fn read_verifier(alloc: Global, text: &[u8]) -> Result<Option<Verifier>, AllocError>
    ensures { IfOk result (λ o. MatchOption o (IsNoVerifier text.now)
        (λ v. text.now ≡ verifier_text v.salt.items v.iterations v.stored_key v.server_key)) }
{
    let Some(counted) = text.strip_prefix(b"SCRAM-SHA-256$") else {
        return Ok(None);
    };
    let Some((front, behind)) = cut(counted, b':') else {
        return Ok(None);
    };
    let Some(iterations) = given_count(front) else {
        return Ok(None);
    };
    let Some(Salted { salt, keys }) = read_salted(alloc, behind)? else {
        return Ok(None);
    };
    let Keys { stored, server } = keys;
    Ok(Some(Verifier {
        salt,
        iterations,
        stored_key: stored,
        server_key: server,
    }))
}
