//! What is read from base64 and decimal.
ghost use Rattle.std.specs.Prelude.{◌≡◌, ◌<◌, IfOk, decimal, MatchOption};
ghost use Rattle.login_core.specs.Decoding.{GivesBytes, GivesNoBytes, GivesNoDigest, IsNoCount, Splits, LacksByte};

use crate::digest::DIGEST_BYTES;
use base64::DecodeAllocError;
use base64::engine::general_purpose::STANDARD;
use itoa::Buffer;
use memchr::memchr;
use std::alloc::{AllocError, Global};

/// The digest that a text gives in base64 (RFC 4648, section 4), if it gives one.
pub(crate) fn given_digest(
    alloc: Global,
    text: &[u8],
) -> Result<Option<[u8; DIGEST_BYTES]>, AllocError>
    ensures { IfOk result (λ o. MatchOption o (GivesNoDigest text.now) (GivesBytes text.now)) }
{
    let given = match STANDARD.decode(alloc, text) {
        Ok(given) => given,
        Err(DecodeAllocError::OutOfMemory) => return Err(AllocError),
        Err(_) => return Ok(None),
    };
    if given.len() != DIGEST_BYTES {
        return Ok(None);
    }
    let mut digest = [0; DIGEST_BYTES];
    digest.copy_from_slice(given.as_slice());
    Ok(Some(digest))
}

/// The bytes that a text gives in base64 (RFC 4648, section 4), if it gives any.
pub(crate) fn given_bytes(alloc: Global, text: &[u8]) -> Result<Option<Vec<u8>>, AllocError>
    ensures { IfOk result (λ o. MatchOption o (GivesNoBytes text.now)
        (λ v. GivesBytes text.now v.items)) }
{
    match STANDARD.decode(alloc, text) {
        Ok(given) => Ok(Some(given)),
        Err(DecodeAllocError::OutOfMemory) => Err(AllocError),
        Err(_) => Ok(None),
    }
}

/// The positive number that a text gives in decimal, as it is printed.
pub(crate) fn given_count(text: &[u8]) -> Option<u32>
    ensures { MatchOption result (IsNoCount text.now) (λ n. (text.now ≡ decimal n) × (0 < n)) }
{
    let Ok(digits) = str::from_utf8(text) else {
        return None;
    };
    let Ok(count) = digits.parse::<u32>() else {
        return None;
    };
    if count == 0 {
        return None;
    }
    let mut printed = Buffer::new();
    if printed.format(count).as_bytes() != text {
        return None;
    }
    Some(count)
}

/// What stands before the first such byte, and what stands behind it.
pub(crate) fn cut(text: &[u8], byte: u8) -> Option<(&[u8], &[u8])>
    ensures { MatchOption result (LacksByte byte text.now)
        (λ p. Splits byte text.now p.0.now p.1.now) }
{
    let end = memchr(byte, text)?;
    let (front, from_byte) = text.split_at(end);
    let (_, behind) = from_byte.split_at(1);
    Some((front, behind))
}
