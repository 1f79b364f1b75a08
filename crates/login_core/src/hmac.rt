//! HMAC over SHA-256.
ghost use Rattle.std.specs.Prelude.{◌≡◌, ◌≤◌, length};
ghost use Rattle.login_core.specs.Hmac.{filled_up, exclusive_or_each, hmac};

use crate::digest::DIGEST_BYTES;
use sha2::{Digest, Sha256};

/// `B`: the bytes of a block of SHA-256.
const BLOCK_BYTES: usize = 64;

/// `ipad`, a byte of it.
const INNER: u8 = 0x36;

/// `opad`, a byte of it.
const OUTER: u8 = 0x5c;

/// The key filled up with zeros to a block, and each byte of it exclusive-or this one.
fn pad(key: &[u8], byte: u8) -> [u8; BLOCK_BYTES]
    requires { length key.now ≤ BLOCK_BYTES }
    ensures { result ≡ exclusive_or_each byte (filled_up key.now) }
{
    let mut block = [byte; BLOCK_BYTES];
    for i in 0..key.len() {
        block[i] = key[i] ^ byte;
    }
    block
}

/// HMAC by a key that fits in a block.
fn hmac_by_short(key: &[u8], text: &[u8]) -> [u8; DIGEST_BYTES]
    requires { length key.now ≤ BLOCK_BYTES }
    ensures { result ≡ hmac key.now text.now }
{
    let mut inner = Sha256::new();
    inner.update(&pad(key, INNER));
    inner.update(text);
    let mut outer = Sha256::new();
    outer.update(&pad(key, OUTER));
    outer.update(&inner.finalize());
    outer.finalize()
}

/// HMAC-SHA-256 of a text by a key (RFC 2104, section 2). Key and text may have any length: of a key
/// above 64 bytes the digest is taken in its place. It asks for no memory, and has no error.
pub fn hmac_sha_256(key: &[u8], text: &[u8]) -> [u8; DIGEST_BYTES]
    ensures { result ≡ hmac key.now text.now }
{
    if key.len() <= BLOCK_BYTES {
        return hmac_by_short(key, text);
    }
    hmac_by_short(&Sha256::digest(key), text)
}
