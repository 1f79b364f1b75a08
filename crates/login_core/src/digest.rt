//! The bytes of keys, signatures and proofs.
ghost use Rattle.std.specs.Prelude.{◌≡◌};
ghost use Rattle.login_core.specs.Pbkdf2.{exclusive_or};

/// The bytes of a digest of SHA-256, and so of each key, signature and proof.
pub const DIGEST_BYTES: usize = 32;

/// The two digests, byte by byte, by exclusive-or (`XOR` of RFC 5802, section 2.2).
pub(crate) fn exclusive_or(
    first: &[u8; DIGEST_BYTES],
    second: &[u8; DIGEST_BYTES],
) -> [u8; DIGEST_BYTES]
    ensures { result ≡ exclusive_or first.now second.now }
{
    let mut both = [0; DIGEST_BYTES];
    for i in 0..DIGEST_BYTES {
        both[i] = first[i] ^ second[i];
    }
    both
}
