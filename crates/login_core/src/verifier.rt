//! What a server keeps of a user.
ghost use Rattle.std.specs.Prelude.{◌<◌, ◌^◌};
ghost use Rattle.base64.specs.GeneralPurpose.{IsBytes};
ghost use Rattle.login_core.specs.Decoding.{IsDigest};

use crate::digest::DIGEST_BYTES;

/// What a server keeps of a user (RFC 5802, section 2.1, "authentication information"): enough to check a
/// proof, and too little to make one.
#[derive(Drop)]
pub struct Verifier {
    /// The salt that was hashed with the password.
    pub salt: Vec<u8>,
    /// How many iterations there were.
    pub iterations: u32,
    /// `StoredKey`: the digest of the client's key.
    pub stored_key: [u8; DIGEST_BYTES],
    /// `ServerKey`: what the server signs with.
    pub server_key: [u8; DIGEST_BYTES],
    ghost salted: { IsBytes salt.items },
    ghost iterated: { (0 < iterations) × (iterations < 2 ^ 32) },
    ghost stored: { IsDigest stored_key },
    ghost served: { IsDigest server_key },
}
