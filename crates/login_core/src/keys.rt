//! The keys that a salted password leads to, and what they sign.
ghost use Rattle.std.specs.Prelude.{◌≡◌};
ghost use Rattle.login_core.specs.Scram.{client_key, stored_key, server_key, server_signature};

use crate::digest::DIGEST_BYTES;
use crate::hmac::hmac_sha_256;
use sha2::{Digest, Sha256};

/// `ClientKey` of a salted password (RFC 5802, section 3).
pub(crate) fn client_key(salted: &[u8; DIGEST_BYTES]) -> [u8; DIGEST_BYTES]
    ensures { result ≡ client_key salted.now }
{
    hmac_sha_256(salted, b"Client Key")
}

/// `StoredKey` of a client key (RFC 5802, section 3).
pub(crate) fn stored_key(client_key: &[u8; DIGEST_BYTES]) -> [u8; DIGEST_BYTES]
    ensures { result ≡ stored_key client_key.now }
{
    Sha256::digest(client_key)
}

/// `ServerKey` of a salted password (RFC 5802, section 3).
pub(crate) fn server_key(salted: &[u8; DIGEST_BYTES]) -> [u8; DIGEST_BYTES]
    ensures { result ≡ server_key salted.now }
{
    hmac_sha_256(salted, b"Server Key")
}

/// `ServerSignature` of a server key for an `AuthMessage` (RFC 5802, section 3).
pub(crate) fn server_signature(key: &[u8; DIGEST_BYTES], message: &[u8]) -> [u8; DIGEST_BYTES]
    ensures { result ≡ server_signature key.now message.now }
{
    hmac_sha_256(key, message)
}
