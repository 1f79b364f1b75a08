//! What a proof shows.
ghost use Rattle.std.specs.Prelude.{◌≡◌, ◌↔◌, IsTrue};
ghost use Rattle.login_core.specs.Scram.{Proves};

use crate::digest::{DIGEST_BYTES, exclusive_or};
use crate::hmac::hmac_sha_256;
use sha2::{Digest, Sha256};

/// Whether the proof is the `ClientProof`, for this `AuthMessage`, of a holder of a `ClientKey` of which
/// this is the `StoredKey` (RFC 5802, section 3). The key is got back from the proof, and its digest is
/// compared.
pub(crate) fn proves(
    stored: &[u8; DIGEST_BYTES],
    message: &[u8],
    proof: &[u8; DIGEST_BYTES],
) -> bool
    ensures { IsTrue result ↔ Proves stored.now message.now proof.now }
{
    let key = exclusive_or(proof, &hmac_sha_256(stored, message));
    Sha256::digest(&key) == *stored
}
