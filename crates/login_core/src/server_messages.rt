//! The messages that the server sends.
ghost use Rattle.std.specs.Prelude.{◌≡◌, IfOk};
ghost use Rattle.login_core.specs.ServerMessages.{server_first_message, server_final_message};

use crate::digest::DIGEST_BYTES;
use crate::joining::joined;
use base64::engine::general_purpose::STANDARD;
use itoa::Buffer;
use std::alloc::{AllocError, Global};

/// `server-first-message` (RFC 5802, section 7): the nonce, which is the client's and the server's behind
/// it, the salt in base64, and the count of iterations in decimal.
///
/// The error is `AllocError`: there was no memory for the text.
pub(crate) fn server_first_message(
    alloc: Global,
    nonce: &[u8],
    salt: &[u8],
    iterations: u32,
) -> Result<Vec<u8>, AllocError>
    ensures { IfOk result
        (λ text. text.items ≡ server_first_message nonce.now salt.now iterations) }
{
    let encoded = STANDARD.encode(alloc, salt)?;
    let mut digits = Buffer::new();
    let count = digits.format(iterations).as_bytes();
    [
        b"r=".as_slice(),
        nonce,
        b",s=",
        encoded.as_bytes(),
        b",i=",
        count,
    ]
    .concat(alloc)
}

/// `server-final-message` (RFC 5802, section 7): the server's signature in base64.
///
/// The error is `AllocError`: there was no memory for the text.
pub(crate) fn server_final_message(
    alloc: Global,
    signature: &[u8; DIGEST_BYTES],
) -> Result<Vec<u8>, AllocError>
    ensures { IfOk result (λ text. text.items ≡ server_final_message signature.now) }
{
    let encoded = STANDARD.encode(alloc, signature)?;
    joined(alloc, b"v=", encoded.as_bytes())
}
