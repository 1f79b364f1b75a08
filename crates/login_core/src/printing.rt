//! A verifier as a text.
ghost use Rattle.std.specs.Prelude.{◌≡◌, IfOk};
ghost use Rattle.login_core.specs.Verifiers.{verifier_text};

use crate::verifier::Verifier;
use base64::engine::general_purpose::STANDARD;
use itoa::Buffer;
use std::alloc::{AllocError, Global};

/// The verifier as PostgreSQL writes it: `SCRAM-SHA-256$4096:<salt>$<StoredKey>:<ServerKey>`, with the
/// last three in base64.
///
/// The error is `AllocError`: there was no memory for the text.
pub fn verifier_text(alloc: Global, verifier: &Verifier) -> Result<Vec<u8>, AllocError>
    ensures { IfOk result (λ text. text.items
        ≡ verifier_text verifier.now.salt.items verifier.now.iterations
        verifier.now.stored_key verifier.now.server_key) }
{
    let salt = STANDARD.encode(alloc, verifier.salt.as_slice())?;
    let stored = STANDARD.encode(alloc, &verifier.stored_key)?;
    let server = STANDARD.encode(alloc, &verifier.server_key)?;
    let mut digits = Buffer::new();
    let count = digits.format(verifier.iterations).as_bytes();
    let (salt, stored, server) = (salt.as_bytes(), stored.as_bytes(), server.as_bytes());
    [
        b"SCRAM-SHA-256$".as_slice(),
        count,
        b":",
        salt,
        b"$",
        stored,
        b":",
        server,
    ]
    .concat(alloc)
}
