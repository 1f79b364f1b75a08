//! How a password leads to a salted password: PBKDF2 of one block.
ghost use Rattle.std.specs.Prelude.{◌≡◌, ◌<◌, IfOk};
ghost use Rattle.login_core.specs.Pbkdf2.{iterate};
ghost use Rattle.login_core.specs.Scram.{salted_password};

use crate::digest::{DIGEST_BYTES, exclusive_or};
use crate::hmac::hmac_sha_256;
use crate::joining::joined;
use std::alloc::{AllocError, Global};

/// `INT (1)` of RFC 8018, section 5.2: the number of the first block.
const FIRST_BLOCK: [u8; 4] = [0, 0, 0, 1];

/// `U_1`: of the salt and the number of the block.
fn first_iterate(
    alloc: Global,
    password: &[u8],
    salt: &[u8],
) -> Result<[u8; DIGEST_BYTES], AllocError>
    ensures { IfOk result (λ first. first ≡ iterate password.now salt.now 0) }
{
    let first = joined(alloc, salt, &FIRST_BLOCK)?;
    Ok(hmac_sha_256(password, first.as_slice()))
}

/// `SaltedPassword` of RFC 5802, section 3: PBKDF2 with HMAC-SHA-256 and one block (RFC 8018, section
/// 5.2). It takes an HMAC for each iteration.
///
/// The error is `AllocError`: there was no memory for the salt and four bytes.
pub(crate) fn salted_password(
    alloc: Global,
    password: &[u8],
    salt: &[u8],
    iterations: u32,
) -> Result<[u8; DIGEST_BYTES], AllocError>
    requires { 0 < iterations }
    ensures { IfOk result (λ key. key ≡ salted_password password.now salt.now iterations) }
{
    let mut last = first_iterate(alloc, password, salt)?;
    let mut key = last;
    for _i in 1..iterations {
        last = hmac_sha_256(password, &last);
        key = exclusive_or(&key, &last);
    }
    Ok(key)
}
