//! The verifier of a password.
ghost use Rattle.std.specs.Prelude.{◌≡◌, ◌<◌, IfOk};
ghost use Rattle.login_core.specs.Scram.{client_key, stored_key, server_key, salted_password};

use crate::joining::copied;
use crate::keys::{client_key, server_key, stored_key};
use crate::pbkdf2::salted_password;
use crate::verifier::Verifier;
use std::alloc::{AllocError, Global};

/// The verifier of a password, with this salt and so many iterations (RFC 5802, section 3). The salt has to
/// be a new one, and RFC 7677 asks for 4,096 iterations or more. The password is taken as it is, so a caller
/// prepares it (SASLprep, RFC 4013).
///
/// The error is `AllocError`: there was no memory for the salt.
pub fn make_verifier(
    alloc: Global,
    password: &[u8],
    salt: &[u8],
    iterations: u32,
) -> Result<Verifier, AllocError>
    requires { 0 < iterations }
    ensures salt { IfOk result (λ v. v.salt.items ≡ salt.now) }
    ensures iterations { IfOk result (λ v. v.iterations ≡ iterations) }
    ensures stored_key { IfOk result (λ v. v.stored_key
        ≡ stored_key (client_key (salted_password password.now salt.now iterations))) }
    ensures server_key { IfOk result (λ v. v.server_key
        ≡ server_key (salted_password password.now salt.now iterations)) }
{
    let salted = salted_password(alloc, password, salt, iterations)?;
    Ok(Verifier {
        salt: copied(alloc, salt)?,
        iterations,
        stored_key: stored_key(&client_key(&salted)),
        server_key: server_key(&salted),
    })
}
