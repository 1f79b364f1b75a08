//! How a session comes by its user.

use base_core::User;
use login_core::{DIGEST_BYTES, UserFile};
use std::sync::Arc;

/// The bytes of a nonce of the server's.
pub const NONCE_BYTES: usize = 24;

/// How a session comes by its user.
#[derive(Drop)]
pub enum Admission {
    /// Its first line names him, and nobody asks whether it is he.
    Anyone,
    /// It is known who he is. The first line names him again.
    Known(User),
    /// He logs in by its first two lines, as one of the users of this file. Who is no user is told a salt
    /// that is made of the secret. The nonce of the server is `own`: it has to be a new one.
    Login {
        file: Arc<UserFile>,
        secret: [u8; DIGEST_BYTES],
        own: [u8; NONCE_BYTES],
    },
}
