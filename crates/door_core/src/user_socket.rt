//! Sockets of single users.

use base_core::User;
use std::os::unix::net::UnixListener;

/// A socket file at which one user comes in, and nobody else.
#[derive(Drop)]
pub struct UserSocket {
    pub user: User,
    pub listener: UnixListener,
}
