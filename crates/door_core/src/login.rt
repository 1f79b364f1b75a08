//! Who may log in.

use base_core::Name;
use login_core::{DIGEST_BYTES, UserFile, Verifier, hmac_sha_256};
use session_core::NONCE_BYTES;
use std::sync::atomic::{AtomicU64, Ordering};
use std::sync::{Arc, Mutex, Wait};

// What a nonce is written in: 6 bits a symbol.
const SYMBOLS: &[u8; 64] = b"ABCDEFGHIJKLMNOPQRSTUVWXYZabcdefghijklmnopqrstuvwxyz0123456789+/";

/// Who may log in: the users of a file, as it was read last. The secret makes nonces that nobody
/// can foretell, and salts of those who are no users.
#[derive(Drop)]
pub struct Login {
    file: Mutex<Arc<UserFile>>,
    secret: [u8; DIGEST_BYTES],
    // How many nonces were made.
    nonces: AtomicU64,
}

/// Whether they were made of one password, by one salt.
fn is_same(one: &Verifier, other: &Verifier) -> bool {
    one.salt.as_slice() == other.salt.as_slice()
        && one.iterations == other.iterations
        && one.stored_key == other.stored_key
        && one.server_key == other.server_key
}

impl Login {
    /// The users of this file may log in. The secret has to be new in each process, and random.
    pub fn new(file: Arc<UserFile>, secret: [u8; DIGEST_BYTES]) -> Login {
        Login {
            file: Mutex::new(file),
            secret,
            nonces: AtomicU64::new(0),
        }
    }

    /// From now on the users of this file may log in, and no others. A login that has begun goes on where
    /// its user is in this file as he was in the one before.
    pub fn replace<R: Wait>(&self, rt: &R, file: Arc<UserFile>) {
        *self.file.lock(rt) = file;
    }

    /// The users who may log in now. None where there was no room to count one who holds them.
    pub(crate) fn file<R: Wait>(&self, rt: &R) -> Option<Arc<UserFile>> {
        Arc::try_clone(&self.file.lock(rt)).ok()
    }

    /// Whether this user may log in now as he could by this file: its line of him and that of the file of
    /// now are of one password and one salt, or neither has one of him.
    pub fn keeps<R: Wait>(&self, rt: &R, file: &UserFile, user: Name) -> bool {
        let now = self.file.lock(rt);
        match (now.users.find(user), file.users.find(user)) {
            (Some(now), Some(then)) => is_same(now, then),
            (None, None) => true,
            _ => false,
        }
    }

    pub(crate) fn secret(&self) -> &[u8; DIGEST_BYTES] {
        &self.secret
    }

    /// A nonce that was never given before: of 144 bits, which nobody can tell from random ones who
    /// does not know the secret.
    pub(crate) fn nonce(&self) -> [u8; NONCE_BYTES] {
        let number = self.nonces.fetch_add(1, Ordering::SeqCst);
        let mut message = *b"a nonce 01234567";
        message[8..].copy_from_slice(&number.to_be_bytes());
        let digest = hmac_sha_256(&self.secret, &message);
        let mut nonce = [0; NONCE_BYTES];
        for (symbol, byte) in nonce.iter_mut().zip(digest.iter()) {
            *symbol = SYMBOLS[(*byte & 63) as usize];
        }
        nonce
    }
}
