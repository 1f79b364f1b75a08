//! A login, message by message.
ghost use Rattle.std.specs.Prelude.{◌≡◌, ℕ, List, take, IfOk, MatchOption};
ghost use Rattle.base_core.specs.declared.name.Name.{Name as NameValue};
ghost use Rattle.login_core.specs.Hmac.{hmac};
ghost use Rattle.login_core.specs.Login.{told_salt, told_iterations, IsNoOpening, Opens, Signs, Disproves, LogsIn, Refuses};

use crate::client_final::{auth_message, proves_to_be, without_proof};
use crate::digest::DIGEST_BYTES;
use crate::hmac::hmac_sha_256;
use crate::joining::{copied, joined};
use crate::keys::server_signature;
use crate::opening::{Opened, read_opening};
use crate::server_messages::{server_final_message, server_first_message};
use crate::users::Users;
use base_core::Name;
use std::alloc::{AllocError, Global};
use std::marker::Model;

/// The bytes of a salt that is made up.
const SALT_BYTES: usize = 16;

/// The count of iterations that is told to who is no user.
const ITERATIONS: u32 = 4096;

/// A login that has begun: who the client is to be, and what both first messages said.
#[derive(Drop)]
pub struct Beginning {
    user: Name,
    channel_binding: &'static [u8],
    bare: Vec<u8>,
    nonce: Vec<u8>,
    server_first: Vec<u8>,
}

impl Model for Beginning {
    ghost Value = { Rattle.login_core.specs.Login.Beginning };

    ghost view = { λ b. record {
      user = b.user;
      bare = b.bare.items;
      server_first = b.server_first.items;
      channel_binding = b.channel_binding.now;
      nonce = b.nonce.items;
    } };
}

/// The salt and the count of iterations that a user is told.
fn told<'a>(users: &'a Users, made_up: &'a [u8; DIGEST_BYTES], user: Name) -> (&'a [u8], u32)
    ensures salt { (secret : List ℕ) → made_up.now ≡ hmac secret user
        → result.0.now ≡ told_salt users.now secret user }
    ensures iterations { result.1 ≡ told_iterations users.now user }
{
    match users.find(user) {
        Some(kept) => (kept.salt.as_slice(), kept.iterations),
        None => (&made_up[..SALT_BYTES], ITERATIONS),
    }
}

impl Beginning {
    /// The login that a line begins: `LOGIN`, the user's name and the client's first message (RFC 5802,
    /// section 7), with one blank between them and no line feed. The server's nonce is `own`: new bytes in
    /// each session, of printable ASCII without a comma. Who is no user is told 16 bytes of salt that are
    /// made of the secret and the name, and 4,096 iterations. None comes exactly where the line begins no
    /// login.
    ///
    /// The error is `AllocError`: there was no memory for it.
    pub fn read(
        alloc: Global,
        users: &Users,
        secret: &[u8; DIGEST_BYTES],
        own: &[u8],
        line: &[u8],
    ) -> Result<Option<Beginning>, AllocError>
        ensures { IfOk result (λ o. MatchOption o (IsNoOpening line.now)
            (λ begun. Opens users.now secret.now own.now line.now begun)) }
    {
        let Some(Opened { user, first }) = read_opening(line) else {
            return Ok(None);
        };
        let made_up = hmac_sha_256(secret, user.as_bytes());
        let (salt, iterations) = told(users, &made_up, user);
        let nonce = joined(alloc, first.nonce, own)?;
        let server_first = server_first_message(alloc, nonce.as_slice(), salt, iterations)?;
        Ok(Some(Beginning {
            user,
            channel_binding: first.channel_binding,
            bare: copied(alloc, first.bare)?,
            nonce,
            server_first,
        }))
    }

    /// Who the client is to be: the name in the line, in small letters.
    pub fn user(&self) -> Name
        ensures { result ≡ self.now.user }
    {
        self.user
    }

    /// The server's first message (RFC 5802, section 7), which answers the line, without a line feed.
    pub fn server_first(&self) -> &[u8]
        ensures { result.now ≡ self.now.server_first }
    {
        self.server_first.as_slice()
    }

    /// What is answered to the client's last message by who keeps these two keys of the user. None comes
    /// exactly where it proves nothing.
    fn signed(
        &self,
        alloc: Global,
        stored: &[u8; DIGEST_BYTES],
        server: &[u8; DIGEST_BYTES],
        message: &[u8],
    ) -> Result<Option<Vec<u8>>, AllocError>
        ensures { IfOk result (λ o. MatchOption o (Disproves stored.now self.now message.now)
            (λ answer. Signs stored.now server.now self.now message.now answer.items)) }
    {
        let (bare, asked) = (self.bare.as_slice(), self.server_first.as_slice());
        let front = without_proof(alloc, self.channel_binding, self.nonce.as_slice())?;
        let said = auth_message(alloc, bare, asked, front.as_slice())?;
        if !proves_to_be(alloc, stored, front.as_slice(), said.as_slice(), message)? {
            return Ok(None);
        }
        let signature = server_signature(server, said.as_slice());
        let answer = server_final_message(alloc, &signature)?;
        Ok(Some(answer))
    }

    /// What is answered to the client's last message (RFC 5802, section 7) where it proves the client to be
    /// the user: the server's last message, without a line feed, which is signed by the `ServerKey` that is
    /// kept of him. None comes exactly where it does not prove it. Who is no user costs as much as others.
    ///
    /// The error is `AllocError`, and says nothing of the message: there was no memory to look at it.
    pub fn answer(
        &self,
        alloc: Global,
        users: &Users,
        message: &[u8],
    ) -> Result<Option<Vec<u8>>, AllocError>
        ensures { IfOk result (λ o. MatchOption o (Refuses users.now self.now message.now)
            (λ answer. LogsIn users.now self.now message.now answer.items)) }
    {
        let Some(kept) = users.find(self.user) else {
            // A key that nobody is known to have.
            let key = [0; DIGEST_BYTES];
            let _ = self.signed(alloc, &key, &key, message);
            return Ok(None);
        };
        self.signed(alloc, &kept.stored_key, &kept.server_key, message)
    }
}
