//! Login by SCRAM-SHA-256 (RFC 5802 and RFC 7677): whoever speaks as a user has proved to be that user.
//!
//! A [`Verifier`] is what a server keeps of a user: a salt, a count of iterations, the `StoredKey` and the
//! `ServerKey`. It checks a proof, and makes none. [`make_verifier`] makes it of a password, and
//! [`verifier_text`] writes it as PostgreSQL does. [`read_users`] reads a file of such texts, a line for each
//! user: no line is left out and no user has two, or it says which line is wrong first, and why. All rests
//! on [`hmac_sha_256`].
//!
//! A [`Beginning`] is a login that a line has begun, `LOGIN ann` and the client's first message. It has the
//! server's first message, which answers the line, and it answers the client's last message.
//!
//! The one contract is that of [`Beginning::read`] and [`Beginning::answer`] together: there is a beginning
//! exactly where the line is of that form, and its nonce is the client's with the server's own behind it
//! (`specs/Login.antt`, `Opens`). There is an answer exactly where the last message repeats that nonce, and
//! its proof is by the holder of a key for which the `StoredKey` of that user stands (`LogsIn`). The law
//! [`laws::named_has_shown`] says what follows for a whole session, and [`laws::password_proves`] that who
//! has the password can always prove it.
//!
//! ```text
//! let users = read_users(alloc, text)?.users;                   // ann:SCRAM-SHA-256$4096:<salt>$<keys>
//! let line = b"LOGIN ann n,,n=,r=rOprNGfw";
//! let begun = Beginning::read(alloc, &users, &secret, b"3rfcNHYJ", line)?.unwrap();
//! begun.server_first();                                         // r=rOprNGfw3rfcNHYJ,s=<salt>,i=4096
//! let last = b"c=biws,r=rOprNGfw3rfcNHYJ,p=<proof>";
//! begun.answer(alloc, &users, last)?                            // v=<signature>
//! ```
//!
//! Who is no user is told a salt and a count like others, and is refused like others, after the same work.
//!
//! What no contract can say is left to the caller: that the server's nonce is new in each session, that its
//! secret stays the same and is told to nobody, that a password is prepared (SASLprep, RFC 4013) before it is
//! hashed, and that nobody else holds the key. Stricter than the RFCs, it binds no channel (`p=` is refused),
//! takes no identity but the user's own and no extension, and base64 and decimal only as they are printed.
//!
//! # Cost
//!
//! A login takes an HMAC for the salt that who is no user would be told, an HMAC of the messages and a digest
//! to check the proof, and one more HMAC to sign the answer. A user is looked up by a hash of the name.
//! [`make_verifier`] takes an HMAC for each iteration, and no session calls it. Each text is built once, in
//! memory that is taken for it.
#![tactic(auto)]

mod beginning;
mod client_final;
mod client_first;
mod decoding;
mod digest;
mod hmac;
mod joining;
mod keys;
pub mod laws;
mod making;
mod opening;
mod pbkdf2;
mod printing;
mod proof;
mod reading;
mod server_messages;
mod user;
mod user_file;
mod users;
mod users_fault;
mod verifier;

pub use beginning::Beginning;
pub use digest::DIGEST_BYTES;
pub use hmac::hmac_sha_256;
pub use making::make_verifier;
pub use printing::verifier_text;
pub use user_file::{UserFile, read_users};
pub use users::Users;
pub use users_fault::{UsersFault, WrongLine};
pub use verifier::Verifier;
