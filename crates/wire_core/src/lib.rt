//! A session in PostgreSQL's protocol 3.0, between two pieces of what its client sends.
//!
//! [`WireSession`] is the [`SessionMachine`](session_core::SessionMachine) of messages, as
//! [`Parked`](session_core::Parked) is that of lines: any worker feeds it the next piece, through any pass
//! of the desk that meets what the session has seen, and writes what it owes.
//!
//! The one contract is that of the machine. How far a session has come is told by all that its client has
//! sent (`specs/Running.antt`, `HasRun`): one message after another, each through a pass that has seen no less
//! than the one before, and what was written is what each of them comes to. A session may be cut anywhere
//! (`specs/Coming.antt`): of the last message the front is kept, and where the writer has failed, what was
//! written is a front of the answers. Whoever is welcome has come by right (`specs/Rightful.antt`): where
//! clients log in, the session's user is one whom its client has proved to be, by messages one behind the
//! other, and until then nothing that it sends is asked.
//!
//! - Before anybody is welcome a message has at most 1,024 bytes (`specs/Entering.antt`): a start names the
//!   user, and SCRAM-SHA-256 proves him where that is wanted. Encryption is refused, a cancel is not
//!   answered.
//! - Then one has at most 65,536, and is answered by [`Conversation`](conversation_core::Conversation).
//! - What is no message, or finds no memory, ends the session, and says so.
//!
//! ```text
//! let mut session = WireSession::new(alloc)?;
//! let taken = session.feed(rt, alloc, &desk, &mut pass, &admission, &mut scratch, writer, &gate, piece)?;
//! while session.is_owing() {
//!     session.go_on(&mut scratch, writer, &gate)?;
//! }
//! ```
//!
//! # Cost
//!
//! A message that comes whole in a piece is read where it lies; one that comes in several is copied once, and
//! the copy is dropped behind it. What else it costs is the conversation's.
#![tactic(auto)]

mod client;
mod entering;
mod hearing;
mod wire_session;

pub use client::{MOST_BODY_BYTES, MOST_LOGIN_BYTES};
pub use wire_session::WireSession;
