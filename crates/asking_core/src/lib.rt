//! Statements of messages, asked at a desk.
//!
//! [`ask`] is the one contract: it takes one line of a user, as a message of PostgreSQL's protocol says
//! it, to the desk, and gives what comes of it. It writes nothing, so a session may queue the answer and
//! write it later. What it gives is one of these (`specs/Asking.antt`):
//!
//! - the reply to the statement that the line spells, made in a turn of the pass; where that is a SELECT
//!   whose columns are wanted, they come with it, by a turn before that changes nothing;
//! - the line's one fault; or that it is a command beside the language, as BEGIN is;
//! - that the statement was not asked, and why: the block that its session has begun has failed; or it is
//!   a change, inside a block or among several statements of one message, where it could not be undone;
//! - that the reply to a change is withheld, since the change could not be kept.
//!
//! [`describe`] asks what a statement would answer, and changes nothing: its table's columns, or its
//! denial. [`result_columns`] chooses those of its rows.
//!
//! ```text
//! let manner = Manner { status: Status::Idle, is_alone: true, wants_columns: true };
//! match ask(rt, alloc, desk, pass, user, b"SELECT name FROM pay", tokens, manner, gate) {
//!     Asked::Told { tag, reply, columns } => ..,     // the rows, and the column `name`
//!     Asked::Faulty { code, offset } => ..,
//!     ..
//! }
//! ```
//!
//! # Cost
//!
//! A line is read once, and a turn is taken; where columns are wanted it is read twice, and there are two
//! turns. Memory is taken for the statement, the reply, and the columns.
#![tactic(auto)]

mod asking;
mod describing;
mod manner;

pub use asking::{Asked, ask};
pub use describing::{Described, describe, result_columns};
pub use manner::{Bar, Manner};
