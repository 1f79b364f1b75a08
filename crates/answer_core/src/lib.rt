//! Answers in messages: what is written of a reply of the core in PostgreSQL's protocol 3.0.
//!
//! It is to messages what `reply_core` is to lines. [`begin_answer`] writes the first of the answer to a
//! reply, and each [`Unsent::go_on`] some more, until nothing is to be written: that is the one contract.
//! What they write one after another is an answer to the reply (`specs/Replies.antt`, `specs/Answers.antt`):
//!
//! - rows of a table, of CHECKPOINTS or of EXPORT, each a DataRow; then the moment, as the parameter
//!   `sysr.moment`, and the tag `SELECT n` with the number of rows;
//! - of another statement that was carried out the moment and its tag, and of CHECKPOINT before these its
//!   line as a notice;
//! - of one that was denied or refused an error: its line, and a code of SQLSTATE (`specs/Codes.antt`).
//!
//! A [`Request`] tells the kind of the statement, the format of each column, and how many rows are asked
//! for at most. Where more are left, that the portal is suspended is written in place of the moment and the
//! tag, and [`Portal::resume`] goes on with the others, with whatever is then asked for. A record of an
//! export that finds no memory cuts it: an error is written in place of the rest.
//!
//! ```text
//! let formats = Formats::all(Format::Text, 2);
//! let request = Request { tag: Tag::of(&statement), formats, most: Some(1) };
//! write_description(&reply, &columns, &request.formats, &mut writer)?;      // T
//! match begin_answer(&mut buffer, reply, request, &mut writer)? {           // D s
//!     Progress::Suspended(portal) => portal.resume(None),                   // D S C, by finish
//!     ..
//! }
//! ```
//!
//! What goes before an answer is the session's to say: [`write_description`] writes the columns of a reply
//! that is described first, and [`write_checkpoint_columns`] and [`write_export_columns`] those that do not
//! hang on a table. So is what no reply tells: [`write_fault`] writes a fault, [`write_unread`] that a
//! statement could not be read, and [`write_error`] any other [`SqlState`].
//!
//! # Cost
//!
//! An answer costs the bytes of its messages, and those of an export's records. A row is gone over twice,
//! since its length stands before it. Only an export's records take memory: all else is written from the
//! values that a reply shares with the table, or from the [`ReplyBuffer`](reply_core::ReplyBuffer).
#![tactic(auto)]

mod answering;
mod description;
mod faults;
mod formats;
mod items;
mod messages;
mod records;
mod sql_state;
mod steps;
mod tag;
mod told;
mod unsent;

pub use answering::{Request, begin_answer};
pub use description::{write_checkpoint_columns, write_description, write_export_columns};
pub use faults::{write_error, write_fault, write_unread};
pub use formats::Formats;
pub use items::Items;
pub use records::Records;
pub use sql_state::SqlState;
pub use tag::Tag;
pub use unsent::{Frame, Portal, Progress, Remainder, Unsent};
