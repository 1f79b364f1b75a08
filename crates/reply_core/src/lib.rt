//! Replies as text: what is written of a reply, of a fault, and of a line that was not read.
//!
//! [`reply_text`] is the text of a reply of the core, byte for byte (`specs/Texts.antt`), in new
//! memory: one line, or of rows and of a list of checkpoints a line with their number and a record
//! for each. [`write_reply`] is the one contract. It gives a writer that text, and behind the text
//! of an export its records, or, out of memory, some of them and one line in place of the rest
//! (`specs/Telling.antt`). [`write_fault`] writes the text of a fault, and [`write_unread`] the one
//! of a line that could not be read: out of memory. On an error a front was written, and the writer
//! has failed.
//!
//! ```text
//! let mut buffer = ReplyBuffer::new(alloc)?;
//! write_reply(&mut buffer, reply, &mut writer, &NoGate)?;   // denied @0: no table pay
//! write_fault(&mut buffer, Code::Empty, 0, &mut writer)?;          // error 1 at 0: empty
//! ```
//!
//! A reply can be written in pieces, so that nobody has to wait for a slow client. [`begin_reply`]
//! writes the first of it and gives what is [`Pending`], and each [`Pending::go_on`] writes some
//! more, until nothing is pending. What they write, one after another, is a text that `write_reply`
//! may write of the reply (`specs/Pending.antt`).
//!
//! Lines are made in a [`ReplyBuffer`], which is made once, with room for every line but those of
//! rows and of an export's records; rows are written straight from the values that they share with
//! the table. So every reply is told whatever memory there is, however many its rows, and only an
//! export may be cut. Who tells a line in another protocol makes it there by [`push_head`] and
//! [`push_fault`], which write nothing.
//!
//! A reply costs the bytes of its text, and those of an export's records. A text of a row that has
//! a quote costs a write for each.
#![tactic(auto)]

mod buffer;
mod gathered;
mod pending;
mod records;
mod wording;
mod writing;

pub use buffer::ReplyBuffer;
pub use gathered::{Gathered, reply_text};
pub use pending::{Pending, begin_reply, write_rest};
pub use wording::{push_fault, push_head};
pub use writing::{write_done, write_fault, write_reply, write_unread};
