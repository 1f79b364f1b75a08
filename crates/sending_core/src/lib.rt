//! What a session in PostgreSQL's messages has still to send, written a part at a time.
//!
//! A session looks at a message of a client and says what is to be sent: it pushes items into a
//! [`Sending`], and writes nothing itself. [`Sending::go_on`] writes the first of them, or some of it, and
//! is called until nothing is to be sent. So no message takes memory for its text, and who reads slowly
//! holds nothing but the queue and the rows that its answers share with the tables.
//!
//! An [`Item`] is one of three:
//!
//! - a [`Plain`] message, whose text hangs on nothing but what it has itself: `specs/Plain.antt` says which
//!   bytes each is, [`write_plain`] writes them, and [`Problem`] has the errors that are a session's own;
//! - an answer to a reply of the core, of a request for some of its rows;
//! - the rest of an answer that was begun.
//!
//! An answer may be that of a portal. A session keeps what its portals have left in a slice, each in its
//! place: an answer that ends suspended puts there the rows that it has left, and any other nothing.
//!
//! ```text
//! sending.reserve(2)?;
//! sending.push(Item::Plain(Plain::ParseComplete));
//! sending.push(Item::Answer { request, reply, portal: Some(0) });
//! while !sending.is_empty() {
//!     sending.go_on(&mut lefts, &mut buffer, &mut writer, &gate)?;    // 1 D D s, and lefts[0] goes on
//! }
//! ```
//!
//! The one contract is that of `go_on`. What may be written of a queue is the text of its first item, then
//! that of the next, and so on, each with the portals as the items before it have left them
//! (`specs/Owing.antt`, `Owes`). A call writes a part: with whatever may be written of what is still to be
//! sent, it is one that was to be sent (`SendsPart`). Something may always be written, and of no item
//! nothing ([`something_is_owed`], [`nothing_is_owed`]). Each call makes progress: `count_owed` falls.
//!
//! A queue has room for so many items as were reserved and not yet pushed, so a session that reserves
//! before it asks the core can always answer. A list that a message counts has fewer than 65,536 items: the
//! type [`Few`] keeps that.
//!
//! # Cost
//!
//! A call costs the bytes that it writes: of a plain message all, and of an answer at most 64 rows or a
//! record of an export. Only an export's records take memory. An item is moved when it is pushed and when
//! it is begun, and takes a few hundred bytes in the queue.
#![tactic(auto)]

mod commands;
mod few;
mod item;
mod laws;
mod plain;
mod problem;
mod sending;
mod welcome;

pub use commands::answers_row;
pub use few::Few;
pub use item::Item;
pub use laws::{nothing_is_owed, something_is_owed};
pub use plain::{Plain, write_plain};
pub use problem::Problem;
pub use sending::Sending;
