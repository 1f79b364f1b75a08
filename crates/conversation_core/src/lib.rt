//! What a user's messages come to, in PostgreSQL's protocol 3.0.
//!
//! A [`Conversation`] is how a session stands once its user is welcome: the block of statements that he has
//! begun, what he has prepared, his portals and the rows that each has left, and what he is still to be sent.
//! [`Conversation::answer`] is the one contract. It looks at one message, through a pass of the desk, and adds
//! typed items to a queue; it writes nothing. [`Conversation::go_on`] writes the queue, a part at a time.
//!
//! What a message comes to is a relation between the session before, the message, the items and the session
//! behind (`specs/Messages.antt`, `ComesTo`), one case for each kind:
//!
//! - A Query is answered statement by statement, up to the first error, and then the session is ready
//!   (`specs/Querying.antt`). A change is asked alone, and outside a block.
//! - Parse, Bind, Describe, Execute and Close do as their names say (`specs/Extending.antt`,
//!   `specs/Portals.antt`); behind an error of theirs all is passed over up to the next Sync.
//! - Whatever line is asked, in a Query or by Execute, is told in the same way (`specs/Telling.antt`): by the
//!   desk's reply, by the answer of a command as BEGIN is, or by the error that stands in the way.
//!
//! What may then be written is what `sending_core` says of the items, so a reply that is sent is one that
//! the desk has given to the statement that the line spells, and to no other.
//!
//! ```text
//! let mut conversation = Conversation::new(alloc)?;
//! conversation.answer(&lent, pass, tokens, user, ClientMessage::Query(text));   // T, D D D, C, Z wait
//! while conversation.is_owing() {
//!     conversation.go_on(&mut buffer, &mut writer, &gate)?;
//! }
//! ```
//!
//! # Mechanism
//!
//! The queue has always room for an error and for that the session is ready, and a Query reserves three
//! items for each of its statements before the first is asked; so whatever was asked can be answered. Rows
//! that an Execute leaves stand beside the portals, each at its portal's place, and come there when the
//! items are written. A handler adds its items by `Adds` (`specs/State.antt`), and what it leaves is one
//! state, so the cases of the relation are those of the code.
//!
//! # Cost
//!
//! A message costs its bytes once, a turn of the desk for each line that is asked, one more where columns
//! are wanted, and one or two for Parse and Describe. Memory is taken for what is prepared and bound, at
//! most 1,024 named statements and 8 named portals, and for the rows that a portal has left, which it shares
//! with the tables' answer.
#![tactic(auto)]

mod adding;
mod binding;
mod closing;
mod commands;
mod conversation;
mod describing;
mod executing;
mod faults;
mod lent;
mod messages;
mod parsing;
mod places;
mod portals;
mod querying;
mod statements;
mod telling;

pub use conversation::Conversation;
pub use lent::Lent;
pub use portals::{Bound, MOST_PORTALS};
pub use querying::MOST_STATEMENTS;
pub use statements::{MOST_PREPARED, NamedStatement};
pub use telling::Telling;
