//! Lines from a reader, answered to a writer.
//!
//! A [`LineServer`] is whatever answers lines: its `answers` says, of a state, a line, a text and a next state,
//! whether the text may be written for the line and the state may be the next. [`serve`] has it answer the
//! lines of an input, one after another, and hands each answer to the writer before it looks at the next
//! line.
//!
//! The one contract is over bytes: what was written is answers to the lines of what was read, one after
//! another, from the state that the server was in to the one that it is in then (`specs/Serving.antt`, the
//! relation `Ends`, by the five ways in which it may end). A line is what std's `lines` says: it ends at a line
//! feed, one carriage return before that is dropped, and a last line counts if it has a byte.
//!
//! ```text
//! let mut server = Echo { over: false };                            // an impl of LineServer
//! serve(alloc, &mut server, &mut reader, &mut writer)?;             // a, then b: a answered, then b
//! ```
//!
//! [`serve_told`] is the same, and tells which end it came to: so a caller can refuse an input whose last
//! line has no line feed. [`serve_whole`] answers no such line, and hands out its front.
//!
//! Whoever reads the input by other means gives each piece to a [`Feeding`]. A server that holds a reply which is
//! not yet written whole is fed line by line, by [`Feeding::feed_line`], and so stops behind that line.
//!
//! [`fault_text`] and [`fault_name`] say what is told of a fault that ended the answering, [`audit_end`]
//! how an audit ends, and [`give_up`] ends a process that could not go on. A [`Steady`] stream makes a call
//! again that a signal interrupted, so that no signal ends the answering.
//!
//! # Mechanism
//!
//! The input comes in pieces of at most 65,536 bytes, which are cut at line feeds. What is kept between two
//! pieces is the front of the line that has begun, of which no more is kept than an answer can depend on:
//! the longest line, a carriage return, and one byte that makes it too long. For that a server has to answer
//! all lines of more than [`LONGEST_LINE`] bytes alike (`too_long`), though its own longest may be shorter.
//!
//! # Cost
//!
//! A line costs its bytes once, and its answer; one that lies whole in a piece is not copied. The memory,
//! a buffer and the front of a line, is taken before the first read. What is answered to the lines of one
//! piece is flushed at its end.
#![tactic(auto)]

mod ending;
mod feeding;
mod line;
mod serving;
mod steady;

pub use ending::{NO_MEMORY, audit_end, fault_name, fault_text, give_up};
pub use feeding::Feeding;
pub use line::LONGEST_LINE;
pub use serving::{
    Ending, LineServer, MOST_BYTES, SessionFault, WholeEnding, serve, serve_told, serve_whole,
};
pub use steady::Steady;
