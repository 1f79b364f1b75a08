//! Sessions: lines of one user, answered through a pass of a desk.
//!
//! [`serve_admitted`] is the one contract, and it is over bytes. An [`Admission`] says how the
//! session comes by its user: its first line names him, and nobody asks whether it is he; or it has
//! to name the one who is known; or the first two lines log him in, by SCRAM-SHA-256
//! (`specs/Admission.antt`). Each later line is one statement, and is answered by what the desk
//! makes of it in a turn of the pass: the text of the reply and, of an export, its records; or the
//! text of the line's one fault. What was written is such answers, one after another; each turn
//! begins where the one before left what the pass has seen; and the entries that the pass gains
//! bear that user (`specs/Session.antt`). So whose session it is that had to log in has shown it by
//! a message of it (law [`laws::user_has_come`]). [`serve_session`] is the call for which anyone is
//! who he says, and [`serve_line`] is one line. The [`Summary`] that comes of a session says whose
//! it was, how many lines came behind his welcome, and the moment of the last reply that bore one.
//!
//! A [`SessionMachine`] is a session between two pieces of what its client sends, which anyone goes on
//! with through a pass of his own: it meets a note of what the session has seen. Its contract says how
//! far it has come by its protocol, and its laws that it may end wherever its client stops, and that
//! whose session it is has come by right (`specs/Machines.antt`). [`Parked`] is the one of lines, the
//! same session as above (`specs/Parking.antt`). Of a long reply it writes the first, and owes the rest
//! before the next line: once that is written, the whole is one answer. Wherever its client stops it
//! ends as a session ends (law [`laws::parked_session_ends`]).
//!
//! A reply that the desk withholds, that to a change which could not be kept, is not written, and
//! the session is over: it ends with [`SessionEnd::Journal`].
//!
//! [`checkpointer`] steps the active checkpoint through a pass of its own until it is told to stop.
//! It makes no entry.
//!
//! A [`Tender`] tends what is kept of a server's changes, through a pass of his own: he looks, and says
//! CHECKPOINT, and makes no entry either (`specs/Tending.antt`).
//!
//! ```text
//! let (desk, mut passes) = Desk::build(alloc, System::new(alloc, 16)?, NoKeeper, 2)?;
//! serve_session(&rt, alloc, &desk, &mut pass, &mut reader, &mut writer, &NoGate);
//! // USER ann                           welcome ann
//! // CREATE TABLE pay (wage INTEGER)    done @1
//! ```
//!
//! # Mechanism
//!
//! A line is read before the turn, and the reply is written after it: a turn is the core's one
//! step, and neither reads, writes nor takes memory for a text. The records of an export are read
//! from the image that its ticket shares, outside every turn, so that a client that reads slowly
//! holds nobody up but itself. A [`Gate`](base_core::Gate) is called before each of them, and
//! between the steps of a checkpoint, so that a test can hold them there. It is told too of the
//! user whom a session names, and of each line that was answered, so that it can let others run. A
//! [`Witness`] is told of each statement and its reply besides, so that it can count them.
//!
//! # Cost
//!
//! A line costs its bytes once, a turn, and the bytes of its answer. A session takes memory for a
//! buffer of 65,536 bytes, a line, and a reply, before its first read; then for statements, for
//! what queries and exports answer, and for the tokens of a line where none before had so many.
#![tactic(auto)]

mod admission;
mod answering;
mod checkpointing;
mod greeting;
pub mod laws;
mod line;
mod meeting;
mod parked;
mod reception;
mod scratch;
mod session;
mod session_end;
mod session_machine;
mod summary;
mod tender;
mod witness;

pub use admission::{Admission, NONCE_BYTES};
pub use checkpointing::checkpointer;
pub use line::serve_line;
pub use lines_core::SessionFault;
pub use meeting::meet;
pub use parked::Parked;
pub use reception::Reception;
pub use scratch::Scratch;
pub use session::{end_of, serve_admitted, serve_session};
pub use session_end::{SessionEnd, end_name};
pub use session_machine::SessionMachine;
pub use summary::Summary;
pub use tender::{NoTender, Tender};
pub use witness::Witness;
