//! Changes as a stream: what each change of a journal did, as records for programs.
//!
//! A change has [`Effect`]s: a table was made, a row inserted, updated or deleted, a grant made, its option lost, or
//! it fell. `specs/Effects.antt` says what a reader makes of each (`applied`), by the numbers of rows and of grants
//! alone, and which effects a change has: those that are the difference between the contents before it and behind it
//! (`AreEffectsOf`). They lead from one to the other; each row and each grant has one at most, in the order of the
//! numbers; and none does nothing. `specs/Lines.antt` says the record of an effect to the byte.
//!
//! [`stream`] is the one contract: from bytes that were read to bytes that were written. The whole lines of what was
//! read load a journal, as those of a file that is loaded do, and what was written tells the effects of each of its
//! entries, behind a moment that a reader has; or a line says no change that is done, and the lines before it were
//! told (`specs/Streaming.antt`).
//!
//! ```text
//! stream(alloc, &mut reader, &mut writer, 16, Limits::full(), 0)?;
//! // ann: CREATE TABLE pay (name TEXT, wage INTEGER)    1,0,created,pay,ann,name,TEXT,wage,INTEGER
//! // ann: INSERT INTO pay VALUES ('Bo', 5)              2,0,inserted,pay,0,Bo,5
//! // ann: UPDATE pay SET wage = 6                       3,0,updated,pay,0,Bo,6
//! ```
//!
//! Whoever begins with nothing and applies all of a stream has what the journal makes, and so has he who had what
//! there was at some moment and applies what is told of later ones: the laws [`a_stream_begins`] and
//! [`a_stream_goes_on`]. A change has one list of effects at most, so the journal determines what is told of it: the
//! laws [`effects_are_one`] and [`a_stream_is_one`].
//!
//! # Mechanism
//!
//! A `Streamer` is a server of lines, to which `lines_core` gives one after another. It makes the effects of a change
//! that is no revocation, and their records, before the core carries it out: the head of a table, the number that a
//! row will have, the rows that a filter chooses, the grants that a GRANT will make. So where memory runs out, nothing
//! was changed and nothing is told. What a revocation takes is seen behind it, by the standings of the grants in force
//! before and after, their numbers and options: both are lists in rising numbers, of which the second is left of the
//! first.
//!
//! # Cost
//!
//! A change costs what it costs in the core, and its records. A DELETE and an UPDATE look for their rows twice, by an
//! index where one is kept, else by a walk over the table. A revocation goes over all grants in force, and makes a new
//! list of 16 bytes for each. The memory is that of the core, of one piece of 65,536 bytes, of twice these lists, and
//! of the effects of one change and their text; beside it a writer of records, with up to 65,536 bytes of earlier ones.
#![tactic(auto)]

mod cell;
mod effect;
mod foretelling;
mod laws;
mod losses;
mod records;
mod rows;
mod streamer;
mod streaming;
mod telling;

pub use effect::Effect;
pub use laws::{a_stream_begins, a_stream_goes_on, a_stream_is_one, effects_are_one};
pub use streaming::{StreamFault, stream};
