//! The journal as a script: each accepted change as a line, `user: statement`.
//!
//! A journal says all that a core is, so who has it can make the core again. A [`Keeper`] is told
//! of each change before the change is acknowledged. [`LineKeeper`] writes its line to a sink and
//! has the sink hand it on; [`NoKeeper`] does nothing. What a keeper could not keep of a change it
//! owes, as where the disk was full: it is told of no further change before it has settled that.
//! Between changes a keeper may be asked to run an errand, as where a journal goes on in another file, which
//! leaves what was kept as it is: [`LineKeeper`] has its sink run it ([`Errands`]).
//!
//! ```text
//! let mut keeper = LineKeeper::new(alloc, sink)?;
//! keeper.keep(entry)?;                             // ann: CREATE TABLE pay (wage INTEGER)
//! keeper.settle()?;                                // where that was an Err: what is left of it
//! ```
//!
//! **The one contract.** What was kept is the text of the entries, one line after another, and
//! nothing else (`specs/Text.antt`, law [`kept_lines_are_the_text`]). After a failure the sink has
//! a front of one more line, and the rest of that line is owed: once it is settled the line stands
//! there whole, as if it had been written at once.
//!
//! [`act`] has a system do one step, and the keeper keep what that entered, before the reply may be
//! told (`specs/Recorder.antt`). While something is owed it enters no change, and answers all else.
//! [`enter`] does the same for a change that is known to be allowed, where nothing is owed.
//!
//! [`write_journal`] writes a whole journal at once, and has the sink hand it on at the end.
//!
//! # Cost
//!
//! A line is printed once, in the one page of a keeper, and takes no memory, nor does what is owed of
//! it. It is one write and one flush of the sink.
#![tactic(auto)]

mod errands;
mod keeper;
mod laws;
mod line_keeper;
mod recorder;
mod syncs;
mod unwritten;
mod writing;

pub use errands::Errands;
pub use keeper::{Keeper, NoKeeper};
pub use laws::kept_lines_are_the_text;
pub use line_keeper::LineKeeper;
pub use recorder::{Acted, Unkept, act, enter, settle_owed};
pub use syncs::{NoSync, Syncs};
pub use writing::{JournalFault, write_journal};
