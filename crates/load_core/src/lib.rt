//! Journals loaded: a file of lines, each an accepted change, carried out once more.
//!
//! A line is `user: statement`, as [`printer_core`]'s `Page::line` writes it of each entry of a
//! journal. Lines load a journal where each, one after another, says a change that is allowed at
//! the journal before it (`specs/Loading.antt`). [`load`] is the one contract: it gives a core whose
//! journal is the one that the lines of all that was read load, and that has nothing else; or it
//! names the first line that says no change which is done, and why. So what is loaded is not
//! trusted: each change is judged as if its user had just said it. A last line that has no line feed
//! is refused, since it may be the front of another that a write left which was cut off.
//! [`load_fault_text`] says a fault to people (`specs/FaultTexts.antt`), and [`load_or_text`] loads
//! and says so at once.
//!
//! ```text
//! let system = load(alloc, &mut reader, 16, Limits::full())?;
//!                                                // ann: CREATE TABLE pay (name TEXT)
//!                                                // bob: SELECT * FROM pay
//!                                                // Err(Line { number: 2, why: NoChange })
//! ```
//!
//! [`load_behind`] goes on from a core by the whole lines of a file behind its first so many, for a journal
//! that stands in several files.
//!
//! [`replay`] goes on from a core by the lines of a journal or of a script, for the sake of their
//! changes: a line that says no allowed change is left out, which is counted and told of the first
//! ([`left_out_text`]); a journal's last line that was cut off is refused, or dropped and told
//! ([`dropped_text`]). Its contract says which lines made a change, and which were left out and why
//! (`specs/Replaying.antt`). It ends at a line at which memory runs out, and in a journal at one that
//! is too long ([`replay_fault_text`]).
//!
//! ```text
//! let manner = Manner { form: Form::Script, cut_line: CutLine::Refuse, most: u64::MAX };
//! let replayed = replay(alloc, &mut reader, system, manner)?;  // bob: DELETE FROM pay
//!                                                              // left_out: 1, of them line 1
//! ```
//!
//! The lines of a journal that was written load that journal, but for the passes, which no line
//! names and no verdict asks: the law [`journal_is_loaded`]. So what a script kept as lines is as
//! good as the core that it left: the law [`script_is_kept`]. A file that loads a journal and is gone
//! on with loads what that came to: the laws [`gone_on_is_kept`], [`kept_goes_on`] and
//! [`gone_on_script_is_kept`]. If its last line was broken off, at any byte, its whole lines load what
//! was told: the laws [`cut_end_is_kept`] and [`told_is_loaded`]. No line that says an allowed change is
//! left out: the law [`nothing_allowed_is_left_out`].
//!
//! # Mechanism
//!
//! A loader, and so a replayer, is a server of lines, to which [`lines_core`] gives one after
//! another, and whose answers are empty. Once it has stopped, it passes over the lines left in the
//! piece that was read. No step of the checkpointer is done. What a line says is judged once, and
//! what is no change is refused by its statement, so that no rows and no export are made.
//!
//! # Cost
//!
//! A line costs its bytes once, and what its change costs in the core. The memory is that of the
//! core, of one piece of 65,536 bytes, and of the tokens of a line.
#![tactic(auto)]

mod behind;
mod fault;
mod fault_text;
mod laws;
mod loader;
mod loading;
mod manner;
mod replay_text;
mod replayed;
mod replayer;
mod replaying;
mod silence;
mod whole;

pub use behind::{LoadedBehind, load_behind};
pub use fault::{LoadFault, Undone};
pub use fault_text::load_fault_text;
pub use laws::{
    cut_end_is_kept, gone_on_is_kept, gone_on_script_is_kept, journal_is_loaded, kept_goes_on,
    lines_load_one_journal, nothing_allowed_is_left_out, script_is_kept, told_is_loaded,
};
pub use loader::{enter_line, line_at};
pub use loading::{Loaded, load, load_or_text, load_whole, load_whole_or_text};
pub use manner::{CutLine, Form, Manner};
pub use replay_text::{dropped_text, left_out_text, replay_fault_text};
pub use replayed::{CutFront, LeftOut, ReplayFault, Replayed};
pub use replayer::is_out_of_memory;
pub use replaying::replay;
pub use silence::Silence;
