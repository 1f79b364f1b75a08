//! Scripts: lines read, answered by the core, and written.
//!
//! [`script`] is the one contract, and it is over bytes: what was written is answers to the lines
//! of what was read, one after another, by the machine of [`system_core`] (`specs/Script.antt`).
//! [`script_from`] is the same from a core that is given, as one that was loaded. It has
//! [`lines_core`] read lines `user: statement`, and gives the writer the text of each reply before
//! it looks at the next line, and after an export's its records; before it reads on, it flushes.
//! Each line, whatever it is, is followed by one step of the checkpointer; where that finds no
//! memory, the checkpoint is given up, and the script says so.
//!
//! A [`Keeper`](journal_core::Keeper) is handed each accepted change before anything of its reply is
//! written, so that what was told can be made again (`specs/Keeping.antt`). Where it cannot keep
//! one, that reply is withheld, no step follows, and the script ends.
//! [`NoKeeper`](journal_core::NoKeeper) keeps nothing, and costs nothing.
//!
//! ```text
//! script(alloc, &mut reader, &mut writer, &mut NoKeeper, 16)?;    // ann: SELECT * FROM pay
//!                                                                 // denied @0: no table pay
//! ```
//!
//! What is written of a reply is said in [`reply_core`]. Its texts are made in one buffer, which a
//! script makes when it starts, and the tokens of each line stand in one vector.
//!
//! As long as memory suffices the output is one; what was told is kept; and with a keeper that never
//! owes a script ends as without one (laws of [`laws`]).
//!
//! A line costs its bytes once, what its statement costs in the core, and the bytes of its answer.
#![tactic(auto)]

pub mod laws;
mod scripts;

pub use lines_core::SessionFault;
pub use scripts::address::read_addressed;
pub use scripts::fault::{ScriptFault, script_fault_text};
pub use scripts::server::{script, script_from};
