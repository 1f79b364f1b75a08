//! The folder of a server: what a crash leaves of it, and what a start restores.
//!
//! A server writes each change to the last piece of its journal, and from time to time a dump of what its
//! first changes leave. This crate says what the calls do to the disk, and what a crash may leave of it: of
//! each file any front that has at least what was synced, and of each name what it named at the folder's last
//! sync, or at some time since (`specs/Disk.antt`). Names are independent of each other, which is more than any
//! order in which a disk may keep renames. It says what a start restores: the newest dump, and the pieces that
//! join behind it (`specs/Restoring.antt`). And it says which calls a server may make, one after another,
//! through any number of crashes, also during starts (`specs/Serving.antt`).
//!
//! [`Folder`] is that folder as its calls are seen: each of them asks that a server may make it there
//! (`specs/Calls.antt`). Whoever calls it has to show that, so at each moment, also between two calls of a start,
//! the folder is where a server may have come to.
//!
//! ```text
//! let synced = handle.sync();          // fdatasync of the piece, by whoever waits for it
//! folder.tell(synced);                 // 4711: so many changes may be told
//! ```
//!
//! **The one law** is [`told_outlives`]: wherever a crash comes, what a start restores is a front of the
//! journal with all that was told. [`calls_are_steps`] says that a [`Folder`] asks nothing that no folder could
//! keep: each call, where a server may make it, is a step of the server of which the law speaks.
//!
//! # Mechanism
//!
//! A piece is named by how many changes stand before its first line, and a dump by how many changes it is
//! of, and by the piece in which these end. So a start knows with which piece the journal resumes behind the
//! dump, and how many of its lines it skips; and it sees where lines are missing: it takes a piece only where
//! the one before it ends. No process goes on with a piece of another, since a part of a line may stand at its
//! end: a start begins one of its own. Pieces that do not join are removed, and that is on the disk, before the
//! first line is written: else they would join once the journal has grown to where they begin.
//!
//! What stands is a chain: from that piece on each says the changes up to the next, whatever of it a crash
//! takes. One lemma says what a crash leaves of a chain, and one for each call that it is a chain behind it.
//! A dump has its name only once the changes that it is of are on the disk as lines: so what a crash leaves
//! of the chain reaches its point.
#![tactic(auto)]

mod errand;
mod folder;
mod laws;

pub use errand::{Errand, NamesSynced, Synced, Written};
pub use folder::{Dumping, Folder, FolderFault};
pub use laws::{calls_are_steps, told_outlives};
