//! Checkpoints of a server that restart it.
//!
//! A checkpoint's image is written to the server's folder as a dump, while everybody goes on; then its name is put on
//! the disk, and the journal goes on in a piece of its own. A start loads the dump, and the lines behind it.
//!
//! ```text
//! let begun = Begun { count: 4711, start: 812 };         // the core was restored of 4,711 changes
//! let archive = FolderArchive::new(outside, begun, most);
//! archive.put(rt, alloc, &desk, &mut pass, 7)?;          // dump-0000009204-0000004711
//! archive.settle(rt, &desk, &mut pass)?;                 // journal-0000009300
//! ```
//!
//! **The one law** is [`image_may_be_put`]: a dump of an image that a desk found is one of what the folder's first
//! changes leave, whatever was entered and kept since. So the keeper may give it that name in any later turn
//! (`specs/Beginning.antt`), and what a start restores of it is the history
//! ([`history_is_restored`](recovery_core::history_is_restored)).
//!
//! # Mechanism
//!
//! The folder belongs to what keeps the changes, and that to the desk: its names change in turns alone, by errands of the
//! keeper. What takes long is done by whoever does not hold it ([`Outside`]): the dump is written and synced, and names are synced,
//! between two turns.
//!
//! # Cost
//!
//! A dump costs a line for each table, row and group of grants. It holds nobody up but for three turns, which copy
//! nothing and rename one file.
#![tactic(auto)]

mod archive;
mod beginning;
mod fault;
mod fitting;
mod laws;
mod outside;
mod putting;
mod starting;
mod tending;

pub use archive::Archive;
pub use fault::CheckpointFault;
pub use laws::image_may_be_put;
pub use outside::Outside;
pub use putting::{Begun, FolderArchive, FolderKeeper};
pub use starting::{Beginning, begin};
pub use tending::{CheckpointTaker, Plan};
