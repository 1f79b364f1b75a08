//! The folder of a server, on a disk.
//!
//! A [`Directory`] makes the calls of a [`Folder`](folder_core::Folder) in a directory of the system: pieces of a
//! journal are files `journal-P`, P the number of changes before it, and dumps are files `dump-P-Q`, of the first P
//! changes, with Q the piece with which each resumes. Numbers have ten digits. Nobody else may have it open.
//!
//! ```text
//! let (directory, hands) = open(&host, "data", false)?;
//! directory.begin_piece()?;             // journal-0000004711
//! hands.sync()?;                        // its lines are on the disk, and its name
//! ```
//!
//! What takes long is done by its [`Hands`], while it is written to: to have on the disk what was written, and to write a
//! dump, in a file `dump.new`, which [`put`](folder_core::Folder::put) gives its name.
//!
//! **No contract speaks of the disk.** Of a real directory nothing is known but that its calls were made, so
//! where they have come to is never known (`knows` is false). What is proved is which calls are made, and in which order, by
//! those who are generic over a folder.
//!
//! # Mechanism
//!
//! The directory is the only writer, and counts the line feeds that it wrote. Hands read that count before a sync, so
//! what they tell was written before it. A piece that is no longer written to is synced once more before the one
//! behind it, and between them the names.
//!
//! # Cost
//!
//! A write is one call of the system, and looks at its bytes once. A sync is one call, and two more where a piece has
//! begun since the last.
#![tactic(auto)]

mod directory;
mod dump_file;
mod hands;
mod history;
mod listing;
mod names;
mod opening;
mod piece;
mod scanning;
mod shared;
mod waiting;
mod waker;

pub use directory::Directory;
pub use dump_file::DumpFile;
pub use hands::{Hands, Syncer};
pub use history::History;
pub use listing::bytes_of_pieces;
pub use opening::{OpenFault, open};
pub use waker::Waker;
