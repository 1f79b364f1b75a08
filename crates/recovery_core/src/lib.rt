//! The start of a server from its folder.
//!
//! [`recover`] makes a core of what stands in a [`Folder`](folder_core::Folder), whatever a crash left there: of the
//! newest dump, and of the lines of the journal's pieces behind it, as far as one begins where the one before
//! it ends. Then the journal goes on behind them, in a piece of its own.
//!
//! ```text
//! let Recovered { system, at, .. } = recover(alloc, &mut folder, 16, Limits::full())?;
//! println!("loaded {at} changes");             // a dump of the first 4,000, and 711 lines
//! ```
//!
//! **The one contract** (`specs/Recovered.antt`): these lines load the journal of the core, which has nothing else;
//! and the folder goes on with the history cut to just these changes, all told ones among them. Since a folder takes
//! no call that a server may not make, a crash at any moment of a start leaves what it found, or what it has made
//! of that.
//!
//! # Mechanism
//!
//! Nothing is changed before all was read, and what was read is on the disk first: until then a loss of power counts
//! as the crash that came before. Then pieces that do not join are removed, that is on the disk, and the next
//! piece is begun.
//!
//! # Cost
//!
//! A dump and the lines behind it are read once, each line as [`load_core`] reads it. The memory is that of the core
//! and one number for each file.
#![tactic(auto)]

mod fault;
mod history;
mod pieces;
mod recovered;
mod recovering;
mod recovery;

pub use fault::RecoveryFault;
pub use history::{HistoryDumps, history_is_restored};
pub use recovered::Recovered;
pub use recovery::recover;
