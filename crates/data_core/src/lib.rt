//! The journal of a server in its own folder.
//!
//! [`Pieces`] is a writer of the journal's lines to the piece of a [`Folder`](folder_core::Folder) that is written to. Between
//! writes it learns what was synced, gives a dump its name, goes on in a new piece, and removes what the newest
//! dump has made old.
//!
//! ```text
//! let mut pieces = Pieces::new(folder, 4711, 0, 0);    // the journal goes on behind 4,711 changes
//! pieces.write(b"ann: DELETE FROM pay\n")?;
//! pieces.tell(handle.sync()?);                         // 4712 changes are on the disk
//! pieces.put(4712, dump)?;                             // dump-0000004712-0000004711
//! pieces.settle(handle.sync_names()?);                 // the dump is the newest
//! pieces.begin_piece()?;                               // journal-0000004712
//! ```
//!
//! **The one contract.** Each of these calls makes one step of the folder, or says why not (`specs/Tending.antt`): `Early`
//! where a server may not make it yet, and only there; or `Broken`, where the folder failed. None of them changes the
//! text of the journal. So what keeps changes as lines in a writer goes on as if no call had been made.
//!
//! # Mechanism
//!
//! A writer knows where it is by a few numbers, which it keeps beside the folder (`specs/Written.antt`, `IsAt`). They
//! decide what may be done, so nothing is looked up in the folder.
//!
//! # Cost
//!
//! A call is one of the folder. Nothing is synced here: that takes long, and is done by whoever does not hold the
//! writer.
#![tactic(auto)]

mod fault;
mod pieces;
mod place;

pub use fault::TendFault;
pub use pieces::Pieces;
