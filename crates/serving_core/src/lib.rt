//! The threads of a server, from its first session to its last.
//!
//! [`serve_on`] hands the passes of a desk to threads, which take sessions from one entrance, and
//! gives back the core and the keeper that they leave. **The one contract** is its clauses: so many
//! sessions were served as were asked for, unless it was told to stop; what is left came of these
//! sessions alone, from the core that was handed in; and the keeper, unless it has failed, kept
//! each change since then, in order and each once, from the state in which it was handed in.
//!
//! ```text
//! let served =
//!     serve_on(&rt, alloc, &entrance, 4, 100, system, keeper, manners, &mut err, &control)?;
//! served.taken.sessions                                                  // 100
//! ```
//!
//! So a file goes on: what the keeper wrote as lines behind a file that loads what the server began
//! with, loads with it what the server left (law [`gone_on_server_is_kept`]).
//!
//! # Mechanism
//!
//! A desk is built with a pass for each worker, one for the checkpointer, and one for a
//! [`Tender`](session_core::Tender), who tends what is kept of changes. Each worker has
//! besides one part of a token that takes no bytes, to which the door adds one for each session
//! that it admits. When all threads have ended their passes close the desk, and all parts of the
//! token together count what the door has taken. So the number that is told is that of the sessions
//! which went through the passes.
//!
//! The threads go on with sessions of any [`SessionMachine`](session_core::SessionMachine). Only
//! [`serve_on`] names one: its sessions are of lines or of PostgreSQL's messages, each as its client's
//! first byte says (`specs/Protocols.antt`).
//!
//! # Cost
//!
//! A thread for each worker, one that looks after checkpoints, and one of the tender.
#![tactic(auto)]

mod dealing;
mod laws;
mod own_passes;
mod serving;
mod threads;

pub use laws::{entries_are_by_right, gone_on_server_is_kept};
pub use serving::{Served, serve_on};
