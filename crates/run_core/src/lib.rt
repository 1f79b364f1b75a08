//! Lines answered between the streams of a process.
//!
//! [`answered`] answers a reader's lines from a core on, and gives what they leave with the keeper of
//! their changes ([`Left`]); it tells a fault on standard error, and gives the status in place.
//! [`status_of`] is the status at the end, behind an audit if one is asked for. The standard streams
//! are [`input`] and [`output`], of which a call that a signal interrupted is made again; places of
//! streams that are closed [can be filled](fill_closed_streams), so that no file is taken for one.
//!
//! **The one contract** is that of `answered`, over any reader, writer and keeper: the lines were
//! answered to their end, and each change was kept before its reply was written (`EndsKeptFrom` of
//! `script_core`).
//!
//! ```text
//! let left = answered(&rt, &mut input(&rt), &mut output(&rt)?, NoKeeper, system)?;
//! status_of(&rt, &left.system, false)                       // 0
//! ```
//!
//! The program for `run` alone stands on this crate, and `sysr` too. Nothing here loads a file, so
//! that the first row is written before what loads one is proved.
//!
//! # Cost
//!
//! What reading, answering and keeping cost, and a buffer of 65,536 bytes for the output.
#![tactic(auto)]

mod answering;
mod auditing;
mod streams;

pub use answering::{Left, answered, status_of};
pub use streams::{fill_closed_streams, input, output, tell};
