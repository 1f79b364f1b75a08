//! Answers about rights as records, for programs.
//!
//! A record is a line of fields with commas between them, as an export has it. Each answer is a function of the
//! history and of the numbers of the lines that made its changes: `specs/Records.antt` says it to the byte.
//! [`rights_records`] are the rights in force, [`holders_records`] those of some privileges, [`fallen_records`]
//! the grants that fell, and [`grants_records`] all that were ever made.
//!
//! ```text
//! let text = fallen_records(alloc, &past)?;
//! // table,user,privilege,option,since,by,fell,how,revoke
//! // pay,eve,SELECT(name),no,6,di,10,fell,11
//! ```
//!
//! # Cost
//!
//! Each goes over the grants of the history once, and gathers its text in memory.
#![tactic(auto)]

mod cell;
mod consequences;
mod cutting;
mod differences;
mod givings;
mod held;
mod lives;
mod outcomes;
mod past;
mod rights;
mod steps;
mod writing;

pub use consequences::consequences_records;
pub use cutting::cut_records;
pub use differences::{Difference, difference_of, differences_records};
pub use givings::{Gain, gain_of, givings_records, may_grant, users_named};
pub use held::Held;
pub use lives::{fallen_records, grants_records};
pub use outcomes::{Outcome, Outcomes};
pub use past::Numbered;
pub use rights::{holders_records, rights_records};
pub use steps::reasons_records;
