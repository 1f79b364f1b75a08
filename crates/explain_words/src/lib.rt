//! How the rights of a history are told: in sentences, and as graphs.
//!
//! A [`Past`] is what is told of: a [`History`](explain_core::History), the tables, and the journal with
//! the number of each change's line. Of it there are the reasons why a user holds privileges or lost
//! them ([`put_reasons_of`], [`put_why_graph`]); who holds them ([`put_holders`],
//! [`put_grants_graph`]); all that fell ([`put_all_fallen`]); what the last change took
//! ([`put_consequences`]); what came and fell since a moment ([`put_differences`]);
//! whom a user could give a privilege to ([`put_givings`]); and what would take a privilege
//! ([`put_cuts`]). Records of the same are in
//! `explain_records`, whose contracts say them to the byte.
//!
//! ```text
//! let mut text = Prose::new(alloc);
//! put_reasons_of(&mut text, alloc, &past, &eve, &pay, &atoms)?;
//! // eve lacks SELECT on pay @23
//! //   @15 di -> eve, fell @23           line 15: di: GRANT SELECT ON pay TO eve
//! ```
//!
//! Which grants are told is by the contracts of `explain_core`; in which words they are told is tested.
//! Where a list has more than 24 grants, it shows the first ten and the last ten; records have no such
//! folds.
//!
//! # Cost
//!
//! Each call goes over the lives of a history once for each atom that it is asked for, and besides
//! over chains and descents; of what was lost over the lives of its privilege for each step of a
//! descent. A text is gathered in memory.
#![tactic(auto)]

mod cutting;
mod differences;
mod dot;
mod fallen;
mod folds;
mod format;
mod giving;
mod held;
mod holders;
mod hypothesis;
mod lives;
mod lost;
mod past;
mod privileges;
mod prose;
mod quoting;
mod reasons;
mod rows;
mod shortage;
mod teller;

pub use cutting::{put_cuts, uncut_remark};
pub use differences::put_differences;
pub use dot::{put_grants_graph, put_why_graph};
pub use fallen::put_all_fallen;
pub use format::Format;
pub use giving::put_givings;
pub use holders::put_holders;
pub use hypothesis::put_consequences;
pub use past::Past;
pub use privileges::{atoms_of_table, push_columns, push_one};
pub use prose::Prose;
pub use reasons::put_reasons_of;
