//! The reference monitor: the one place that says whether a user's statement may be carried out.
//!
//! The word is Anderson's (Computer Security Technology Planning Study, 1972): one judge of every
//! access, apart from what carries out, that is always asked, that those whom it judges can't
//! change, and that is small enough to be read and shown to be right as a whole. So this crate
//! keeps nothing and changes nothing. It borrows what there is, and answers. What carries out
//! stands in the crates above, and goes by an [`Allowed`].
//!
//! [`judge`] is the one contract. A statement has a list of checks, in an order that belongs to the
//! language: that the table stands, that the columns named are the table's, that the user holds
//! what is needed, that counts and types fit, that there is room. `specs/Verdict.antt` has these
//! lists, one for each kind of statement, and reads like a table. The answer is `Ok` where no check
//! fails, and else the lack of the first that does; where a check goes over several names,
//! privileges, users or values, that of the first in the order written. The rules of rights are
//! those of System R (Griffiths and Wade 1976): the owner holds and may grant everything on his
//! table, and everyone else what the grants in force give him. SELECT and UPDATE are granted by
//! column. A query needs SELECT of each column that it gives; and who chooses rows by what they
//! hold reads it: each statement needs SELECT of each column of its WHERE.
//!
//! ```text
//! // t (n TEXT, x INTEGER) is owned by o, who granted DELETE on it to d and nothing else
//! judge(&tables, &rights, &limits, o, &"SELECT y FROM t WHERE z = 1", moment)
//!                                                  // Err(NoColumn { table: t, column: y })
//! judge(&tables, &rights, &limits, d, &"DELETE FROM t WHERE x = 1", moment)
//!                                                  // Err(NoPrivilege { user: d, atom: SELECT(x) on t })
//! judge(&tables, &rights, &limits, d, &"DELETE FROM t", moment)
//!                                                  // Ok(Allowed { change: true })
//! ```
//!
//! [`allows`] answers the same without the lack, for whoever first asks whether there is one.
//!
//! It judges over any [`Authority`](grants_core::Authority), by that trait's contracts alone. Lacks
//! of checkpoints and exports are not its matter, but for a table that an export names and that
//! does not stand. It takes no memory, so it never answers that memory was refused.
//!
//! # Cost
//!
//! No row is read, and neither the number of rows nor that of changes matters. A table is found in
//! constant time, and a column by going over the table's columns: so names cost names times
//! columns, each at most 32. Each question after a right or after room costs what the authority's
//! answer does (of a plain replay: the grants in force). INSERT asks one; SELECT one whether the
//! user owns the table, and where he does not one for each column, as all do for WHERE; DELETE one
//! more, and UPDATE one for each column of SET; GRANT two for each privilege, however many users
//! there are; and REVOKE, of the option too, one for each privilege and each user, which is at most
//! 66 times 16, since SELECT and UPDATE without columns count for each column of the table.
#![tactic(auto)]

mod allowed;
mod atoms;
mod checks;
mod judging;
pub mod laws;
mod monitor;

pub use allowed::Allowed;
pub use atoms::ByColumn;
pub use checks::columns_of;
pub use monitor::{allows, is_change, judge};
