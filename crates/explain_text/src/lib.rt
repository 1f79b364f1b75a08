//! Questions about rights, and their answers as text.
//!
//! [`history_asked`] gives the [`History`](explain_core::History) that a [`Question`] is about: that
//! of the changes that were read, and of the one that the question supposes. By it [`explain`]
//! writes the answer in a [`Format`](explain_words::Format), with each moment's line quoted.
//!
//! **The contract**: the history is that of the core's journal, and a supposed line is entered as a
//! session's would be. `explain` fails exactly where its writer does, and writes nothing where there
//! is no answer. Why there is none is told in the words of `specs/FaultTexts.antt`.
//!
//! ```text
//! eve lacks SELECT on pay @23
//!   @15 di -> eve, fell @23           line 15: di: GRANT SELECT ON pay TO eve
//!     by this REVOKE                  line 25: ann: REVOKE SELECT ON pay FROM bob
//!     of @12 ann -> bob, with option  line 12: ann: GRANT SELECT ON pay TO bob WITH GRANT OPTION
//!     so @14 bob -> di, with option, fell
//!         line 14: bob: GRANT SELECT ON pay TO di WITH GRANT OPTION
//!     so this one fell
//!     @17 ann -> di did not keep @15: it has no option, and is not earlier
//! ```
//!
//! A privilege is read as the language reads it in GRANT, and stands for as many atoms: SELECT for
//! that of each column of the table. Columns of which the same is told are told together. Where
//! `why` lists more than 24 grants, it shows the first ten and the last ten. Records have no such
//! folds.
//!
//! [`explain_fault_text`] says why a question has no answer. It may be the question that has none
//! ([`is_of_the_question`](ExplainFault::is_of_the_question)), or the writer or memory failed.
//!
//! # Cost
//!
//! The history is read once. Who ends behind the answer may forget it: to let it go takes a call
//! for each change. Each question goes over its lives once for each atom that it asks for,
//! `why` and `if` besides over chains and descents, and `why` of what was lost over the lives of
//! its privilege for each step of a descent. The text is gathered in memory before it is written.
#![tactic(auto)]

mod asked;
mod explaining;
mod fault;
mod question;
mod reading;
mod words;

pub use explaining::{Answered, explain};
pub use fault::{ExplainFault, Unanswered, explain_fault_text};
pub use question::Question;
pub use reading::history_asked;
