//! Statements with places, prepared at a desk, and the rows that they would answer.
//!
//! A client of PostgreSQL's protocol prepares a statement before it sends values for its places: by Parse
//! it gives the text, and the types of as many places as it likes. [`prepare`] is the one contract. It
//! takes such a text of a user to the desk, changes nothing, and gives the statement and the type of each
//! of its places, or what stands in the way (`specs/Preparing.antt`, `Prepares`):
//!
//! - The text says one statement. A `;` may end it, and nothing but blanks stands behind that.
//! - A place whose type the client does not tell has that of the column for which it stands. The desk
//!   tells the columns of the statement's table, as it describes the statement with the number 1 in each
//!   place (`specs/Guessing.antt`). Where a place stands is seen from two more readings of the statement,
//!   one with 1, 2 and so on in its places, and one with 101, 102 and so on.
//! - The places of a command beside the language, as BEGIN is, are texts. A text without a statement has
//!   no places, and the desk is not asked.
//!
//! [`describe_rows`] tells, before a line is asked, of which [`Shape`] the rows are that it answers, and
//! their columns (`specs/Shapes.antt`). [`formats_of`] tells in which format each column of a result is
//! sent, by the codes of a Bind. [`fill_problem`] and [`bind_problem`] have what a client is told where
//! values do not come to a line (`specs/FaultProblems.antt`).
//!
//! ```text
//! // Parse: INSERT INTO pay VALUES ($1, $2), no types told
//! let prepared = prepare(rt, alloc, desk, pass, user, text, &parse.types, tokens)?;
//! // prepared.types: Text, Integer, where these are the types of pay's columns
//! let line = bind(alloc, prepared.text.as_slice(), prepared.types.as_slice(), &sent.formats, &sent.values)?;
//! match describe_rows(rt, alloc, desk, pass, user, line.as_slice(), tokens)? {
//!     Shape::Nothing => ..,
//!     Shape::Rows(columns) => ..,
//!     ..
//! }
//! ```
//!
//! # Cost
//!
//! Each of both takes one turn of the desk, which changes nothing, or none where the text says no
//! statement. [`prepare`] reads the statement three times, and [`describe_rows`] a line twice. Memory is
//! taken for the text, the line, the types and the columns.
#![tactic(auto)]

mod describing;
mod fault;
mod formats;
mod guessing;
mod prepared;
mod preparing;
mod problem;
mod shape;

pub use describing::describe_rows;
pub use fault::PrepareFault;
pub use formats::formats_of;
pub use prepared::Prepared;
pub use preparing::prepare;
pub use problem::{bind_problem, fill_problem};
pub use shape::Shape;
