//! Statements with places for parameters, as a client of PostgreSQL's wire protocol sends them.
//!
//! A client sends the text of a statement first, which may have several lines, and places `$1` to
//! `$99` where values are to stand; the values come later. Such a text is made a line of the
//! language, and the line is read as every line is (`reader_core::read_with`). So nothing of the
//! language changes, and a journal can write each statement that was read.
//!
//! - A text may have several statements, with `;` between them. [`first_statement`] cuts off the
//!   one that stands first; a `;` inside a text in quotes cuts nothing. [`is_empty_statement`]
//!   tells one of blanks alone.
//! - A place is `$` and digits that spell 1 to 99, outside texts in quotes, where no letter, digit
//!   or `_` follows. Any other `$` stays as it is, so the reader says `bad byte`.
//!   [`greatest_place`] is the greatest number of a place: how many values are needed.
//! - [`fill`] makes the line. A place becomes a blank, the literal of its value and a blank; a line
//!   end outside texts becomes a blank; all else stays. [`fill_with_ones`] has the number 1 in each
//!   place, for a text whose values are still to come. Of a fault in such a line [`position`] finds
//!   the byte of the text, and [`character`] counts which character that is.
//! - [`read_value`] makes a value of the bytes that a client sends for it.
//!
//! ```text
//! fill(&mut line, b"INSERT INTO t VALUES ($1, $2)", &[Value::Int(5), it_s])
//! // line: INSERT INTO t VALUES ( 5 ,  'it''s' )
//! ```
//!
//! What a filled line says is what its segments say, each alone, with exactly one literal for each
//! place between them, whatever bytes a text has: the law [`laws::places_say_literals`], of which
//! `specs/Meaning.antt` has the words. So no value changes what stands around it (law
//! [`laws::values_change_only_literals`]). Read first
//! `specs/Statements.antt`, `specs/Places.antt` and `specs/Filling.antt`. `specs/Putting.antt` and
//! `specs/Finding.antt` are machinery, of which no public clause speaks.
//!
//! Each call goes over the text once, byte by byte, and at each `$` over the digits behind it;
//! [`fill`] goes over it twice. Only the line takes memory, where its vector is too small, and a
//! text value of more than 14 bytes.
#![tactic(auto)]

mod fault;
mod filling;
pub mod laws;
mod places;
mod positions;
mod putting;
mod statements;
mod values;

pub use fault::{FillFault, ValueFault};
pub use filling::{fill, fill_with_ones};
pub use places::greatest_place;
pub use positions::{character, position};
pub use statements::{first_statement, is_empty_statement};
pub use values::read_value;
