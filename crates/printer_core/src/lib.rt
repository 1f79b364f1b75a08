//! Statements printed, and the lines of a journal.
//!
//! A statement has two texts (`specs/Printing.antt`), and each is read back as the statement. The
//! canonical one is for people: keywords are in capitals, names in small letters, numbers in plain
//! decimal, and one space stands between two tokens, but none behind `(`, none before `)` and `,`,
//! and no `;` at the end. The minified one leaves out each space that may be left out: no line that
//! says the same has fewer bytes.
//!
//! [`print`] gives the canonical text, unless it has more than 4,096 bytes, the most that a line may
//! have. A journal has to write each statement that was read, whatever its length. So
//! [`Page::line`], the one contract beside, writes `user: statement` in canonical text where that
//! line has at most 4,096 bytes, and else `user:statement` in minified text:
//!
//! ```text
//! let statement = read(alloc, b"select NAME from PAY where WAGE<0;")?;
//! print(alloc, &statement)                // Ok: SELECT name FROM pay WHERE wage < 0
//! let mut page = Page::new(alloc)?;
//! page.line(ann, &statement)              // ann: SELECT name FROM pay WHERE wage < 0
//! ```
//!
//! Of definitions alone it is proved that what is printed is read back ([`printed_is_read`],
//! [`read_is_printed`], [`read_is_minified`]), that no line is shorter than the minified text of
//! what it says ([`no_line_is_shorter`]), that a line of a journal has at most 4,128 bytes
//! ([`journal_line_is_short`]) and no line end ([`journal_line_is_one_line`]), and that what stands
//! behind its colon is read back ([`journal_line_is_read`]). Each is the contract of an empty
//! function.
//!
//! Printing goes over the statement once, and for a line in minified text twice. A [`Page`] takes
//! its memory when it is made, and writing on it takes none; [`print`] makes one for each text.
#![tactic(auto)]

mod journal;
mod laws;
mod page;
mod printed;
mod printing;
mod spacing;

pub use laws::{
    journal_line_is_one_line, journal_line_is_read, journal_line_is_short, no_line_is_shorter,
    printed_is_read, read_is_minified, read_is_printed,
};
pub use page::Page;
pub use printing::{PrintFault, print};
