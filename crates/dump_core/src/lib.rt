//! The dump of a journal, and its laws.
//!
//! A dump says what a journal leaves, as a journal of its own: the tables in the order of their
//! creation, each created by its owner; their rows in order, each inserted by the owner; and the
//! grants in force in order, each made by its grantor. Neighbours among the grants stand in one
//! statement where one could make them. So a dump has at most as many changes as there are tables,
//! rows and grants in force, however many led to them. It is the way out of the limit of changes,
//! and how a server is moved.
//!
//! ```text
//! ann: CREATE TABLE pay (name TEXT, wage INTEGER)
//! ann: INSERT INTO pay VALUES ('Bo', 5)
//! ann: INSERT INTO pay VALUES ('Cy', 7)
//! ann: GRANT SELECT, INSERT ON pay TO bob WITH GRANT OPTION
//! bob: GRANT SELECT (name) ON pay TO eve
//! ann: DELETE FROM pay WHERE name = 'Bo'
//! ann: REVOKE INSERT ON pay FROM bob
//! ```
//!
//! has the dump
//!
//! ```text
//! ann: CREATE TABLE pay (name TEXT, wage INTEGER)
//! ann: INSERT INTO pay VALUES ('Cy', 7)
//! ann: GRANT SELECT (name, wage) ON pay TO bob WITH GRANT OPTION
//! bob: GRANT SELECT (name) ON pay TO eve
//! ```
//!
//! The laws of [`laws`] say that the dump of a lawful journal is lawful; that it leaves the same
//! tables, rows and grants in force, in the same order; and that from then on each statement is
//! judged alike, whatever changes are said to both. What differs are the numbers of rows and of
//! grants, and moments. Journals that leave the same have one dump, and a dump is its own.
//!
//! # Which grants stand in one statement
//!
//! A statement grants its first privilege to each user, then its second, and so on, where SELECT
//! and UPDATE of several columns are as many privileges. So neighbours are put together twice.
//! First those of one privilege, to different users; then of these the neighbours to the same
//! users, as long as their privileges are a list that a statement may have. A revocation parts what
//! one statement made:
//!
//! ```text
//! ann: GRANT SELECT (name, wage, tax), UPDATE (name) ON pay TO bob, eve
//! ann: REVOKE SELECT (wage) ON pay FROM eve
//! ```
//!
//! leaves grants that are dumped as
//!
//! ```text
//! ann: GRANT SELECT (name) ON pay TO bob, eve
//! ann: GRANT SELECT (wage) ON pay TO bob
//! ann: GRANT SELECT (tax), UPDATE (name) ON pay TO bob, eve
//! ```
//!
//! # Why the moments of grants may differ
//!
//! A grant supports another only from an earlier moment, and the grants of one statement share
//! theirs. In the dump, grants of one moment may come apart, and grants of several moments
//! together. Yet in the order in which they were made the same ones are valid. Those of one
//! statement have one grantor, so that one of them could support another only if he had granted to
//! himself. What let him do so is earlier, and supports the other too.
//!
//! # The text
//!
//! [`write_dump`] is the main contract beside the laws. It writes the dump of what a core has as the
//! lines of a script, `user: statement`, each with a line feed behind it, and has the writer hand
//! them on.
//!
//! ```text
//! write_dump(alloc, &system, &mut sink)?;        // ann: CREATE TABLE pay (name TEXT, wage INTEGER)
//! ```
//!
//! After `Ok` a line says each statement of the dump: its minified text spells it, and its user is
//! named. So each is read again, and its lines load the dump (law
//! [`dump_is_loaded`](laws::dump_is_loaded)). UPDATE can make a row that no
//! INSERT of 4,096 bytes says: then [`DumpFault::LongRow`] names the first, behind the lines of all
//! that stands before it. No other statement of a dump is so long, since names have at most 30
//! bytes, and each list has a limit. A fault of the writer, and memory that was refused, leave a
//! front of the text.
//!
//! [`write_image`] writes the dump of what a checkpoint's image keeps, which is that of the journal at the
//! image's point (law [`image_is_dumped`](laws::image_is_dumped)): an image stays what it is while everybody
//! goes on.
//!
//! # Cost
//!
//! Statements are made, printed and written one by one, so that memory is taken for one at a time,
//! for a page of one line, and for a copy of the grants in force. Before that the journal is gone
//! over once, for what the types of its statements keep. A statement copies a list of at most 32
//! items. GRANT looks at each grant that it makes, and at those of the atom behind them: it compares
//! each with the users of its atom so far, of whom there are at most 16, and the first of each atom
//! with the kinds so far, of which there are at most 66.
#![tactic(auto)]

mod contents;
mod fault;
pub mod laws;
mod neighbours;
mod privileges;
mod statements;
mod well_formed;
mod writing;

pub use fault::DumpFault;
pub use writing::{write_dump, write_image};
