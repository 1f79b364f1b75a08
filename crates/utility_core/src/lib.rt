//! Commands that clients of PostgreSQL send beside statements, and that the language has not.
//!
//! A driver or a pool says more than its user does: it opens a block, asks for the version,
//! sets the name of the application, and throws away what it had prepared. [`command_of`] tells
//! from the tokens of a line which [`Command`] it is, if it is one. What is done then is up to
//! the caller, and so is every other line.
//!
//! The words of a line are what its tokens are there, in small letters, and a `;` at the end
//! does not count. A command is told by these words alone, so the contract is one look-up: the
//! first row of a table that fits. A row has the first words of a command, what may stand
//! behind them, and the command. `specs/Forms.antt` has the rows, and `specs/Commands.antt`
//! says what fits. SET has a table of its own, for what stands behind SESSION or LOCAL. The
//! code has the same tables in `forms`, and they are proved to be the same.
//!
//! ```text
//! begin isolation level read committed;   // Begin
//! SET client_encoding TO 'UTF8'           // Set
//! SET client_encoding TO 'LATIN1'         // UnknownSetting
//! show DateStyle                          // Show: the column `DateStyle` has `ISO, MDY`
//! DEALLOCATE PREPARE s1                   // Deallocate: token 2 is the name
//! SAVEPOINT a                             // Unserved
//! SELECT name FROM pay                    // None: the language has it
//! ```
//!
//! A [`Setting`] is one whose value a client may ask for, with its name as PostgreSQL heads the
//! column and its value as text. No setting ever changes: a SET that asks for what is, or that
//! means nothing to numbers and texts, is [`Command::Set`], and any other is
//! [`Command::UnknownSetting`].
//!
//! Two texts of clients are no list of tokens. The language has no dot, so [`is_version_question`]
//! tells `select pg_catalog.version()` by its bytes. And no word begins with `_`, as the names do that
//! drivers give to their own statements, so [`underscored_name`] finds that of `DEALLOCATE _pg3_0`.
//!
//! No statement of the language is a command. [`statement_or_command`] is that law: its first word
//! says so, and of a SELECT the comma or FROM behind its first item.
//!
//! Each row is compared from its first word on, and hardly one goes past it. So a line costs
//! less than a hundred comparisons of words, and twelve for each word behind BEGIN. Nothing
//! takes memory.
#![tactic(auto)]

mod command;
mod forms;
mod laws;
mod reading;
mod words;

pub use command::{Command, Setting};
pub use laws::statement_or_command;
pub use reading::{command_of, is_version_question, underscored_name};
