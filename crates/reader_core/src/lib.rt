//! Statements read from lines.
//!
//! A [`Statement`] is one of eleven: CREATE TABLE, INSERT, SELECT, DELETE, UPDATE, GRANT, REVOKE,
//! REVOKE GRANT OPTION FOR, CHECKPOINT, CHECKPOINTS and EXPORT. Its lists keep the limits of the
//! language by their types: 1 to 32 columns, names, values or assignments, at most 32 conditions, 1
//! to 16 users, and where the language asks for different names (or, of privileges, for different
//! words) they differ.
//! Contracts see a statement as plain data: names and texts as their bytes, lists as lists, the
//! number of a checkpoint as a number.
//!
//! [`read`] is the one contract of reading. A line is cut into tokens by `lexer_core`, and the
//! grammar stands in `specs/Language.antt` as data, which reads like the rules that it is written
//! from. Ok is the one statement that the line spells. Otherwise the answer is the line's one fault
//! with its byte: its leftmost lexical fault; else `Empty`; else the leftmost token at which one of
//! these holds, the first in this order: `Trailing` (the tokens before it are a whole statement,
//! and with it they begin none), `Expected` (with it they begin none), `Duplicate` (a name or the
//! word of a privilege that stands earlier in its list, where they have to differ), `TooMany` (the
//! first token of an item past its list's limit). Where no token has a fault but the statement is
//! not whole, it is `Expected` at the end of the line. That each line spells a statement or has a
//! fault, never both, never two statements and never two faults, are laws, each on an empty
//! function of [`laws`], and so is that no choice of the grammar is between parts that begin with
//! the same token.
//!
//! ```text
//! read(alloc, b"select NAME from PAY where WAGE<0;")  // Ok: a Select
//! read(alloc, b"SELECT a, a FROM t")                  // Err: Duplicate at 10
//! ```
//!
//! Read first [`Statement`] and its parts in `statement`, `privilege` and `checkpoint`, and then
//! `specs/Language.antt`, which stands on `specs/Grammar.antt` and `specs/Matches.antt`: what is
//! read, and what it means. The rest is machinery, of which no public clause speaks: the reader in
//! `parsing`, with `specs/Cursor.antt` for what each part of it takes and `specs/Recogniser.antt`
//! for how the one fault is found token by token. `specs/Choices.antt` is what the law `one_choice`
//! says.
//!
//! Reading goes over the tokens of a line once, with no look back and one token ahead. An item of a
//! list is compared with those before it, of which there are at most 32. [`read`] takes memory for
//! the tokens, the lists and the texts, and answers `NoMemory` where it is refused.
#![tactic(auto)]

mod checkpoint;
pub mod laws;
mod parsing;
mod privilege;
mod reading;
mod separator;
mod statement;

pub use checkpoint::CheckpointNumber;
pub use privilege::{MAX_PRIVILEGES, Privilege, Privileges};
pub use reading::{read, read_with};
pub use separator::Separator;
pub use statement::{MAX_ITEMS, MAX_USERS, Statement};
