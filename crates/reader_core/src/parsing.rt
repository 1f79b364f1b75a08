//! The reader: one pass over the tokens of a line, with one token ahead.
//!
//! `reader` takes single tokens, `list` the items of a list, each of which `items` says how to read
//! and `first_tokens` where it begins. `parts` and `sentence` join them: there the bodies stand
//! beside the grammar of `specs/Language.antt`, rule by rule. What a call does to the tokens that
//! are left is said by `specs/Cursor.antt`.

mod first_tokens;
pub mod items;
pub mod list;
mod parts;
pub mod reader;
mod sentence;
