//! The tokens of a line, or its leftmost lexical fault.
//!
//! A line is a list of bytes without its line end. Spaces and tabs separate tokens. A token is a
//! word (a keyword in any case, or a name of at most 30 bytes, its letters made small), a number of
//! `i64`, a text in single quotes (UTF-8 with no control character, a quote inside it doubled, at
//! most 1,024 bytes of content), or one of the marks `( ) , * ; = <> < <= > >=`. Each token is as
//! long as it can be.
//!
//! [`tokens`] is the one contract. A [`Token`] is its kind and its slice of the line, and what it
//! says is a lexeme: the keyword, the name's bytes, the number, the text's bytes, or the mark.
//! Contracts speak of the lexemes that a line says. The slice of each token spells its lexeme,
//! tokens lie in order, and between them stand blanks alone. Otherwise the answer is the first
//! fault from the left, with its code and its byte.
//!
//! ```text
//! tokens(alloc, b"a = 'it''s'")  // Ok: the name `a` at 0..1, `=` at 2..3, a text at 4..11
//! unquoted(alloc, b"'it''s'")    // Ok: it's
//! tokens(alloc, b"a = 'x")       // Err: OpenText at 4
//! ```
//!
//! That each line says something or has a fault, never both, never two things, two lists of tokens
//! or two faults, are laws, each on an empty function.
//!
//! Reading goes over the bytes of a line once, and over those of a word or a number once more, to
//! say which it is. [`tokens`] takes memory for its vector, and [`read_tokens`] where the vector that
//! it is given is too small, so that line after line takes none. [`unquoted`] takes memory for its
//! text, once. Nothing else takes any.
#![tactic(auto)]

mod bytes;
mod fault;
mod laws;
mod lexer;
mod mark;
mod number;
mod text;
mod token;
mod word;

pub use base_core::MAX_NAME;
pub use bytes::byte_at;
pub use fault::{Code, ReadFault};
pub use laws::{one_fault, one_list_of_tokens, one_reading, reading_or_fault, said_or_faulty};
pub use lexer::{MAX_LINE, is_blank, read_tokens, tokens};
pub use text::unquoted;
pub use token::{Mark, Token, TokenKind};
pub use word::word_len;
