//! The words that every other crate speaks: names, texts, values, conditions, privileges, lacks,
//! limits, and streams of bytes.
//!
//! A value of this crate is plain data, and contracts see it as such: a [`Name`] and a [`Text`] as
//! the list of their bytes, a [`Sequence`], [`Compact`], [`Limited`], [`Distinct`], [`Values`],
//! [`ValuesBuilder`] or [`SeveralValues`] as the list of its items, the enums and the structs with
//! public fields as themselves. So two values are `≡` in a contract exactly where a client can't
//! tell them apart.
//!
//! What a type promises stands in its invariant, once: a [`Name`] is a word of at most 30 bytes in
//! small letters that is no keyword, a [`Text`] is at most 1,024 bytes of UTF-8 with no control
//! character, a [`Limited`] holds no item to its limit, a [`Distinct`] one to its limit with
//! different names, [`SeveralValues`] are one to their limit, and [`Limits`] stay within what the
//! core can count.
//!
//! ```text
//! Name::read(b"Pay")     // Some: the name `pay`
//! Name::read(b"select")  // None: a keyword
//! ```
//!
//! [`Source`] and [`Sink`] are the readers and writers of the whole workspace: their ghost members
//! say which bytes are left, were taken or were handed on, and whether an error came, so that
//! contracts above can name the bytes. A [`Gate`] is told how sessions and captures go on; no contract
//! speaks of it.
//!
//! A name is `Copy`, and its comparison and hash go over its bytes. A look-up by name in a row goes
//! over the columns. Copies of rows, values and texts take no memory: the [`Values`] of a row and a
//! long text stand on the heap once for all copies, and a short text stands in the value. A
//! [`ValuesBuilder`] gathers the values of a short row without memory of its own.
#![tactic(auto)]

mod bounded;
mod builder;
mod compact;
mod condition;
mod gate;
mod keyword;
mod lack;
mod limits;
mod memory;
mod name;
mod privilege;
mod sequence;
mod shared;
mod stream;
mod text;
mod unbuffered;
mod value;
mod word;

pub use bounded::{Distinct, Limited, Named, SeveralValues};
pub use builder::ValuesBuilder;
pub use compact::Compact;
pub use condition::{Assignment, Comparison, Condition, column_index};
pub use gate::{Gate, NoGate};
pub use keyword::Keyword;
pub use lack::{Lack, What};
pub use limits::Limits;
pub use memory::{NoMemory, Twin};
pub use name::{Name, User};
pub use privilege::{Atom, Kind};
pub use sequence::{Sequence, twins_of};
pub use shared::Values;
pub use stream::{Broken, Resume, Sink, Source, StdSink, StdSource, write_all};
pub use text::Text;
pub use unbuffered::Unbuffered;
pub use value::{ColType, Column, Moment, Row, Value};
pub use word::{MAX_NAME, Word, is_word_byte};
