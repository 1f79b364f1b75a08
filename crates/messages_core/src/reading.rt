//! What stands first in bytes that came.

use crate::bytes::Bytes;

/// What stands first in the bytes that have come so far.
#[derive(Drop)]
pub enum Reading<'a, M, F> {
    /// A whole message, and what has come behind it.
    Whole { message: M, rest: Bytes<'a> },
    /// A part of one: more bytes are wanted.
    Part,
    /// Something else, whatever may come.
    Faulty(F),
}
