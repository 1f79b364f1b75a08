//! The line that is being read, of which no more is kept than an answer can depend on.
ghost use Rattle.std.specs.Prelude.{◌≡◌, ◌++◌, [], take, length, IfOk};
ghost use Rattle.std.specs.Str.Lines.{strip_carriage_return};
ghost use Rattle.lines_core.specs.declared.line.TheConstants.{KEPT_BYTES};

use base_core::MAX_NAME;
use lexer_core::MAX_LINE;
use std::alloc::{AllocError, Global};
use std::marker::Model;

/// The most bytes of a line that a server may tell from any longer one: 4,128, which is room for a
/// user's name, a colon and a blank, and a statement.
pub const LONGEST_LINE: usize = MAX_NAME + 2 + MAX_LINE;

/// The most bytes of a line that are kept: those of the longest, a carriage return, and one that
/// makes the line too long.
pub const KEPT_BYTES: usize = LONGEST_LINE + 2;

const CARRIAGE_RETURN: u8 = b'\r';

/// The front of a line. Contracts see its bytes.
#[derive(Drop)]
pub struct Line {
    bytes: Vec<u8>,
}

impl Model for Line {
    ghost use Rattle.std.specs.Prelude.{◌≤◌, List, ℕ, vec_len, vec_capacity};
    ghost use Rattle.lines_core.specs.declared.line.TheConstants.{KEPT_BYTES};

    ghost Value = { List ℕ };

    ghost view = { λ l. l.bytes.items };

    ghost invariant = { λ l. (vec_len l.bytes ≤ KEPT_BYTES) × (KEPT_BYTES ≤ vec_capacity l.bytes) };
}

impl Line {
    /// A line with no bytes, and the memory for all that is kept of it.
    pub fn new(alloc: Global) -> Result<Line, AllocError>
        ensures { IfOk result (λ line. line ≡ []) }
    {
        let bytes = Vec::with_capacity(alloc, KEPT_BYTES)?;
        Ok(Line { bytes })
    }

    /// Adds the bytes, but for those behind the first [`KEPT_BYTES`] of the line. It takes no memory.
    pub fn extend(&mut self, part: &[u8])
        ensures { self.new ≡ take KEPT_BYTES (self.old ++ part.now) }
    {
        let room = KEPT_BYTES - self.bytes.len();
        let kept = &part[..part.len().min(room)];
        self.bytes.extend_from_slice(kept).unwrap();
    }

    /// The line with its last part, as far as it is kept. Of a line in one part nothing is copied.
    pub fn joined<'l>(&'l mut self, last: &'l [u8]) -> &'l [u8]
        ensures { result.now ≡ take KEPT_BYTES (self.old ++ last.now) }
    {
        if self.bytes.is_empty() {
            return kept(last);
        }
        self.extend(last);
        self.bytes.as_slice()
    }

    /// Takes all bytes away, and keeps the memory.
    pub fn clear(&mut self)
        ensures { self.new ≡ [] }
    {
        self.bytes.clear();
    }

    /// Its bytes, by themselves.
    pub fn into_bytes(self) -> Vec<u8>
        ensures { result.items ≡ self }
    {
        self.bytes
    }

    /// The bytes that are kept of the line.
    pub fn as_slice(&self) -> &[u8]
        ensures { result.now ≡ self.now }
    {
        self.bytes.as_slice()
    }
}

/// What is kept of these bytes, as a line.
fn kept(bytes: &[u8]) -> &[u8]
    ensures { result.now ≡ take KEPT_BYTES bytes.now }
{
    &bytes[..bytes.len().min(KEPT_BYTES)]
}

/// The bytes without the one carriage return at their end, if they have one.
pub fn without_carriage_return(bytes: &[u8]) -> &[u8]
    ensures { result.now ≡ strip_carriage_return bytes.now }
{
    match bytes.split_last() {
        Some((&CARRIAGE_RETURN, front)) => front,
        _ => bytes,
    }
}
