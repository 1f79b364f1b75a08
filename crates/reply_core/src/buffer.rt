//! The room in which lines are made that are told whatever memory there is.
ghost use Rattle.std.specs.Prelude.{◌≡◌, ◌≤◌, ◌+◌, ◌++◌, [], length, decimal, IfOk};
ghost use Rattle.reply_core.specs.declared.buffer.TheConstants.{REPLY_BYTES};

use base_core::{Name, NoMemory};
use itoa::Buffer;
use std::alloc::Global;
use std::marker::Model;

/// The most bytes of a line but for those of rows and of the records of exports: what a lack needs
/// that names two users, a column and a table of 30 bytes each, at a moment of 20 digits.
pub const REPLY_BYTES: usize = 191;

/// Room for a text of at most 191 bytes. Contracts see its bytes.
#[derive(Drop)]
pub struct ReplyBuffer {
    bytes: Vec<u8>,
}

impl Model for ReplyBuffer {
    ghost use Rattle.std.specs.Prelude.{◌≤◌, List, ℕ, length, vec_capacity};
    ghost use Rattle.reply_core.specs.declared.buffer.TheConstants.{REPLY_BYTES};

    ghost Value = { List ℕ };

    ghost view = { λ b. b.bytes.items };

    ghost invariant = { λ b. (REPLY_BYTES ≤ vec_capacity b.bytes)
        × (length b.bytes.items ≤ REPLY_BYTES) };
}

impl ReplyBuffer {
    /// No text, and the memory for each line that is made here. `NoMemory` where the request was
    /// refused.
    pub fn new(alloc: Global) -> Result<ReplyBuffer, NoMemory>
        ensures { IfOk result (λ text. text ≡ []) }
    {
        let bytes = Vec::with_capacity(alloc, REPLY_BYTES)?;
        Ok(ReplyBuffer { bytes })
    }

    /// Takes the text away, and keeps the memory.
    pub fn clear(&mut self)
        ensures { self.new ≡ [] }
    {
        self.bytes.clear();
    }

    /// The text.
    pub fn as_slice(&self) -> &[u8]
        ensures text { result.now ≡ self.now }
        ensures short { length result.now ≤ REPLY_BYTES }
    {
        self.bytes.as_slice()
    }

    /// Appends the bytes, for which there has to be room. It takes no memory.
    pub fn push(&mut self, part: &[u8])
        requires { length self.old + length part.now ≤ REPLY_BYTES }
        ensures text { self.new ≡ self.old ++ part.now }
        ensures length { length self.new ≡ length self.old + length part.now }
    {
        self.bytes.extend_from_slice(part).unwrap();
    }

    /// Appends a name, of at most 30 bytes.
    pub(crate) fn push_name(&mut self, name: &Name)
        requires { length self.old + 30 ≤ REPLY_BYTES }
        ensures text { self.new ≡ self.old ++ name.now }
        ensures short { length self.new ≤ length self.old + 30 }
    {
        self.push(name.as_bytes());
    }

    /// Appends a number in plain decimal, of at most 20 digits.
    #[inline(always)]
    pub fn push_number(&mut self, number: u64)
        requires { length self.old + 20 ≤ REPLY_BYTES }
        ensures text { self.new ≡ self.old ++ decimal number }
        ensures short { length self.new ≤ length self.old + 20 }
    {
        let mut digits = Buffer::new();
        self.push(digits.format(number).as_bytes());
    }
}
