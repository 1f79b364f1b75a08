//! Texts as they are put together.

use crate::shortage::found_or_short;
use base_core::{Moment, Name, NoMemory};
use itoa::Buffer;
use std::alloc::Global;

/// A text that grows. Where a request for memory is refused, something is left out of it, and its
/// end says so: whoever puts it together looks there, and nowhere else.
#[derive(Drop)]
pub struct Prose {
    alloc: Global,
    bytes: Vec<u8>,
    is_short: bool,
}

impl Prose {
    /// No text yet. It takes no memory.
    pub fn new(alloc: Global) -> Prose {
        Prose {
            alloc,
            bytes: Vec::new(alloc),
            is_short: false,
        }
    }

    /// What was put together so far.
    pub fn as_slice(&self) -> &[u8] {
        self.bytes.as_slice()
    }

    /// Whether something was left out.
    pub fn is_short(&self) -> bool {
        self.is_short
    }

    /// Notes whether something is left out besides.
    pub fn note(&mut self, is_short: bool) {
        self.is_short |= is_short;
    }

    /// Appends these bytes.
    pub fn put(&mut self, part: &[u8]) {
        let is_short = self.bytes.extend_from_slice(part).is_err();
        self.note(is_short);
    }

    /// What was found to be told. Nothing is, where a request for memory was refused.
    pub fn found<T: Drop>(&mut self, found: Result<Vec<T>, NoMemory>) -> Vec<T> {
        found_or_short(self.alloc, found, &mut self.is_short)
    }

    /// Whether the other text says the same, and nothing is left out of both.
    pub fn same(&self, other: &Prose) -> bool {
        !self.is_short && !other.is_short && self.bytes == other.bytes
    }

    /// Appends another text.
    pub fn append(&mut self, other: &Prose) {
        self.note(other.is_short);
        self.put(other.bytes.as_slice());
    }

    /// Appends a name.
    pub fn put_name(&mut self, name: &Name) {
        self.put(name.as_bytes());
    }

    /// A number in plain decimal.
    pub fn put_number(&mut self, number: u64) {
        let mut digits = Buffer::new();
        self.put(digits.format(number).as_bytes());
    }

    /// A moment, as `@15`.
    pub fn put_moment(&mut self, at: Moment) {
        self.put(b"@");
        self.put_number(at.0);
    }

    /// Appends so many blanks.
    pub fn put_blanks(&mut self, count: usize) {
        for _ in 0..count {
            self.put(b" ");
        }
    }

    /// Several parts, one after another.
    pub fn put_all(&mut self, parts: &[&[u8]]) {
        for part in parts {
            self.put(*part);
        }
    }

    /// All of the text. `NoMemory` where something was left out of it.
    pub fn finish(self) -> Result<Vec<u8>, NoMemory> {
        let Prose {
            bytes,
            is_short,
            ..
        } = self;
        if is_short { Err(NoMemory) } else { Ok(bytes) }
    }
}
