//! What is still to be written of a line.
ghost use Rattle.std.specs.Prelude.{◌≡◌, ◌≤◌, ℕ, List, Option, None, Some, drop, is_some, length, option_map, IfOk, IfSome};

use arrayvec::ArrayVec;
use base_core::NoMemory;
use std::alloc::Global;
use std::marker::Model;

/// The most bytes of a line of a journal, and its line feed.
pub const LINE_BYTES: usize = 4129;

/// Room for what is still to be written of a line, made once. Contracts see that, or None where
/// nothing is.
#[derive(Drop)]
pub struct Unwritten {
    line: Box<ArrayVec<u8, LINE_BYTES>>,
    /// How many bytes of the line were written.
    written: usize,
    is_owed: bool,
}

impl Model for Unwritten {
    ghost use Rattle.std.specs.Prelude.{◌≤◌, ℕ, List, Option, Some, None, if◌then◌else◌, drop, length};
    ghost use Rattle.journal_core.specs.declared.unwritten.TheConstants.{LINE_BYTES};

    ghost Value = { Option (List ℕ) };

    ghost view = { λ u. if u.is_owed then Some (drop u.written u.line.value.items) else None };

    ghost invariant = { λ u. (u.written ≤ length u.line.value.items)
        × (length u.line.value.items ≤ LINE_BYTES) };
}

impl Unwritten {
    /// Nothing. `NoMemory` where the request for room was refused.
    pub fn new(alloc: Global) -> Result<Unwritten, NoMemory>
        ensures { IfOk result (λ u. u ≡ None) }
    {
        let line = Box::new(alloc, ArrayVec::new())?;
        Ok(Unwritten {
            line,
            written: 0,
            is_owed: false,
        })
    }

    pub fn is_owed(&self) -> bool
        ensures { result ≡ is_some self.now }
    {
        self.is_owed
    }

    pub fn as_slice(&self) -> &[u8]
        ensures { IfSome self.now (λ rest. result.now ≡ rest) }
    {
        &self.line.as_slice()[self.written..]
    }

    /// From now on these bytes are still to be written.
    pub fn set(&mut self, rest: &[u8])
        requires { length rest.now ≤ LINE_BYTES }
        ensures { self.new ≡ Some rest.now }
    {
        self.line.clear();
        let _ = self.line.try_extend_from_slice(rest);
        self.written = 0;
        self.is_owed = true;
    }

    /// So many more bytes were written.
    pub fn advance(&mut self, count: usize)
        requires { IfSome self.old (λ rest. count ≤ length rest) }
        ensures { self.new ≡ option_map (drop count) self.old }
    {
        if self.is_owed {
            self.written += count;
        }
    }

    /// From now on nothing is.
    pub fn clear(&mut self)
        ensures { self.new ≡ None }
    {
        self.is_owed = false;
    }
}
