//! Bytes of a message.
ghost use Rattle.std.specs.Prelude.{◌≡◌, ℕ, List};

use std::marker::Model;

/// Bytes of a message, where they lie. Contracts see the list of them.
#[derive(Drop)]
pub struct Bytes<'a> {
    bytes: &'a [u8],
}

impl<'a> Model for Bytes<'a> {
    ghost Value = { List ℕ };

    ghost view = { λ b. b.bytes.now };
}

impl<'a> Bytes<'a> {
    /// These bytes.
    pub fn new(bytes: &'a [u8]) -> Self
        ensures { result ≡ bytes.now }
    {
        Bytes { bytes }
    }

    /// The bytes, for as long as they lie there.
    pub fn as_slice(&self) -> &'a [u8]
        ensures { result.now ≡ self.now }
    {
        self.bytes
    }
}
