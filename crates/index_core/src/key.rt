//! Keys of values.
ghost use Rattle.std.specs.Prelude.{◌≡◌};
ghost use Rattle.index_core.specs.Keys.{key_of};

use crate::fingerprint::fingerprint;
use crate::rank::rank;
use base_core::Value;

/// What an index keeps of each value: 64 bits, by which it is looked up.
#[derive(Clone, Copy, PartialEq, Eq)]
pub enum Key {
    /// For one value: the bits of a number, or what the bytes of a text come to.
    Fingerprint,
    /// For values from one to another: keys in the order of the values.
    Rank,
}

impl Key {
    /// The key of a value.
    #[tactic(auto, unfolding(crate::specs::Keys::key_of))]
    pub fn of(self, value: &Value) -> u64
        ensures { result ≡ key_of self value.now }
    {
        match self {
            Key::Fingerprint => fingerprint(value),
            Key::Rank => rank(value),
        }
    }
}
