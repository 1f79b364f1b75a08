//! Numbers of checkpoints.
ghost use Rattle.std.specs.Prelude.{◌≡◌, ◌<◌, ◌≤◌, ◌^◌};

use std::marker::Model;

/// The number of a checkpoint, from 1 to 2^63 - 1. Contracts see the number.
#[derive(Clone, Copy, PartialEq, Eq)]
pub struct CheckpointNumber {
    number: u64,
}

impl Model for CheckpointNumber {
    ghost use Rattle.std.specs.Prelude.{ℕ, ◌<◌, ◌≤◌, ◌^◌};

    ghost Value = { ℕ };

    ghost view = { λ c. c.number };

    ghost invariant = { λ c. (1 ≤ c.number) × (c.number < 2 ^ 63) };

    ghost inverse = { λ n. record { number = n } };
}

impl CheckpointNumber {
    /// The checkpoint of this number. The first that begins is 1.
    pub fn new(number: u64) -> CheckpointNumber
        requires positive { 1 ≤ number }
        requires within { number < 2 ^ 63 }
        ensures { result ≡ number }
    {
        CheckpointNumber { number }
    }

    /// Its number.
    pub fn get(self) -> u64
        ensures number { result ≡ self }
        ensures positive { 1 ≤ self }
        ensures within { self < 2 ^ 63 }
    {
        self.number
    }
}
