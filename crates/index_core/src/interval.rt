//! Intervals of values.
ghost use Rattle.std.specs.Prelude.{◌≡◌, ◌≤◌, ℕ, Some, true};
ghost use Rattle.std.specs.declared.cmp.Ordering.TheVariants as orderings;
ghost use Rattle.base_core.specs.Filter.{compares};
ghost use Rattle.base_core.specs.Values.{value_order};
ghost use Rattle.base_core.specs.declared.value.Value.{Value as values};
ghost use Rattle.index_core.specs.Keys.{key_of};
ghost use Rattle.index_core.specs.Rank.{rank};
ghost use Rattle.index_core.specs.Within.{admits, IsWithin};
ghost use Rattle.index_core.specs.declared.key.Key.{Key as keys};

use crate::key::Key;
use crate::rank::{above_lowest, rank};
use base_core::{Comparison, Value};

/// From one key to another. Contracts see, by `IsWithin`, the values of which keys are within.
#[derive(Clone, Copy)]
pub struct Interval {
    pub lowest: u64,
    pub highest: u64,
}

/// No value that is less than this one has a higher rank.
fn highest_below(value: &Value) -> u64
    ensures { (v : values)
        → value_order v value.now ≡ Some orderings.Less
        → rank v ≤ result }
{
    match value {
        Value::Int(number) => above_lowest(*number).saturating_sub(1),
        Value::Text(_) => rank(value),
    }
}

/// No value that is greater than this one has a lower rank.
fn lowest_above(value: &Value) -> u64
    ensures { (v : values)
        → value_order v value.now ≡ Some orderings.Greater
        → result ≤ rank v }
{
    match value {
        Value::Int(number) => above_lowest(*number).saturating_add(1),
        Value::Text(_) => rank(value),
    }
}

impl Interval {
    /// All values are within.
    pub fn whole() -> Interval
        ensures { (k : keys) (v : values) → IsWithin k result v }
    {
        Interval {
            lowest: 0,
            highest: u64::MAX,
        }
    }

    /// Its part from this key on.
    fn at_least(self, key: u64) -> Interval
        ensures { (n : ℕ)
            → admits self n ≡ true
            → key ≤ n
            → admits result n ≡ true }
    {
        Interval {
            lowest: self.lowest.max(key),
            highest: self.highest,
        }
    }

    /// Its part up to this key.
    fn at_most(self, key: u64) -> Interval
        ensures { (n : ℕ)
            → admits self n ≡ true
            → n ≤ key
            → admits result n ≡ true }
    {
        Interval {
            lowest: self.lowest,
            highest: self.highest.min(key),
        }
    }

    /// Its part with this key alone.
    fn only(self, key: u64) -> Interval
        ensures { admits self key ≡ true → admits result key ≡ true }
    {
        self.at_least(key).at_most(key)
    }

    /// The part of an interval of ranks where values stand so to the literal, or somewhat more.
    fn ranked(self, comparison: Comparison, literal: &Value) -> Interval
        ensures { (v : values)
            → admits self (rank v) ≡ true
            → compares comparison v literal.now ≡ true
            → admits result (rank v) ≡ true }
    {
        match comparison {
            Comparison::Equal | Comparison::NotEqual => self,
            Comparison::Less => self.at_most(highest_below(literal)),
            Comparison::LessEqual => self.at_most(rank(literal)),
            Comparison::Greater => self.at_least(lowest_above(literal)),
            Comparison::GreaterEqual => self.at_least(rank(literal)),
        }
    }

    /// The part of it where values stand so to the literal, or somewhat more: it may keep values
    /// that do not, and keeps each that does. An interval of fingerprints is narrowed by `=` alone.
    #[tactic(auto, unfolding(crate::specs::Keys::key_of))]
    pub fn narrowed(self, key: Key, comparison: Comparison, literal: &Value) -> Interval
        ensures { (v : values)
            → IsWithin key self v
            → compares comparison v literal.now ≡ true
            → IsWithin key result v }
    {
        match comparison {
            Comparison::Equal => self.only(key.of(literal)),
            _ => match key {
                Key::Fingerprint => self,
                Key::Rank => self.ranked(comparison, literal),
            },
        }
    }

    /// Whether a key is within.
    #[inline(always)]
    pub fn admits(self, key: u64) -> bool
        ensures { result ≡ admits self key }
    {
        self.lowest <= key && key <= self.highest
    }

    /// Whether a value is within, by its key.
    pub fn has(self, key: Key, value: &Value) -> bool
        ensures { result ≡ admits self (key_of key value.now) }
    {
        self.admits(key.of(value))
    }
}
