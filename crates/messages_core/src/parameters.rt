//! The parameters of a start, read one by one.
ghost use Rattle.std.specs.Prelude.{◌≡◌, ◌↔◌, [], ◌∷◌, option_map, IsTrue, IfSome, IfNone};
ghost use Rattle.std.specs.Iterator.{YieldsFirstBy, item_count};
ghost use Rattle.messages_core.specs.Reading.{parameter_at};
ghost use Rattle.messages_core.specs.Start.{SayParameters, AreNoParameters};

use crate::fields::text_at;
use std::marker::Model;

/// A name that is not empty, and a value, and what is behind them.
#[tactic(auto, unfolding(crate::specs::Reading::parameter_at))]
fn parameter_at(bytes: &[u8]) -> Option<((&[u8], &[u8]), &[u8])>
    ensures { option_map (λ x. ((x.0.0.now, x.0.1.now), x.1.now)) result ≡ parameter_at bytes.now }
{
    let (name, behind) = text_at(bytes)?;
    if name.is_empty() {
        return None;
    }
    let (value, rest) = text_at(behind)?;
    Some(((name, value), rest))
}

/// Names, each with its value, one after another. Contracts see the list of those that are left.
#[derive(Drop)]
pub struct Parameters<'a> {
    left: usize,
    bytes: &'a [u8],
}

impl<'a> Model for Parameters<'a> {
    ghost use Rattle.std.specs.Prelude.{ℕ, List};
    ghost use Rattle.messages_core.specs.Reading.{items_in, parameter_at};

    ghost Value = { List (List ℕ × List ℕ) };

    ghost view = { λ s. items_in parameter_at s.left s.bytes.now };
}

impl<'a> Parameters<'a> {
    /// The same, from the first that is left.
    pub fn iter(&self) -> Parameters<'a>
        ensures { result ≡ self.now }
    {
        let Parameters { left, bytes } = *self;
        Parameters { left, bytes }
    }
}

impl<'a> Iterator for Parameters<'a> {
    type Item = (&'a [u8], &'a [u8]);

    ghost next_gives = { YieldsFirstBy (λ p. (p.0.now, p.1.now)) (λ left. left) };

    ghost remaining = { item_count (λ left. left) };

    fn next(&mut self) -> Option<(&'a [u8], &'a [u8])> {
        if self.left == 0 {
            return None;
        }
        let (item, rest) = parameter_at(self.bytes)?;
        self.left -= 1;
        self.bytes = rest;
        Some(item)
    }
}

/// Whether only the zero byte is left that ends parameters.
fn is_end(bytes: &[u8]) -> bool
    ensures { IsTrue result ↔ (bytes.now ≡ 0 ∷ []) }
{
    matches!(bytes, [0])
}

/// All of the bytes as parameters and the zero byte that ends them.
pub fn parameters_in(bytes: &[u8]) -> Option<Parameters<'_>>
    ensures found { IfSome result (SayParameters bytes.now) }
    ensures none { IfNone result (AreNoParameters bytes.now) }
{
    let mut rest = bytes;
    let mut left = 0usize;
    while !is_end(rest) {
        let (_, behind) = parameter_at(rest)?;
        rest = behind;
        left += 1;
    }
    Some(Parameters { left, bytes })
}
