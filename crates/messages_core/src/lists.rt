//! Lists within a message, read item by item.
ghost use Rattle.std.specs.Prelude.{◌≡◌, ℕ, List, Option, option_map};
ghost use Rattle.std.specs.Int.{w16, w32};
ghost use Rattle.std.specs.Iterator.{YieldsFirst, YieldsFirstBy, item_count};
ghost use Rattle.messages_core.specs.Reading.{items_in, number_at, past_items, value_or_null_at};
ghost use Rattle.messages_core.specs.Bodies.{int16s_at, int32s_at, values_at};

use crate::fields::{int16_at, int32_at, value_or_null_at};
use std::marker::Model;

/// Int16s, one after another. Contracts see the list of those that are left.
#[derive(Drop)]
pub struct Int16s<'a> {
    left: u16,
    bytes: &'a [u8],
}

impl<'a> Model for Int16s<'a> {
    ghost use Rattle.std.specs.Prelude.{ℕ, List};
    ghost use Rattle.std.specs.Int.{w16};
    ghost use Rattle.messages_core.specs.Reading.{items_in, number_at};

    ghost Value = { List ℕ };

    ghost view = { λ s. items_in (number_at w16) s.left s.bytes.now };
}

impl<'a> Int16s<'a> {
    /// The same, from the first that is left.
    pub fn iter(&self) -> Int16s<'a>
        ensures { result ≡ self.now }
    {
        let Int16s { left, bytes } = *self;
        Int16s { left, bytes }
    }
}

impl<'a> Iterator for Int16s<'a> {
    type Item = u16;

    ghost next_gives = { YieldsFirst (λ left. left) };

    ghost remaining = { item_count (λ left. left) };

    fn next(&mut self) -> Option<u16> {
        if self.left == 0 {
            return None;
        }
        let (item, rest) = int16_at(self.bytes)?;
        self.left -= 1;
        self.bytes = rest;
        Some(item)
    }
}

/// Int32s, one after another. Contracts see the list of those that are left.
#[derive(Drop)]
pub struct Int32s<'a> {
    left: u16,
    bytes: &'a [u8],
}

impl<'a> Model for Int32s<'a> {
    ghost use Rattle.std.specs.Prelude.{ℕ, List};
    ghost use Rattle.std.specs.Int.{w32};
    ghost use Rattle.messages_core.specs.Reading.{items_in, number_at};

    ghost Value = { List ℕ };

    ghost view = { λ s. items_in (number_at w32) s.left s.bytes.now };
}

impl<'a> Int32s<'a> {
    /// The same, from the first that is left.
    pub fn iter(&self) -> Int32s<'a>
        ensures { result ≡ self.now }
    {
        let Int32s { left, bytes } = *self;
        Int32s { left, bytes }
    }
}

impl<'a> Iterator for Int32s<'a> {
    type Item = u32;

    ghost next_gives = { YieldsFirst (λ left. left) };

    ghost remaining = { item_count (λ left. left) };

    fn next(&mut self) -> Option<u32> {
        if self.left == 0 {
            return None;
        }
        let (item, rest) = int32_at(self.bytes)?;
        self.left -= 1;
        self.bytes = rest;
        Some(item)
    }
}

/// Values, one after another. Contracts see the list of those that are left.
#[derive(Drop)]
pub struct Values<'a> {
    left: u16,
    bytes: &'a [u8],
}

impl<'a> Model for Values<'a> {
    ghost use Rattle.std.specs.Prelude.{ℕ, List, Option};
    ghost use Rattle.messages_core.specs.Reading.{items_in, value_or_null_at};

    ghost Value = { List (Option (List ℕ)) };

    ghost view = { λ s. items_in value_or_null_at s.left s.bytes.now };
}

impl<'a> Values<'a> {
    /// The same, from the first that is left.
    pub fn iter(&self) -> Values<'a>
        ensures { result ≡ self.now }
    {
        let Values { left, bytes } = *self;
        Values { left, bytes }
    }
}

impl<'a> Iterator for Values<'a> {
    /// None is NULL.
    type Item = Option<&'a [u8]>;

    ghost next_gives = { YieldsFirstBy (option_map (λ v. v.now)) (λ left. left) };

    ghost remaining = { item_count (λ left. left) };

    fn next(&mut self) -> Option<Option<&'a [u8]>> {
        if self.left == 0 {
            return None;
        }
        let (item, rest) = value_or_null_at(self.bytes)?;
        self.left -= 1;
        self.bytes = rest;
        Some(item)
    }
}

/// What stands behind so many values.
fn past_values(bytes: &[u8], count: u16) -> Option<&[u8]>
    ensures { option_map (λ rest. rest.now) result ≡ past_items value_or_null_at count bytes.now }
{
    let mut rest = bytes;
    for _ in 0..count {
        let (_, behind) = value_or_null_at(rest)?;
        rest = behind;
    }
    Some(rest)
}

/// Values behind their count, and what is behind them.
pub fn values_at(bytes: &[u8]) -> Option<(Values<'_>, &[u8])>
    ensures { option_map (λ x. (x.0, x.1.now)) result ≡ values_at bytes.now }
{
    let (left, bytes) = int16_at(bytes)?;
    let rest = past_values(bytes, left)?;
    Some((Values { left, bytes }, rest))
}

/// What stands behind so many Int16s.
fn past_int16s(bytes: &[u8], count: u16) -> Option<&[u8]>
    ensures { option_map (λ rest. rest.now) result ≡ past_items (number_at w16) count bytes.now }
{
    let length = usize::from(count) * 2;
    if bytes.len() < length {
        return None;
    }
    Some(&bytes[length..])
}

/// Int16s behind their count, and what is behind them.
pub fn int16s_at(bytes: &[u8]) -> Option<(Int16s<'_>, &[u8])>
    ensures { option_map (λ x. (x.0, x.1.now)) result ≡ int16s_at bytes.now }
{
    let (left, bytes) = int16_at(bytes)?;
    let rest = past_int16s(bytes, left)?;
    Some((Int16s { left, bytes }, rest))
}

/// What stands behind so many Int32s.
fn past_int32s(bytes: &[u8], count: u16) -> Option<&[u8]>
    ensures { option_map (λ rest. rest.now) result ≡ past_items (number_at w32) count bytes.now }
{
    let length = usize::from(count) * 4;
    if bytes.len() < length {
        return None;
    }
    Some(&bytes[length..])
}

/// Int32s behind their count, and what is behind them.
pub fn int32s_at(bytes: &[u8]) -> Option<(Int32s<'_>, &[u8])>
    ensures { option_map (λ x. (x.0, x.1.now)) result ≡ int32s_at bytes.now }
{
    let (left, bytes) = int16_at(bytes)?;
    let rest = past_int32s(bytes, left)?;
    Some((Int32s { left, bytes }, rest))
}
