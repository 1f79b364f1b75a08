//! Ranks of values.
ghost use Rattle.std.specs.Prelude.{◌≡◌, ◌<◌};
ghost use Rattle.std.specs.List.{slice_index};
ghost use Rattle.index_core.specs.Rank.{above_lowest, leading, rank};

use base_core::Value;

/// How far 0 is above the lowest number.
const ZERO: u64 = 1 << 63;

/// How many bytes of a text its rank is made of.
const LEADING: usize = 8;

/// How far a number is above the lowest one.
pub fn above_lowest(number: i64) -> u64
    ensures { result ≡ above_lowest number }
{
    if number < 0 {
        ZERO - number.unsigned_abs()
    } else {
        ZERO + number.unsigned_abs()
    }
}

/// The byte at this place of a text, or 0 behind its end.
fn byte_at(bytes: &[u8], at: usize) -> u64
    ensures value { result ≡ slice_index bytes.now at }
    ensures byte { result < 256 }
{
    match bytes.get(at) {
        Some(byte) => *byte as u64,
        None => 0,
    }
}

/// The first bytes of a text as one number.
fn leading(bytes: &[u8]) -> u64
    ensures { result ≡ leading 8 bytes.now }
{
    let mut so_far = 0;
    for at in 0..LEADING {
        so_far = so_far * 256 + byte_at(bytes, at);
    }
    so_far
}

/// The rank of a value.
#[tactic(auto, unfolding(crate::specs::Rank::rank))]
pub fn rank(value: &Value) -> u64
    ensures { result ≡ rank value.now }
{
    match value {
        Value::Int(number) => above_lowest(*number),
        Value::Text(text) => leading(text.as_bytes()),
    }
}
