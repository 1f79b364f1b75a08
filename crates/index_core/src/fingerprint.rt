//! Fingerprints of values.
ghost use Rattle.std.specs.Prelude.{◌≡◌};
ghost use Rattle.std.specs.List.{fold};
ghost use Rattle.index_core.specs.Fingerprint.{fingerprint, stirred};

use crate::rank::above_lowest;
use base_core::Value;

/// A prime far from a power of two, so that a byte reaches the bits above it.
const PRIME: u64 = 1099511628211;

/// A fingerprint with one more byte.
fn stirred(so_far: u64, byte: u8) -> u64
    ensures { result ≡ stirred so_far byte }
{
    so_far.wrapping_mul(PRIME).wrapping_add(byte as u64)
}

/// The fingerprint of a text.
fn folded(bytes: &[u8]) -> u64
    ensures { result ≡ fold stirred 0 bytes.now }
{
    let mut so_far = 0;
    for byte in bytes {
        so_far = stirred(so_far, *byte);
    }
    so_far
}

/// The fingerprint of a value. No two numbers have the same.
pub fn fingerprint(value: &Value) -> u64
    ensures { result ≡ fingerprint value.now }
{
    match value {
        Value::Int(number) => above_lowest(*number),
        Value::Text(text) => folded(text.as_bytes()),
    }
}
