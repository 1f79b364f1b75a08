//! Fields read from the front of bytes.
ghost use Rattle.std.specs.Prelude.{◌≡◌, ◌≢◌, ℕ, option_map, ◌<◌, length, slice_index, IfSome, IfNone};
ghost use Rattle.std.specs.Int.{w16, w32};
ghost use Rattle.messages_core.specs.Reading.{number_at, text_at, value_or_null_at, bytes_at};

/// The Int16 that stands first, and what is behind it.
pub fn int16_at(bytes: &[u8]) -> Option<(u16, &[u8])>
    ensures { option_map (λ x. (x.0, x.1.now)) result ≡ number_at w16 bytes.now }
{
    if bytes.len() < 2 {
        return None;
    }
    let (front, rest) = bytes.split_at(2);
    let number = u16::from_be_bytes([front[0], front[1]]);
    Some((number, rest))
}

/// The Int32 that stands first, and what is behind it.
pub fn int32_at(bytes: &[u8]) -> Option<(u32, &[u8])>
    ensures { option_map (λ x. (x.0, x.1.now)) result ≡ number_at w32 bytes.now }
{
    if bytes.len() < 4 {
        return None;
    }
    let (front, rest) = bytes.split_at(4);
    let number = u32::from_be_bytes([front[0], front[1], front[2], front[3]]);
    Some((number, rest))
}

/// Where the first zero byte stands.
fn zero_at(bytes: &[u8]) -> Option<usize>
    ensures none { IfNone result
        ((k : ℕ) → k < length bytes.now → slice_index bytes.now k ≢ 0) }
    ensures within { IfSome result (λ n. n < length bytes.now) }
    ensures zero { IfSome result (λ n. slice_index bytes.now n ≡ 0) }
    ensures first { IfSome result (λ n. (k : ℕ) → k < n → slice_index bytes.now k ≢ 0) }
{
    for (n, byte) in bytes.iter().enumerate() {
        if *byte == 0 {
            return Some(n);
        }
    }
    None
}

/// The text of the String that stands first, and what is behind its zero byte.
pub fn text_at(bytes: &[u8]) -> Option<(&[u8], &[u8])>
    ensures { option_map (λ x. (x.0.now, x.1.now)) result ≡ text_at bytes.now }
{
    let end = zero_at(bytes)?;
    Some((&bytes[..end], &bytes[end + 1..]))
}

/// As many bytes, and what is behind them.
pub fn bytes_at(bytes: &[u8], count: usize) -> Option<(&[u8], &[u8])>
    ensures { option_map (λ x. (x.0.now, x.1.now)) result ≡ bytes_at count bytes.now }
{
    if bytes.len() < count {
        return None;
    }
    Some(bytes.split_at(count))
}

/// The value that stands first, and what is behind it. None of it: NULL.
#[tactic(auto, unfolding(crate::specs::Reading::value_or_null_at))]
pub fn value_or_null_at(bytes: &[u8]) -> Option<(Option<&[u8]>, &[u8])>
    ensures { option_map (λ x. (option_map (λ v. v.now) x.0, x.1.now)) result
        ≡ value_or_null_at bytes.now }
{
    let (length, rest) = int32_at(bytes)?;
    if length == u32::MAX {
        return Some((None, rest));
    }
    let (value, rest) = bytes_at(rest, length as usize)?;
    Some((Some(value), rest))
}
