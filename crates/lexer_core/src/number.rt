//! Numbers.

ghost use Rattle.std.specs.Prelude.{◌≡◌, ◌≢◌, true, ◌<◌, ◌≤◌, ◌+◌, ◌^◌, length, slice_index, MatchResult, MatchOption};
ghost use Rattle.std.specs.List.{prefix_len};
ghost use Rattle.std.specs.Char.{is_ascii_digit};
ghost use Rattle.std.specs.Str.Parse.{AllDigits, IsNumeral, digits_value, without_leading_sign};
ghost use Rattle.lexer_core.specs.Lexing.{IsNumber, IsTooGreat, sign_len, number_len, starts_number};
ghost use Rattle.lexer_core.specs.Pushed.{IsFaultAt, IsPushed};

use crate::bytes::byte_at;
use crate::fault::{Code, ReadFault};
use crate::token::{Token, TokenKind};
use base_core::is_word_byte;

/// So many digits are always an `i64`.
const SHORT: usize = 18;

fn digits_len(bytes: &[u8]) -> usize
    ensures len { result ≡ prefix_len is_ascii_digit bytes.now }
    ensures within { result ≤ length bytes.now }
{
    bytes
        .iter()
        .take_while(|byte| byte.is_ascii_digit())
        .count()
}

fn sign_len(bytes: &[u8]) -> usize
    ensures len { result ≡ sign_len bytes.now }
    ensures within { result ≤ length bytes.now }
{
    match bytes {
        [b'-', ..] => 1,
        _ => 0,
    }
}

fn number_len(bytes: &[u8]) -> usize
    ensures len { result ≡ number_len bytes.now }
    ensures within { result ≤ length bytes.now }
{
    let sign = sign_len(bytes);
    sign + digits_len(&bytes[sign..])
}

/// The number that at most 18 digits spell: a `u64` holds each.
fn sum_of(digits: &[u8]) -> u64
    requires digits { AllDigits 10 digits.now }
    requires few { length digits.now ≤ 18 }
    ensures value { result ≡ digits_value 10 digits.now }
    ensures small { result < 10 ^ 18 }
{
    let mut sum = 0;
    for i in 0..digits.len() {
        sum = sum * 10 + (digits[i] - b'0') as u64;
    }
    sum
}

/// The number that a sign and digits spell.
fn value(spelled: &[u8]) -> Option<i64>
    requires unsigned { slice_index spelled.now 0 ≢ 43 }
    requires digits { IsNumeral 10 (without_leading_sign spelled.now) }
    ensures { MatchOption result (IsTooGreat spelled.now) (λ z. IsNumber z spelled.now) }
{
    if spelled.len() <= SHORT && byte_at(spelled, 0) != b'-' {
        return Some(sum_of(spelled) as i64);
    }
    match str::from_utf8(spelled) {
        Ok(text) => text.parse().ok(),
        Err(_) => unreachable!(),
    }
}

/// Puts the number that stands first behind the tokens. The bytes are those of the line from
/// `start`.
#[inline(always)]
pub fn number(tokens: &mut Vec<Token>, bytes: &[u8], start: usize) -> Result<usize, ReadFault>
    requires starts { starts_number bytes.now ≡ true }
    requires short { start + length bytes.now ≤ 4096 }
    ensures { MatchResult result
        (λ end. IsPushed bytes.now start tokens.old.items tokens.new.items end)
        (λ e. IsFaultAt bytes.now start e) }
{
    let len = number_len(bytes);
    if is_word_byte(byte_at(bytes, len)) {
        return Err(ReadFault::At {
            code: Code::BadNumber,
            offset: start,
        });
    }
    match value(&bytes[..len]) {
        Some(number) => Token::push(tokens, TokenKind::Number(number), start, len),
        None => Err(ReadFault::At {
            code: Code::BadNumber,
            offset: start,
        }),
    }
}
