//! The places of a text.
ghost use Rattle.std.specs.Prelude.{◌≡◌, ◌<◌, ◌≤◌, ◌⊎◌, false, length, MatchOption};
ghost use Rattle.std.specs.List.{prefix_len};
ghost use Rattle.std.specs.Char.{is_ascii_digit};
ghost use Rattle.std.specs.Str.Parse.{AllDigits, digits_value};
ghost use Rattle.parameters_core.specs.Places.{BeginsNoPlace, HasNoPlace, IsGreatestNumber};
ghost use Rattle.parameters_core.specs.Finding.{IsFrontPlace, IsFirstPlace};

use crate::statements::inside_behind;
use base_core::is_word_byte;
use lexer_core::byte_at;

/// The greatest number of a place.
const MAX_NUMBER: u16 = 99;

/// A place of a text, from `start` to before `end`, and its number.
#[derive(Clone, Copy)]
pub struct Place {
    pub start: usize,
    pub end: usize,
    pub number: u8,
}

fn digits_len(bytes: &[u8]) -> usize
    ensures len { result ≡ prefix_len is_ascii_digit bytes.now }
    ensures within { result ≤ length bytes.now }
{
    bytes
        .iter()
        .take_while(|byte| byte.is_ascii_digit())
        .count()
}

/// The number that the digits spell, if it is 1 to 99.
fn number_of(digits: &[u8]) -> Option<u8>
    requires { AllDigits 10 digits.now }
    ensures { MatchOption result
        ((digits_value 10 digits.now ≡ 0) ⊎ (99 < digits_value 10 digits.now))
        (λ n. (n ≡ digits_value 10 digits.now) × (1 ≤ n) × (n ≤ 99)) }
{
    let mut number: u16 = 0;
    for i in 0..digits.len() {
        number = number * 10 + (digits[i] - b'0') as u16;
        if number > MAX_NUMBER {
            return None;
        }
    }
    if number == 0 {
        return None;
    }
    Some(number as u8)
}

/// The place that the bytes begin with: how many bytes it has, and its number.
fn place_at(bytes: &[u8]) -> Option<(usize, u8)>
    ensures { MatchOption result (BeginsNoPlace bytes.now)
        (λ p. IsFrontPlace bytes.now p.0 p.1) }
{
    if byte_at(bytes, 0) != b'$' {
        return None;
    }
    let len = digits_len(&bytes[1..]);
    let number = number_of(&bytes[1..len + 1])?;
    if is_word_byte(byte_at(bytes, len + 1)) {
        return None;
    }
    Some((len + 1, number))
}

/// The same, unless a text in quotes is open before the bytes.
fn place_outside(is_inside: bool, bytes: &[u8]) -> Option<(usize, u8)>
    ensures { MatchOption result (is_inside ≡ false → BeginsNoPlace bytes.now)
        (λ p. (is_inside ≡ false) × IsFrontPlace bytes.now p.0 p.1) }
{
    if is_inside { None } else { place_at(bytes) }
}

/// The place that stands first outside texts in quotes.
pub fn first_place(text: &[u8]) -> Option<Place>
    ensures { MatchOption result (HasNoPlace text.now) (λ found. IsFirstPlace text.now found) }
{
    let mut is_inside = false;
    let mut at = 0;
    while at < text.len() {
        if let Some((len, number)) = place_outside(is_inside, &text[at..]) {
            let end = at + len;
            return Some(Place {
                start: at,
                end,
                number,
            });
        }
        is_inside = inside_behind(is_inside, text[at]);
        at += 1;
    }
    None
}

/// The greatest number of a place of the text: how many values it needs. 0 where it has no place.
pub fn greatest_place(text: &[u8]) -> u8
    ensures { IsGreatestNumber text.now result }
{
    let mut greatest: u8 = 0;
    let mut rest = text;
    while let Some(place) = first_place(rest) {
        greatest = greatest.max(place.number);
        rest = &rest[place.end..];
    }
    greatest
}
