//! Where in a text a byte of its line stands.
ghost use Rattle.std.specs.Prelude.{◌≡◌, ◌<◌, ◌≤◌, ◌^◌, length};
ghost use Rattle.parameters_core.specs.Positions.{IsOrigin, begins_char, character_at};

use crate::places::first_place;

/// How many bytes a place has in a line with ones: two blanks and the number.
const PLACE_BYTES: usize = 3;

/// The byte of the text from which the byte of its line came, where [`crate::fill_with_ones`] made
/// that: for those of a literal, where its place begins. Past the line's end it is the text's end.
pub fn position(text: &[u8], offset: usize) -> usize
    ensures origin { IsOrigin text.now offset result }
    ensures within { result ≤ length text.now }
{
    let mut rest = text;
    let mut left = offset;
    while let Some(place) = first_place(rest) {
        let gone = text.len() - rest.len();
        if left < place.start {
            return gone + left;
        }
        left -= place.start;
        if left < PLACE_BYTES {
            return gone + place.start;
        }
        left -= PLACE_BYTES;
        rest = &rest[place.end..];
    }
    text.len() - rest.len() + left.min(rest.len())
}

fn begins_char(byte: u8) -> bool
    ensures { result ≡ begins_char byte }
{
    byte < 128 || byte > 191
}

/// Which character of the text stands at the byte, counted from 1: bytes that continue a character
/// in UTF-8 do not count.
pub fn character(text: &[u8], byte: usize) -> u32
    requires { length text.now < 2 ^ 31 }
    ensures { result ≡ character_at text.now byte }
{
    let front = &text[..byte.min(text.len())];
    1 + front.iter().filter(|byte| begins_char(**byte)).count() as u32
}
