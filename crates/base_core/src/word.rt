//! Words: keywords and names.
ghost use Rattle.std.specs.Prelude.{◌≡◌, ◌≤◌, true, length, slice_index};
ghost use Rattle.std.specs.Char.{is_ascii_alphabetic};
ghost use Rattle.base_core.specs.Words.{is_word, is_word_byte};
ghost use Rattle.base_core.specs.Spelled.{IsWordOf};

use crate::keyword::Keyword;
use crate::name::Name;

/// The most bytes that a name has.
pub const MAX_NAME: usize = 30;

/// What a word is: reserved, or else a name.
#[derive(Clone, Copy, PartialEq, Eq)]
pub enum Word {
    Keyword(Keyword),
    Name(Name),
}

// Each byte of a word stands at its own place, and a comma at every other.
static WORD_BYTES: [u8; 256] = *b"\
    ,,,,,,,,,,,,,,,,,,,,,,,,,,,,,,,,\
    ,,,,,,,,,,,,,,,,0123456789,,,,,,\
    ,ABCDEFGHIJKLMNOPQRSTUVWXYZ,,,,_\
    ,abcdefghijklmnopqrstuvwxyz,,,,,\
    ,,,,,,,,,,,,,,,,,,,,,,,,,,,,,,,,\
    ,,,,,,,,,,,,,,,,,,,,,,,,,,,,,,,,\
    ,,,,,,,,,,,,,,,,,,,,,,,,,,,,,,,,\
    ,,,,,,,,,,,,,,,,,,,,,,,,,,,,,,,,";

/// Whether a word may go on with this byte: an ASCII letter, a digit or `_`.
pub fn is_word_byte(byte: u8) -> bool
    ensures { result ≡ is_word_byte byte }
{
    WORD_BYTES[byte as usize] != b','
}

fn starts_with_letter(bytes: &[u8]) -> bool
    ensures { result ≡ is_ascii_alphabetic (slice_index bytes.now 0) }
{
    bytes
        .first()
        .is_some_and(|first| first.is_ascii_alphabetic())
}

/// Whether it begins with a letter, and has letters, digits and `_` alone.
pub fn is_word(word: &[u8]) -> bool
    ensures { result ≡ is_word word.now }
{
    starts_with_letter(word) && word.iter().all(|byte| is_word_byte(*byte))
}

impl Word {
    /// The keyword or the name that a word of at most 30 bytes spells, in any case. It takes no
    /// memory, and the word is compared with one keyword at most.
    #[inline(always)]
    pub fn read(word: &[u8]) -> Word
        requires word { is_word word.now ≡ true }
        requires short { length word.now ≤ 30 }
        ensures { IsWordOf word.now result }
    {
        match Keyword::read(word) {
            Some(keyword) => Word::Keyword(keyword),
            None => Word::Name(Name::of_word(word)),
        }
    }
}
