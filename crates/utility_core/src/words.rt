//! Words of a line against words of a table.

ghost use Rattle.std.specs.Prelude.{◌≡◌, ◌-◌, map, take, drop};
ghost use Rattle.std.specs.List.{list_any, list_all};
ghost use Rattle.std.specs.Str.{bytes_eq};
ghost use Rattle.base_core.specs.Words.{folded};
ghost use Rattle.utility_core.specs.Words.{token_text, words_of, same_words, is_among, is_one_word};

use lexer_core::{Token, byte_at};

/// The first so many items, or all if there are fewer, and those behind them.
pub fn parts_at<T>(items: &[T], at: usize) -> (&[T], &[T])
    ensures front { result.0.now ≡ take at items.now }
    ensures behind { result.1.now ≡ drop at items.now }
{
    match items.split_at_checked(at) {
        Some(parts) => parts,
        None => (items, &[]),
    }
}

/// What the token is in the line.
fn token_bytes<'a>(line: &'a [u8], token: &Token) -> &'a [u8]
    ensures { result.now ≡ take (token.now.end - token.now.start) (drop token.now.start line.now) }
{
    let (_, from_start) = parts_at(line, token.start);
    let (bytes, _) = parts_at(from_start, token.end.saturating_sub(token.start));
    bytes
}

/// Whether the bytes are this word of small letters, in any case.
pub fn spells(mut word: &[u8], mut bytes: &[u8]) -> bool
    ensures { result ≡ bytes_eq word.entry.now (folded bytes.entry.now) }
{
    while let [letter, letters @ ..] = word {
        match bytes {
            [byte, behind @ ..] if byte.to_ascii_lowercase() == *letter => {
                word = letters;
                bytes = behind;
            }
            _ => return false,
        }
    }
    bytes.is_empty()
}

fn says(word: &[u8], line: &[u8], token: &Token) -> bool
    ensures { result ≡ bytes_eq word.now (token_text line.now token.now) }
{
    spells(word, token_bytes(line, token))
}

/// Whether the tokens are these words.
pub fn are_words(mut words: &[&[u8]], line: &[u8], mut tokens: &[Token]) -> bool
    ensures { result ≡ same_words (map (λ w. w.now) words.entry.now)
        (words_of line.now tokens.entry.now) }
{
    while let [word, words_behind @ ..] = words {
        match tokens {
            [token, behind @ ..] if says(word, line, token) => {
                words = words_behind;
                tokens = behind;
            }
            _ => return false,
        }
    }
    tokens.is_empty()
}

/// Whether the token is one of these words.
pub fn is_among(mut words: &[&[u8]], line: &[u8], token: &Token) -> bool
    ensures { result ≡ is_among (map (λ w. w.now) words.entry.now) (token_text line.now token.now) }
{
    while let [word, words_behind @ ..] = words {
        if says(word, line, token) {
            return true;
        }
        words = words_behind;
    }
    false
}

/// Whether each token is.
pub fn are_among(words: &[&[u8]], line: &[u8], mut tokens: &[Token]) -> bool
    ensures { result ≡ list_all (is_among (map (λ w. w.now) words.now))
        (words_of line.now tokens.entry.now) }
{
    while let [token, behind @ ..] = tokens {
        if !is_among(words, line, token) {
            return false;
        }
        tokens = behind;
    }
    true
}

/// Whether there is one token, which begins with a letter.
pub fn is_one_word(line: &[u8], tokens: &[Token]) -> bool
    ensures { result ≡ is_one_word (words_of line.now tokens.now) }
{
    match tokens {
        [token] => byte_at(token_bytes(line, token), 0).is_ascii_alphabetic(),
        _ => false,
    }
}
