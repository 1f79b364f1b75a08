//! Words: keywords and names.

ghost use Rattle.std.specs.Prelude.{◌≡◌, ◌≤◌, ◌+◌, true, length, slice_index, MatchResult};
ghost use Rattle.std.specs.List.{prefix_len};
ghost use Rattle.std.specs.Char.{is_ascii_alphabetic};
ghost use Rattle.base_core.specs.Words.{is_word_byte};
ghost use Rattle.lexer_core.specs.Pushed.{IsFaultAt, IsPushed};

use crate::fault::{Code, ReadFault};
use crate::token::{Token, TokenKind};
use base_core::{MAX_NAME, Word, is_word_byte};

/// The number of bytes of letters, digits and `_` at the front. Where the first is a letter, they
/// are a word.
pub fn word_len(bytes: &[u8]) -> usize
    ensures len { result ≡ prefix_len is_word_byte bytes.now }
    ensures within { result ≤ length bytes.now }
{
    let mut len = 0;
    while len < bytes.len() {
        if !is_word_byte(bytes[len]) {
            return len;
        }
        len += 1;
    }
    len
}

/// Puts the keyword or the name that stands first behind the tokens. The bytes are those of the
/// line from `start`.
#[inline(always)]
pub fn word(tokens: &mut Vec<Token>, bytes: &[u8], start: usize) -> Result<usize, ReadFault>
    requires letter { is_ascii_alphabetic (slice_index bytes.now 0) ≡ true }
    requires short { start + length bytes.now ≤ 4096 }
    ensures { MatchResult result
        (λ end. IsPushed bytes.now start tokens.old.items tokens.new.items end)
        (λ e. IsFaultAt bytes.now start e) }
{
    let len = word_len(bytes);
    if len > MAX_NAME {
        return Err(ReadFault::At {
            code: Code::LongName,
            offset: start,
        });
    }
    match Word::read(&bytes[..len]) {
        Word::Keyword(keyword) => Token::push(tokens, TokenKind::Keyword(keyword), start, len),
        Word::Name(name) => Token::push(tokens, TokenKind::Name(name), start, len),
    }
}
