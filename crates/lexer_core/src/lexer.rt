//! Cuts a line into tokens.

ghost use Rattle.std.specs.Prelude.{◌≡◌, false, ◌<◌, ◌≤◌, ◌+◌, length, map, slice_index, All, AllPairs, MatchResult, OnOk, IfOk};
ghost use Rattle.lexer_core.specs.Lexing.{AreSpelled, AreTokens, IsFaultOf, Says, located, is_blank, starts_number};
ghost use Rattle.lexer_core.specs.Pushed.{IsFaultAt, IsPushed};

use crate::bytes::byte_at;
use crate::fault::{Code, ReadFault};
use crate::mark::mark;
use crate::number::number;
use crate::text::text;
use crate::token::{Token, TokenKind};
use crate::word::word;
use std::alloc::Global;

/// The longest line that is read, in bytes, without its line end.
pub const MAX_LINE: usize = 4096;

/// Whether the byte is a space or a tab, which separate tokens.
pub fn is_blank(byte: u8) -> bool
    ensures { result ≡ is_blank byte }
{
    byte == b' ' || byte == b'\t'
}

fn starts_number(bytes: &[u8]) -> bool
    ensures { result ≡ starts_number bytes.now }
{
    let first = byte_at(bytes, 0);
    first.is_ascii_digit() || (first == b'-' && byte_at(bytes, 1).is_ascii_digit())
}

/// Puts the token that stands first behind the others, and says where it ends. The bytes are those
/// of the line from `start`. Each kind puts its own, since a token is large to hand on.
#[inline(always)]
fn first_token(tokens: &mut Vec<Token>, bytes: &[u8], start: usize) -> Result<usize, ReadFault>
    requires some { 0 < length bytes.now }
    requires short { start + length bytes.now ≤ 4096 }
    requires no_blank { is_blank (slice_index bytes.now 0) ≡ false }
    ensures { MatchResult result
        (λ end. IsPushed bytes.now start tokens.old.items tokens.new.items end)
        (λ e. IsFaultAt bytes.now start e) }
{
    let first = byte_at(bytes, 0);
    if first.is_ascii_alphabetic() {
        return word(tokens, bytes, start);
    }
    if starts_number(bytes) {
        return number(tokens, bytes, start);
    }
    if first == b'\'' {
        return text(tokens, bytes, start);
    }
    match mark(bytes) {
        Some(mark) => Token::push(tokens, TokenKind::Mark(mark), start, mark.text().len()),
        None => Err(ReadFault::At {
            code: Code::BadByte,
            offset: start,
        }),
    }
}

/// The tokens of a line, in order, or its leftmost lexical fault with the byte that it stands at:
/// `TooLong` (a line of more than 4,096 bytes, at 4096; a text of more than 1,024 bytes, at its
/// opening quote), `BadByte`, `BadNumber`, `OpenText` or `LongName`. `NoMemory` comes only where
/// memory for the tokens was refused.
///
/// They take the place of what the vector had, so that one vector does for line after line; behind
/// a fault what it has means nothing.
pub fn read_tokens(tokens: &mut Vec<Token>, line: &[u8]) -> Result<(), ReadFault>
    ensures outcome { MatchResult result (λ _. AreTokens line.now tokens.new.items)
        (λ e. IsFaultOf line.now e) }
    ensures spelled { OnOk result (AreSpelled line.now tokens.new.items) }
    ensures says { OnOk result
        (Says line.now (map (λ t. (located line.now t).lexeme) tokens.new.items)) }

    // Each token starts at or behind the end of the one before, and ends within the line.
    ensures ordered { OnOk result
        (AllPairs (λ before after. before.end ≤ after.start) tokens.new.items) }
    ensures within { OnOk result (All (λ t. t.end ≤ length line.now) tokens.new.items) }
{
    tokens.clear();
    if line.len() > MAX_LINE {
        return Err(ReadFault::At {
            code: Code::TooLong,
            offset: MAX_LINE,
        });
    }
    let mut at = 0;
    while at < line.len() {
        if is_blank(line[at]) {
            at += 1;
        } else {
            match first_token(tokens, &line[at..], at) {
                Ok(end) => at = end,
                Err(fault) => return Err(fault),
            }
        }
    }
    Ok(())
}

/// The tokens of a line in a vector of their own, as [`read_tokens`] has them.
pub fn tokens(alloc: Global, line: &[u8]) -> Result<Vec<Token>, ReadFault>
    ensures outcome { MatchResult result (λ v. AreTokens line.now v.items)
        (λ e. IsFaultOf line.now e) }
    ensures spelled { IfOk result (λ v. AreSpelled line.now v.items) }
    ensures says { IfOk result
        (λ v. Says line.now (map (λ t. (located line.now t).lexeme) v.items)) }
    ensures ordered { IfOk result
        (λ v. AllPairs (λ before after. before.end ≤ after.start) v.items) }
    ensures within { IfOk result (λ v. All (λ t. t.end ≤ length line.now) v.items) }
{
    let mut tokens = Vec::new(alloc);
    match read_tokens(&mut tokens, line) {
        Ok(()) => Ok(tokens),
        Err(fault) => Err(fault),
    }
}
