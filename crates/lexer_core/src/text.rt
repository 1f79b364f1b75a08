//! Texts in quotes.

ghost use Rattle.std.specs.Prelude.{◌≡◌, ℕ, List, ◌≤◌, ◌+◌, ◌++◌, length, slice_index, MatchResult, IfOk, MatchOption};
ghost use Rattle.std.specs.List.{prefix_len};
ghost use Rattle.std.specs.Char.{encode_utf8};
ghost use Rattle.std.specs.Str.{StartsWithNoChar};
ghost use Rattle.lexer_core.specs.Text.{BeginsWithNoPlain, BeginsWithPlain, is_plain_byte, written_len};
ghost use Rattle.lexer_core.specs.Lexing.{BeginsKind, IsSomeText, unquoted};
ghost use Rattle.lexer_core.specs.Pushed.{IsFaultAt, IsPushed};

use crate::bytes::byte_at;
use crate::fault::{Code, ReadFault};
use crate::token::{Token, TokenKind};
use base_core::Text;
use std::alloc::{AllocError, Global};

const MAX_TEXT: usize = 1024;

// Each printable byte of ASCII but the quote stands at its own place, and a quote at every other.
static PLAIN_BYTES: [u8; 256] = *b"\
    ''''''''''''''''''''''''''''''''\
    \x20!\"#$%&'()*+,-./0123456789:;<=>?\
    @ABCDEFGHIJKLMNOPQRSTUVWXYZ[\\]^_\
    `abcdefghijklmnopqrstuvwxyz{|}~'\
    ''''''''''''''''''''''''''''''''\
    ''''''''''''''''''''''''''''''''\
    ''''''''''''''''''''''''''''''''\
    ''''''''''''''''''''''''''''''''";

/// Whether the byte is a character that a text writes as it is.
fn is_plain_byte(byte: u8) -> bool
    ensures { result ≡ is_plain_byte byte }
{
    PLAIN_BYTES[byte as usize] != b'\''
}

/// The number of such bytes at the front.
fn plain_run(bytes: &[u8]) -> usize
    ensures len { result ≡ prefix_len is_plain_byte bytes.now }
    ensures within { result ≤ length bytes.now }
{
    let mut len = 0;
    while len < bytes.len() {
        if !is_plain_byte(bytes[len]) {
            return len;
        }
        len += 1;
    }
    len
}

/// The character that the bytes begin with.
fn first_char(bytes: &[u8]) -> Option<char>
    ensures { MatchOption result (StartsWithNoChar bytes.now)
        (λ c. (rest : List ℕ) × (bytes.now ≡ encode_utf8 c ++ rest)) }
{
    let front = &bytes[..bytes.len().min(4)];
    front.utf8_chunks().next()?.valid().chars().next()
}

/// The length of the character that the bytes begin with, if it may stand in a text.
fn plain_len(bytes: &[u8]) -> Option<usize>
    ensures { MatchOption result (BeginsWithNoPlain bytes.now) (BeginsWithPlain bytes.now) }
{
    let first = first_char(bytes)?;
    if first.is_control() {
        None
    } else {
        Some(first.len_utf8())
    }
}

/// The length of the text that stands first, with its quotes. The bytes are those of the line from
/// `start`.
#[inline(always)]
fn text_len(bytes: &[u8], start: usize) -> Result<usize, ReadFault>
    requires quote { slice_index bytes.now 0 ≡ 39 }
    requires short { start + length bytes.now ≤ 4096 }
    ensures { MatchResult result (λ len. BeginsKind bytes.now TokenKind.Text len)
        (λ e. IsFaultAt bytes.now start e) }
{
    let mut at = 1;
    let mut size = 0;
    while at < bytes.len() {
        let run = plain_run(&bytes[at..]);
        if run > 0 {
            at += run;
            size += run;
        } else if byte_at(bytes, at) != b'\'' {
            let Some(len) = plain_len(&bytes[at..]) else {
                return Err(ReadFault::At {
                    code: Code::BadByte,
                    offset: start + at,
                });
            };
            at += len;
            size += len;
        } else if byte_at(bytes, at + 1) == b'\'' {
            at += 2;
            size += 1;
        } else if size <= MAX_TEXT {
            return Ok(at + 1);
        } else {
            return Err(ReadFault::At {
                code: Code::TooLong,
                offset: start,
            });
        }
    }
    Err(ReadFault::At {
        code: Code::OpenText,
        offset: start,
    })
}

/// Puts the text that stands first behind the tokens. The bytes are those of the line from `start`.
#[inline(always)]
pub fn text(tokens: &mut Vec<Token>, bytes: &[u8], start: usize) -> Result<usize, ReadFault>
    requires quote { slice_index bytes.now 0 ≡ 39 }
    requires short { start + length bytes.now ≤ 4096 }
    ensures { MatchResult result
        (λ end. IsPushed bytes.now start tokens.old.items tokens.new.items end)
        (λ e. IsFaultAt bytes.now start e) }
{
    match text_len(bytes, start) {
        Ok(len) => Token::push(tokens, TokenKind::Text, start, len),
        Err(fault) => Err(fault),
    }
}

/// How many bytes a text takes for a character.
fn written_len(char: char) -> usize
    ensures { result ≡ written_len char }
{
    if char == '\'' { 2 } else { char.len_utf8() }
}

/// What a quoted text says whose quotes are doubled.
fn with_quotes_once(alloc: Global, quoted: &[u8]) -> Result<Text, AllocError>
    requires text { IsSomeText quoted.now }
    requires short { length quoted.now ≤ 4096 }
    ensures { IfOk result (λ text. text ≡ unquoted quoted.now) }
{
    let mut text = String::with_capacity(alloc, quoted.len())?;
    let mut at = 1;
    while at + 1 < quoted.len() {
        match first_char(&quoted[at..]) {
            Some(char) => {
                text.push(char)?;
                at += written_len(char);
            }
            None => unreachable!(),
        }
    }
    Text::from_bytes(alloc, text.as_bytes())
}

/// What a quoted text says: its characters, a doubled quote once. The bytes are those of a token
/// of kind `Text`, with its quotes. Takes memory for a long text, and for a while where quotes are
/// doubled.
#[inline(always)]
pub fn unquoted(alloc: Global, quoted: &[u8]) -> Result<Text, AllocError>
    requires text { IsSomeText quoted.now }
    requires short { length quoted.now ≤ 4096 }
    ensures { IfOk result (λ text. text ≡ unquoted quoted.now) }
{
    let inside = &quoted[1..quoted.len() - 1];
    if inside.contains(&b'\'') {
        return with_quotes_once(alloc, quoted);
    }
    Text::from_bytes(alloc, inside)
}
