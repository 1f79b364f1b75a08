//! Who speaks in a line, `user: statement`, and what he asks.
ghost use Rattle.std.specs.Prelude.{◌≡◌, ◌≤◌, IfErr, IfOk, length};
ghost use Rattle.std.specs.List.{list_all, prefix_len};
ghost use Rattle.base_core.specs.Words.{is_word_byte};
ghost use Rattle.lexer_core.specs.Lexing.{is_blank};
ghost use Rattle.script_core.specs.Addressed.{addressed_by, addressed_up_to, Asks, IsUnreadFor};

use base_core::{User, Word};
use lexer_core::{Code, MAX_NAME, ReadFault, Token, byte_at, is_blank, word_len};
use reader_core::{Statement, read_with};
use std::alloc::Global;

fn is_blank_line(line: &[u8]) -> bool
    ensures { result ≡ list_all is_blank line.now }
{
    line.iter().all(|byte| is_blank(*byte))
}

/// The user whose word of so many bytes stands at the front, and the place behind its colon.
fn addressed_by(line: &[u8], n: usize) -> Result<(User, usize), (Code, usize)>
    requires { n ≡ prefix_len is_word_byte line.now }
    ensures exact { result ≡ addressed_by n line.now }
    ensures within { IfOk result (λ found. (found.1 ≤ length line.now) × (found.1 ≤ 31)) }
{
    let expected = Err((Code::Expected, 0));
    if !byte_at(line, 0).is_ascii_alphabetic() {
        return expected;
    }
    if n > MAX_NAME {
        return Err((Code::LongName, 0));
    }
    if byte_at(line, n) != b':' {
        return expected;
    }
    match Word::read(&line[..n]) {
        Word::Name(name) => Ok((User(name), n + 1)),
        Word::Keyword(_) => expected,
    }
}

/// Who speaks, and the place behind the colon, in a line that may have so many bytes. Otherwise the
/// fault and its byte.
// Inlined, as each line of a script is cut by it.
#[inline(always)]
fn addressed_up_to(most: usize, line: &[u8]) -> Result<(User, usize), (Code, usize)>
    ensures exact { result ≡ addressed_up_to most line.now }
    ensures within { IfOk result (λ found. (found.1 ≤ length line.now) × (found.1 ≤ 31)) }
{
    if line.len() > most {
        return Err((Code::TooLong, most));
    }
    if is_blank_line(line) {
        return Err((Code::Empty, 0));
    }
    addressed_by(line, word_len(line))
}

/// Reads a line, `user: statement`, that may have so many bytes: who speaks, and what he asks.
///
/// Otherwise the line's one fault: `TooLong` at that many bytes; `Empty` for a line of blanks,
/// `LongName` for a first word of more than 30 bytes, and `Expected` where no user and colon stand
/// first, these three at 0; else that of the statement, counted from the front of the line.
/// `NoMemory` where a request for memory was refused. The vector has room for the tokens; what it
/// has before and behind the call means nothing.
// Inlined, so that a statement is not moved once more for each line.
#[inline(always)]
pub fn read_addressed(
    alloc: Global,
    tokens: &mut Vec<Token>,
    most: usize,
    line: &[u8],
) -> Result<(User, Statement), ReadFault>
    ensures asks { IfOk result (λ said. Asks most line.now said.0 said.1) }
    ensures unread { IfErr result (IsUnreadFor most line.now) }
{
    let (user, start) = match addressed_up_to(most, line) {
        Ok(address) => address,
        Err((code, offset)) => return Err(ReadFault::At { code, offset }),
    };
    match read_with(alloc, tokens, &line[start..]) {
        Ok(statement) => Ok((user, statement)),
        Err(ReadFault::At { code, offset }) => {
            let offset = start + offset;
            Err(ReadFault::At { code, offset })
        }
        Err(ReadFault::NoMemory) => Err(ReadFault::NoMemory),
    }
}
