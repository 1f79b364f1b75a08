//! Whom the first line of a session names.
ghost use Rattle.std.specs.Prelude.{◌≡◌, ◌≤◌, length};
ghost use Rattle.std.specs.List.{list_all, prefix_len};
ghost use Rattle.session_core.specs.Greeting.{is_space, is_user_word, first_word, behind_first_word, behind_spaces, name_alone, given_name, greeting};

use base_core::{Name, User};
use lexer_core::{Code, MAX_LINE, word_len};

const SPACE: u8 = b' ';

fn is_user_word(word: &[u8]) -> bool
    ensures { result ≡ is_user_word word.now }
{
    word.eq_ignore_ascii_case(b"USER")
}

/// The letters, digits and `_` at the front, and what stands behind them.
fn split_word(bytes: &[u8]) -> (&[u8], &[u8])
    ensures word { result.0.now ≡ first_word bytes.now }
    ensures behind { result.1.now ≡ behind_first_word bytes.now }
{
    bytes.split_at(word_len(bytes))
}

fn space_len(bytes: &[u8]) -> usize
    ensures len { result ≡ prefix_len is_space bytes.now }
    ensures within { result ≤ length bytes.now }
{
    bytes.iter().take_while(|byte| **byte == SPACE).count()
}

fn behind_spaces(bytes: &[u8]) -> &[u8]
    ensures { result.now ≡ behind_spaces bytes.now }
{
    let (_, behind) = bytes.split_at(space_len(bytes));
    behind
}

fn are_spaces(bytes: &[u8]) -> bool
    ensures { result ≡ list_all is_space bytes.now }
{
    bytes.iter().all(|byte| *byte == SPACE)
}

/// The name at the front, where nothing but spaces stands behind it.
fn name_alone(bytes: &[u8]) -> Option<Name>
    ensures { result ≡ name_alone bytes.now }
{
    let (word, behind) = split_word(bytes);
    if !are_spaces(behind) {
        return None;
    }
    Name::read(word)
}

fn given_name(line: &[u8]) -> Option<Name>
    ensures { result ≡ given_name line.now }
{
    let (word, behind) = split_word(line);
    if !is_user_word(word) {
        return None;
    }
    name_alone(behind_spaces(behind))
}

/// The user whom the line names: the word USER in any case, one or more spaces, a name, and nothing
/// more but spaces. Otherwise the fault and its byte: `TooLong` at 4,096, or `Expected` at 0.
pub fn greeting(line: &[u8]) -> Result<User, (Code, usize)>
    ensures { result ≡ greeting line.now }
{
    if line.len() > MAX_LINE {
        return Err((Code::TooLong, MAX_LINE));
    }
    match given_name(line) {
        Some(name) => Ok(User(name)),
        None => Err((Code::Expected, 0)),
    }
}
