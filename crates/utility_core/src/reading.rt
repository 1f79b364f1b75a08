//! Which command a line is.

ghost use Rattle.std.specs.Prelude.{◌≡◌, map, drop, length, option_map};
ghost use Rattle.std.specs.List.{list_all, prefix_len};
ghost use Rattle.utility_core.specs.Words.{words_of};
ghost use Rattle.utility_core.specs.Commands.{is_rest, is_of_form, found, without_end, behind_scope, set_command, command_in, is_padding, is_version_question, underscored_name};
ghost use Rattle.utility_core.specs.Forms.{command_forms, setting_forms};

use crate::command::Command;
use crate::forms::{COMMANDS, Form, MODES, Rest, SCOPES, SETTINGS, UTF8, YES};
use crate::words::{are_among, are_words, is_among, is_one_word, parts_at, spells};
use lexer_core::Token;

const QUESTION: &[u8] = b"select pg_catalog.version()";

const UNDERSCORED: &[u8] = b"deallocate _";

fn is_rest(rest: Rest, line: &[u8], tokens: &[Token]) -> bool
    ensures { result ≡ is_rest rest (words_of line.now tokens.now) }
{
    match rest {
        Rest::Nothing => tokens.is_empty(),
        Rest::Anything => true,
        Rest::Word => is_one_word(line, tokens),
        Rest::Modes => are_among(&MODES, line, tokens),
        Rest::SomeModes => !tokens.is_empty() && are_among(&MODES, line, tokens),
        Rest::Values => !tokens.is_empty(),
        Rest::Utf8 => tokens.len() == 1 && are_among(&UTF8, line, tokens),
        Rest::Yes => tokens.len() == 1 && are_among(&YES, line, tokens),
    }
}

fn is_of_form(form: &Form, line: &[u8], tokens: &[Token]) -> bool
    ensures { result ≡ is_of_form (words_of line.now tokens.now)
        (map (λ w. w.now) form.now.0.now, form.now.1, form.now.2) }
{
    let (front, behind) = parts_at(tokens, form.0.len());
    are_words(form.0, line, front) && is_rest(form.1, line, behind)
}

/// The command of the first form that fits.
fn found(mut forms: &[Form], line: &[u8], tokens: &[Token]) -> Option<Command>
    ensures { result ≡ found (map (λ r. (map (λ w. w.now) r.0.now, r.1, r.2)) forms.entry.now)
        (words_of line.now tokens.now) }
{
    while let [form, others @ ..] = forms {
        if is_of_form(form, line, tokens) {
            return Some(form.2);
        }
        forms = others;
    }
    None
}

fn without_end<'a>(line: &[u8], tokens: &'a [Token]) -> &'a [Token]
    ensures { words_of line.now result.now ≡ without_end (words_of line.now tokens.now) }
{
    let (front, last) = parts_at(tokens, tokens.len().saturating_sub(1));
    if are_words(&[b";"], line, last) {
        front
    } else {
        tokens
    }
}

fn behind_scope<'a>(line: &[u8], tokens: &'a [Token]) -> &'a [Token]
    ensures { words_of line.now result.now ≡ behind_scope (words_of line.now tokens.now) }
{
    match tokens {
        [token, behind @ ..] if is_among(&SCOPES, line, token) => behind,
        _ => tokens,
    }
}

fn set_command(line: &[u8], tokens: &[Token]) -> Option<Command>
    ensures { result ≡ set_command (words_of line.now tokens.now) }
{
    let (first, behind) = parts_at(tokens, 1);
    if are_words(&[b"set"], line, first) {
        found(&SETTINGS, line, behind_scope(line, behind))
    } else {
        None
    }
}

/// The command that the tokens of a line are, if they are one: by their words, in any case. A `;`
/// at the end does not count.
pub fn command_of(line: &[u8], tokens: &[Token]) -> Option<Command>
    ensures { result ≡ command_in (words_of line.now tokens.now) }
{
    let said = without_end(line, tokens);
    match found(&COMMANDS, line, said) {
        Some(command) => Some(command),
        None => set_command(line, said),
    }
}

fn is_padding(byte: u8) -> bool
    ensures { result ≡ is_padding byte }
{
    byte == b'\t' || byte == b'\n' || byte == b'\r' || byte == b' ' || byte == b';'
}

fn behind_padding(mut bytes: &[u8]) -> &[u8]
    ensures { result.now ≡ drop (prefix_len is_padding bytes.entry.now) bytes.entry.now }
{
    while let [byte, behind @ ..] = bytes {
        if !is_padding(*byte) {
            return bytes;
        }
        bytes = behind;
    }
    bytes
}

fn are_padding(bytes: &[u8]) -> bool
    ensures { result ≡ list_all is_padding bytes.now }
{
    bytes.iter().all(|byte| is_padding(*byte))
}

/// Whether the text is `select pg_catalog.version()` in any case, with nothing but blanks, line
/// ends and `;` around it. The dot is no token, so that such a line has none.
pub fn is_version_question(text: &[u8]) -> bool
    ensures { result ≡ is_version_question text.now }
{
    let (front, behind) = parts_at(behind_padding(text), QUESTION.len());
    spells(QUESTION, front) && are_padding(behind)
}

/// The name behind `DEALLOCATE`, in any case, and one blank, where it begins with `_`: drivers name
/// their own statements so. Such a name is no token, so that the line has none. None of any other text.
pub fn underscored_name(text: &[u8]) -> Option<&[u8]>
    ensures { option_map (λ name. name.now) result ≡ underscored_name text.now }
{
    let (front, _) = parts_at(text, UNDERSCORED.len());
    if spells(UNDERSCORED, front) {
        let (_, name) = parts_at(text, UNDERSCORED.len() - 1);
        Some(name)
    } else {
        None
    }
}
