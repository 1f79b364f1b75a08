//! A user's line of a file of users.
ghost use Rattle.std.specs.Prelude.{◌≡◌, ◌<◌, false, IfOk, IfErr, IfSome};
ghost use Rattle.std.specs.List.{list_all};
ghost use Rattle.std.specs.Io.KnownBytes.{Consumes, IsAtEnd};
ghost use Rattle.std.specs.Process.{exit_status};
ghost use Rattle.login_core.specs.declared.verifier.Verifier.{Verifier as Kept};
ghost use Rattle.sysr.specs.Passwords.{is_password_byte, IsPassword, IsLineOf, IsOfPassword, ended_user_line, WritesVerifier};

use crate::random::fill;
use crate::whole::{Unread, read_whole, write_whole};
use base_core::{Sink, Source, User};
use lines_core::{NO_MEMORY, SessionFault, fault_text, give_up};
use login_core::{Verifier, make_verifier, verifier_text};
use std::alloc::{AllocError, Global};
use std::process::ExitCode;

/// How many bytes a password has at most.
const MOST_BYTES: usize = 1024;

/// How many bytes a salt has, as PostgreSQL makes it.
const SALT_BYTES: usize = 16;

/// How often a password is hashed, as PostgreSQL does it.
const ITERATIONS: u32 = 4096;

const NO_PASSWORD: &str =
    "sysr: a password is one line of 1 to 1,024 printable characters of ASCII";

fn is_password_byte(byte: u8) -> bool
    ensures { result ≡ is_password_byte byte }
{
    matches!(byte, b' '..=b'~')
}

fn are_printable(bytes: &[u8]) -> bool
    ensures { result ≡ list_all is_password_byte bytes.now }
{
    bytes.iter().all(|byte| is_password_byte(*byte))
}

/// The text, without a line feed at its end.
fn without_feed(text: &[u8]) -> &[u8]
    ensures { IsLineOf text.now result.now }
{
    match text {
        [line @ .., b'\n'] => line,
        _ => text,
    }
}

/// The password that is the one line of a text, with a line feed behind it or without. None, where
/// it is none.
fn password_of(text: &[u8]) -> Option<&[u8]>
    ensures { IfSome result (λ password. IsPassword password.now
        × IsLineOf text.now password.now) }
{
    let password = without_feed(text);
    if password.is_empty() || password.len() > MOST_BYTES || !are_printable(password) {
        return None;
    }
    Some(password)
}

/// What is kept of a password, which was hashed so often.
fn verifier_of(
    alloc: Global,
    password: &[u8],
    salt: &[u8; SALT_BYTES],
    iterations: u32,
) -> Result<Verifier, AllocError>
    requires { 0 < iterations }
    ensures { IfOk result (IsOfPassword password.now iterations) }
{
    make_verifier(alloc, password, salt, iterations)
}

/// The line of a user of whom this is kept, with its line feed.
fn line_of(alloc: Global, user: User, verifier: &Verifier) -> Result<Vec<u8>, AllocError>
    ensures { IfOk result (λ line. line.items ≡ ended_user_line user verifier.now) }
{
    let text = verifier_text(alloc, verifier)?;
    let mut line = Vec::new(alloc);
    line.extend_from_slice(user.0.as_bytes())?;
    line.extend_from_slice(b":")?;
    line.extend_from_slice(text.as_slice())?;
    line.push(b'\n')?;
    Ok(line)
}

/// The line of a user of this password, with its line feed. The error is the status, where there
/// was no memory or no salt for it, which is told.
fn line_of_password(rt: &HostRuntime, user: User, password: &[u8]) -> Result<Vec<u8>, ExitCode>
    ensures ok { IfOk result (λ line. (kept : Kept)
        × IsOfPassword password.now 4096 kept × (line.items ≡ ended_user_line user kept)) }
    ensures err { IfErr result (λ status. exit_status status ≡ 1) }
{
    let mut salt = [0; SALT_BYTES];
    fill(rt, &mut salt)?;
    let Ok(kept) = verifier_of(rt.alloc(), password, &salt, ITERATIONS) else {
        return Err(give_up(rt, NO_MEMORY));
    };
    match line_of(rt.alloc(), user, &kept) {
        Ok(line) => Ok(line),
        Err(_) => Err(give_up(rt, NO_MEMORY)),
    }
}

/// What the reader has to come, if a password may be that. The error is the status, which is told.
fn read_line<S: Source>(rt: &HostRuntime, reader: &mut S) -> Result<Vec<u8>, ExitCode>
    requires { S.failed reader.old ≡ false }
    ensures ok { IfOk result (λ text. Consumes (S.left reader.old) (S.left reader.new) text.items
        × IsAtEnd (S.left reader.new)) }
    ensures err { IfErr result (λ status. exit_status status ≡ 1) }
{
    match read_whole(rt.alloc(), reader, MOST_BYTES + 1) {
        Ok(text) => Ok(text),
        Err(Unread::TooLong) => Err(give_up(rt, NO_PASSWORD)),
        Err(Unread::Broken) => Err(give_up(rt, fault_text(SessionFault::Read))),
        Err(Unread::NoMemory) => Err(give_up(rt, NO_MEMORY)),
    }
}

/// Writes the user's line of a file of users, of the password that is the one line of the reader,
/// and of a new salt. Where the status is given, it is 0, and the line was written whole. The error
/// is the status, where that is no password, or something could not be done, which is told.
pub fn verifier<S: Source, W: Sink>(
    rt: &HostRuntime,
    reader: &mut S,
    writer: &mut W,
    user: User,
) -> Result<ExitCode, ExitCode>
    requires source { S.failed reader.old ≡ false }
    requires sink { W.failed writer.old ≡ false }
    ensures ok { IfOk result (λ status. WritesVerifier user (S.left reader.old)
        (S.left reader.new) (W.taken writer.old) (W.taken writer.new)) }
    ensures zero { IfOk result (λ status. exit_status status ≡ 0) }
    ensures err { IfErr result (λ status. exit_status status ≡ 1) }
{
    let text = read_line(rt, reader)?;
    let Some(password) = password_of(text.as_slice()) else {
        return Err(give_up(rt, NO_PASSWORD));
    };
    let line = line_of_password(rt, user, password)?;
    match write_whole(rt, writer, line.as_slice()) {
        Ok(()) => Ok(ExitCode::SUCCESS),
        Err(status) => Err(status),
    }
}
