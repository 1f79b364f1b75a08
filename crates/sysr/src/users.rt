//! The file of users.
ghost use Rattle.std.specs.Prelude.{◌≡◌, ℕ, List, false, IfOk, IfErr};
ghost use Rattle.std.specs.Option.{is_some};
ghost use Rattle.std.specs.Process.{exit_status};
ghost use Rattle.std.specs.Io.KnownBytes.{Consumes, IsAtEnd};
ghost use Rattle.login_core.specs.Users.{SayUsers};

use crate::random::fill;
use crate::whole::{Unread, read_whole};
use base_core::{Source, StdSource};
use door_core::Login;
use lines_core::{NO_MEMORY, Steady, give_up};
use login_core::{UserFile, UsersFault, WrongLine, read_users};
use std::alloc::Global;
use std::fs::File;
use std::io::Write;
use std::os::unix::fs::MetadataExt;
use std::process::ExitCode;
use std::sync::Arc;
use std::{fs, io};

/// How many bytes the file has at most. 10,000 users of PostgreSQL's form have some 1,600,000.
const MOST_BYTES: usize = 3_000_000;

/// What no mode of the file has: its group may write it, or others may read or write it.
const OPEN: u32 = 0o026;

const SECRET_BYTES: usize = 32;

/// Why the file is not taken.
#[derive(Clone, Copy, Debug, PartialEq, Eq)]
pub enum Untaken {
    Unread,
    /// Its mode lets others in.
    Open,
    TooLong,
    Users(UsersFault),
}

fn check_mode(file: &File) -> Result<(), Untaken> {
    match file.metadata() {
        Ok(metadata) if metadata.mode() & OPEN == 0 => Ok(()),
        Ok(_) => Err(Untaken::Open),
        Err(_) => Err(Untaken::Unread),
    }
}

/// The users that the reader has to come.
fn users_of<S: Source>(alloc: Global, reader: &mut S) -> Result<UserFile, Untaken>
    requires { S.failed reader.old ≡ false }
    ensures { IfOk result (λ file. (text : List ℕ)
        × Consumes (S.left reader.old) (S.left reader.new) text × IsAtEnd (S.left reader.new)
        × SayUsers text file.users) }
{
    let text = match read_whole(alloc, reader, MOST_BYTES) {
        Ok(text) => text,
        Err(Unread::Broken) => return Err(Untaken::Unread),
        Err(Unread::TooLong) => return Err(Untaken::TooLong),
        Err(Unread::NoMemory) => return Err(Untaken::Users(UsersFault::NoMemory)),
    };
    match read_users(alloc, text.as_slice()) {
        Ok(file) => Ok(file),
        Err(fault) => Err(Untaken::Users(fault)),
    }
}

/// The users of the file of this name.
pub fn read_user_file(rt: &HostRuntime, path: &str) -> Result<UserFile, Untaken> {
    let Ok(file) = fs::open(rt, path) else {
        return Err(Untaken::Unread);
    };
    check_mode(&file)?;
    users_of(rt.alloc(), &mut StdSource::new(Steady::new(file)))
}

fn wrong_text(why: WrongLine) -> &'static str {
    match why {
        WrongLine::NoUser => "is no user's line",
        WrongLine::Twice => "is a second line of its user",
        WrongLine::TooMany => "is one line too many",
    }
}

/// Writes why the file of this name is not taken.
pub fn write_untaken<W: Write>(writer: &mut W, path: &str, why: Untaken) -> io::Result<()> {
    match why {
        Untaken::Unread => write!(writer, "sysr: {path}: cannot be read\n"),
        Untaken::Open => {
            write!(
                writer,
                "sysr: {path}: is open to others; its mode has to be 600 or 640\n"
            )
        }
        Untaken::TooLong => write!(writer, "sysr: {path}: has more than {MOST_BYTES} bytes\n"),
        Untaken::Users(UsersFault::Line { number, why }) => {
            let wrong = wrong_text(why);
            write!(writer, "sysr: {path}: line {number}: {wrong}\n")
        }
        Untaken::Users(UsersFault::NoMemory) => write!(writer, "{NO_MEMORY}\n"),
    }
}

/// Tells on standard error why the file is not taken.
fn give_up_file(rt: &HostRuntime, path: &str, why: Untaken) -> ExitCode
    ensures { exit_status result ≡ 1 }
{
    let _ = write_untaken(&mut rt.stderr(), path, why);
    ExitCode::FAILURE
}

/// The users of the file, whom threads can share. The error is the status, where it is not taken,
/// which is told.
fn shared_users(rt: &HostRuntime, path: &str) -> Result<Arc<UserFile>, ExitCode>
    ensures { IfErr result (λ status. exit_status status ≡ 1) }
{
    let file = match read_user_file(rt, path) {
        Ok(file) => file,
        Err(why) => return Err(give_up_file(rt, path, why)),
    };
    match Arc::new(rt.alloc(), file) {
        Ok(file) => Ok(file),
        Err(_) => Err(give_up(rt, NO_MEMORY)),
    }
}

/// Who may log in, where a file of users is named. The error is the status, where it is not taken,
/// or no secret could be made, which is told.
pub fn login_of(rt: &HostRuntime, path: Option<&str>) -> Result<Option<Login>, ExitCode>
    ensures ok { IfOk result (λ login. is_some login ≡ is_some path.entry) }
    ensures err { IfErr result (λ status. exit_status status ≡ 1) }
{
    let Some(path) = path else {
        return Ok(None);
    };
    let file = shared_users(rt, path)?;
    let mut secret = [0; SECRET_BYTES];
    fill(rt, &mut secret)?;
    Ok(Some(Login::new(file, secret)))
}
