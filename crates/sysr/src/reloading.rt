//! The file of users, read anew by a server.
ghost use Rattle.std.specs.Prelude.{◌≡◌, false};
ghost use Rattle.std.specs.Process.{exit_status};
ghost use Rattle.std.specs.Io.KnownBytes.{Appends};
ghost use Rattle.sysr.specs.Reloads.{IsTaken};

use crate::calls::{Call, line_of};
use crate::files::give_up_on;
use crate::socket_files::connected;
use crate::users::{Untaken, write_untaken};
use crate::whole::{read_whole, write_whole};
use base_core::{Sink, StdSource};
use lines_core::Steady;
use run_core::output;
use std::io::Write;
use std::net::Shutdown;
use std::os::unix::net::UnixStream;
use std::process::ExitCode;

// What a server answers begins so, where it has taken the file,
const TAKEN: &[u8] = b"reloaded ";

// and so, where it has not.
const UNTAKEN: &[u8] = b"sysr: ";

// How many bytes an answer has at most: it has a file's name.
const MOST_BYTES: usize = 8192;

const NO_ANSWER: &[u8] = b"no server answers there";

/// Answers who asked for the file to be read anew, of which the server has so many users now.
pub fn tell_taken(stream: &UnixStream, users: usize) {
    let mut stream = stream;
    let _ = write!(stream, "reloaded {users} users\n");
}

/// Answers him where the file of this name is not taken.
pub fn tell_untaken(stream: &UnixStream, path: &str, why: Untaken) {
    let mut stream = stream;
    let _ = write_untaken(&mut stream, path, why);
}

/// Answers him where there is none.
pub fn tell_no_file(stream: &UnixStream) {
    let mut stream = stream;
    let _ = stream.write_all(b"sysr: the server has no file of users\n");
}

/// Shows what a server answered. The status is 0 where it has taken the file, and that is shown.
fn show<W: Sink>(rt: &HostRuntime, writer: &mut W, path: &str, answer: &[u8]) -> ExitCode
    requires { W.failed writer.old ≡ false }
    ensures { exit_status result ≡ 0
        → IsTaken answer.now × Appends (W.taken writer.old) (W.taken writer.new) answer.now }
{
    if answer.starts_with(TAKEN) {
        return match write_whole(rt, writer, answer) {
            Ok(()) => ExitCode::SUCCESS,
            Err(status) => status,
        };
    }
    if answer.starts_with(UNTAKEN) {
        let _ = rt.stderr().write_all(answer);
        return ExitCode::FAILURE;
    }
    give_up_on(rt, path, NO_ANSWER)
}

fn ask(rt: &HostRuntime, path: &str) -> Result<UnixStream, ExitCode> {
    let mut stream = connected(rt, path)?;
    if stream.write_all(line_of(Call::Reload)).is_err()
        || stream.shutdown(Shutdown::Write).is_err()
    {
        return Err(give_up_on(rt, path, NO_ANSWER));
    }
    Ok(stream)
}

/// Has the server of this control socket read its file of users anew, and tells what it answers.
/// The status is 0 where the file was taken, and 1 where it was not, or no server listens there, or
/// none answers, which is told.
pub fn reload(rt: &HostRuntime, path: &str) -> ExitCode {
    let stream = match ask(rt, path) {
        Ok(stream) => stream,
        Err(status) => return status,
    };
    let mut writer = match output(rt) {
        Ok(writer) => writer,
        Err(status) => return status,
    };
    let mut reader = StdSource::new(Steady::new(stream));
    match read_whole(rt.alloc(), &mut reader, MOST_BYTES) {
        Ok(answer) => show(rt, &mut writer, path, answer.as_slice()),
        Err(_) => give_up_on(rt, path, NO_ANSWER),
    }
}
