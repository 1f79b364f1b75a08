//! Who may tell a server to stop, or to read its file of users anew, or ask how it fares: whoever
//! speaks at its control socket; and who ends its input.
ghost use Rattle.std.specs.Prelude.{◌≡◌, IfErr};
ghost use Rattle.std.specs.Process.{exit_status};

use crate::calls::{Call, line_of, read_call};
use crate::command::Serving;
use crate::end_of_input::ends_with;
use crate::figures::{Facts, seconds_now, tell_status};
use crate::files::give_up_on;
use crate::reloading::{tell_no_file, tell_taken, tell_untaken};
use crate::socket_files::{OWNERS, connected, listener_at};
use crate::users::{Untaken, read_user_file};
use door_core::wait_for_any;
use lines_core::{NO_MEMORY, give_up};
use login_core::{UserFile, UsersFault};
use server_core::{Control, Counters, Measure, Order};
use std::cell::Cell;
use std::io::{Read, Write};
use std::mem::forget;
use std::os::fd::AsRawFd;
use std::os::unix::net::{UnixListener, UnixStream};
use std::process::ExitCode;
use std::sync::{Arc, Mutex};
use std::thread::Threads;

// What is answered at a control socket.
const STOPPING: &[u8] = b"stopping\n";

const UNKNOWN: &[u8] = b"unknown\n";

// For how many milliseconds it waits for somebody who says something, where others are to end.
const PAUSE_MILLIS: i32 = 40;

const NO_LIMIT: i32 = -1;

/// Who asked that the file of users is read anew, once it was taken, and how many users it has. He
/// is told when the server has them.
#[derive(Drop)]
struct Owed {
    stream: UnixStream,
    users: usize,
}

/// Who may tell a server to stop, or to read its file of users anew, and ask how it fares.
#[derive(Drop)]
pub struct Controls<'a> {
    host: &'a HostRuntime,
    /// The control socket, if there is one.
    listener: Option<UnixListener>,
    /// Ends once standard input has ended, if that is to stop it.
    input: Option<UnixStream>,
    /// How many seconds sessions have then.
    grace: u64,
    /// The file of users, if there is one.
    users: Option<&'a str>,
    // One thread alone asks for it.
    owed: Mutex<Option<Owed>>,
    /// Whether the end of standard input was told.
    told: Cell<bool>,
    facts: Facts<'a>,
}

/// Answers who says that the server is to stop. He hears the end of the connection when the server
/// has ended.
fn promise_to_stop(stream: UnixStream) {
    let mut stream = stream;
    let _ = stream.write_all(STOPPING);
    forget(stream);
}

fn tell_unknown(stream: &UnixStream) {
    let mut stream = stream;
    let _ = stream.write_all(UNKNOWN);
}

impl<'a> Controls<'a> {
    /// Whether standard input has ended, since nobody was told.
    fn has_ended(&self) -> bool {
        let Some(mut input) = self.input.as_ref() else {
            return false;
        };
        !self.told.get() && input.read(&mut [0]).is_ok()
    }

    /// The descriptor by which the end of standard input is waited for, until it was told.
    fn end_of_input(&self) -> i32 {
        match &self.input {
            Some(input) if !self.told.get() => input.as_raw_fd(),
            _ => -1,
        }
    }

    /// Somebody who has connected, once one has.
    fn caller(&self) -> Option<UnixStream> {
        let listener = self.listener.as_ref()?;
        match listener.accept() {
            Ok((stream, _)) => Some(stream),
            Err(_) => None,
        }
    }

    /// The users of the file, read anew, if it is taken. Else he is told why not who asked for
    /// that.
    fn reread(&self, stream: UnixStream) -> Option<Arc<UserFile>> {
        let Some(path) = self.users else {
            tell_no_file(&stream);
            return None;
        };
        let file = match read_user_file(self.host, path) {
            Ok(file) => file,
            Err(why) => {
                tell_untaken(&stream, path, why);
                return None;
            }
        };
        let users = file.users.len();
        let Ok(file) = Arc::new(self.host.alloc(), file) else {
            tell_untaken(&stream, path, Untaken::Users(UsersFault::NoMemory));
            return None;
        };
        *self.owed.try_lock()? = Some(Owed { stream, users });
        Some(file)
    }

    /// Answers a caller. What he says to the server is given, if it is anything.
    fn answer<M: Measure>(
        &self,
        stream: UnixStream,
        counters: &Counters,
        measure: &M,
    ) -> Option<Order> {
        match read_call(&stream) {
            Call::Stop => {
                promise_to_stop(stream);
                return Some(Order::Stop);
            }
            Call::Reload => return Some(Order::Reload(self.reread(stream)?)),
            Call::Status(form) => {
                let size = measure.size();
                let _ = tell_status(self.host, &stream, form, self.facts, counters, size);
            }
            Call::Unknown => tell_unknown(&stream),
        }
        None
    }

    /// Tells who asked for it that the server has the users now that were read.
    fn tell_owed(&self) {
        let Some(mut owed) = self.owed.try_lock() else {
            return;
        };
        if let Some(Owed { stream, users }) = owed.take() {
            tell_taken(&stream, users);
        }
    }

    fn descriptor(&self) -> i32 {
        match &self.listener {
            Some(listener) => listener.as_raw_fd(),
            None => -1,
        }
    }
}

impl<'a> Control for Controls<'a> {
    fn listens(&self) -> bool {
        self.listener.is_some() || self.input.is_some()
    }

    fn heard<M: Measure>(
        &self,
        counters: &Counters,
        measure: &M,
        ear: Option<i32>,
    ) -> Option<Order> {
        self.tell_owed();
        let (ear, millis) = match ear {
            Some(ear) => (ear, NO_LIMIT),
            None => (-1, PAUSE_MILLIS),
        };
        wait_for_any([self.descriptor(), self.end_of_input(), ear], millis);
        if self.has_ended() {
            self.told.set(true);
            return Some(Order::Stop);
        }
        self.answer(self.caller()?, counters, measure)
    }

    fn grace(&self) -> u64 {
        self.grace
    }
}

/// A control socket of this name, which its owner alone may open. The error is the status, where
/// there is none to be had, which is told.
fn control_at(rt: &HostRuntime, path: &str) -> Result<UnixListener, ExitCode>
    ensures { IfErr result (λ status. exit_status status ≡ 1) }
{
    let listener = listener_at(rt, path, OWNERS)?;
    if listener.set_nonblocking(true).is_err() {
        return Err(give_up_on(rt, path, b"cannot be listened at"));
    }
    Ok(listener)
}

/// Who may tell the server to stop that is asked for. The error is the status, where there is no
/// control socket to be had, or no memory for what waits for the end of standard input, which is
/// told.
pub fn controls_of<'a, R: Threads>(
    host: &'a HostRuntime,
    rt: &R,
    asked: Serving<'a>,
) -> Result<Controls<'a>, ExitCode>
    ensures { IfErr result (λ status. exit_status status ≡ 1) }
{
    let input = if asked.until_eof {
        let Some(input) = ends_with(rt, host, host.alloc(), host.stdin()) else {
            return Err(give_up(host, NO_MEMORY));
        };
        Some(input)
    } else {
        None
    };
    let listener = match asked.control {
        Some(path) => Some(control_at(host, path)?),
        None => None,
    };
    Ok(Controls {
        host,
        listener,
        input,
        grace: asked.grace,
        users: asked.users,
        owed: Mutex::new(None),
        told: Cell::new(false),
        facts: Facts {
            started: seconds_now(host),
            most_changes: asked.limits.changes,
            workers: asked.workers as u64,
            journal: asked.journal,
            folder: asked.data.map(|data| data.path),
        },
    })
}

/// Tells the server of this control socket to stop, and waits until it has ended. The status is 0
/// then, and 1 where no server listens there, or it does not say that it stops, which is told.
pub fn stop(rt: &HostRuntime, path: &str) -> ExitCode {
    let mut stream = match connected(rt, path) {
        Ok(stream) => stream,
        Err(status) => return status,
    };
    let mut answer = [0; 16];
    if stream.write_all(line_of(Call::Stop)).is_err()
        || stream.read_exact(&mut answer[..STOPPING.len()]).is_err()
    {
        return give_up_on(rt, path, b"no server answers there");
    }
    let mut rest = [0; 16];
    match stream.read(&mut rest) {
        Ok(0) if answer.starts_with(STOPPING) => ExitCode::SUCCESS,
        _ => give_up_on(rt, path, b"no server answers there"),
    }
}
