//! Socket files.
ghost use Rattle.std.specs.Prelude.{◌≡◌, IfErr};
ghost use Rattle.std.specs.Process.{exit_status};

use crate::files::give_up_on;
use crate::system_users::uid_of;
use base_core::User;
use std::fs;
use std::fs::{Metadata, Permissions};
use std::io::ErrorKind;
use std::os::unix::fs::{MetadataExt, PermissionsExt, lchown};
use std::os::unix::net::{UnixListener, UnixStream};
use std::process::ExitCode;

// The kind of a file, and that of a socket, in its mode.
const KIND: u32 = 0o170000;

const SOCKET: u32 = 0o140000;

/// The mode of a socket file that its owner alone may open.
pub const OWNERS: u32 = 0o600;

fn is_socket(metadata: &Metadata) -> bool {
    metadata.mode() & KIND == SOCKET
}

/// Removes a socket file that a server has left there which was killed. The error is the status,
/// where a server listens at it, which is told.
fn remove_left_over(rt: &HostRuntime, path: &str) -> Result<(), ExitCode>
    ensures { IfErr result (λ status. exit_status status ≡ 1) }
{
    match fs::metadata(rt, path) {
        Ok(metadata) if is_socket(&metadata) => {}
        _ => return Ok(()),
    }
    if UnixStream::connect(rt, path).is_ok() {
        return Err(give_up_on(rt, path, b"in use by another sysr"));
    }
    let _ = fs::remove_file(rt, path);
    Ok(())
}

/// A connection to the server of this control socket. The error is the status, where there is none,
/// which is told.
pub fn connected(rt: &HostRuntime, path: &str) -> Result<UnixStream, ExitCode>
    ensures { IfErr result (λ status. exit_status status ≡ 1) }
{
    match UnixStream::connect(rt, path) {
        Ok(stream) => Ok(stream),
        Err(error) if error.kind() == ErrorKind::PermissionDenied => {
            Err(give_up_on(rt, path, b"cannot be opened"))
        }
        Err(_) => Err(give_up_on(rt, path, b"no server listens there")),
    }
}

/// Listens at a new socket file of this name and mode. The error is the status, where there is none
/// to be had, which is told.
pub fn listener_at(rt: &HostRuntime, path: &str, mode: u32) -> Result<UnixListener, ExitCode>
    ensures { IfErr result (λ status. exit_status status ≡ 1) }
{
    remove_left_over(rt, path)?;
    let Ok(listener) = UnixListener::bind(rt, path) else {
        return Err(give_up_on(rt, path, b"cannot be listened at"));
    };
    if fs::set_permissions(rt, path, Permissions::from_mode(mode)).is_err() {
        return Err(give_up_on(rt, path, b"cannot be listened at"));
    }
    Ok(listener)
}

/// Listens at a new socket file of this name that the user alone may open: the system's user of his
/// name owns it, or, where the system has none, who runs the server. The error is the status, where
/// there is none to be had, or it cannot be given to him, which is told.
pub fn user_listener_at(rt: &HostRuntime, user: User, path: &str) -> Result<UnixListener, ExitCode>
    ensures { IfErr result (λ status. exit_status status ≡ 1) }
{
    let listener = listener_at(rt, path, OWNERS)?;
    let Some(uid) = uid_of(rt, user) else {
        return Ok(listener);
    };
    // A link that somebody has put there is given to him, and not what it leads to.
    if lchown(rt, path, Some(uid), None).is_err() {
        let _ = fs::remove_file(rt, path);
        return Err(give_up_on(rt, path, b"cannot be given to its user"));
    }
    Ok(listener)
}
