//! The folder of a server, opened.
ghost use Rattle.std.specs.Prelude.{◌≡◌, false, IfOk};

use crate::directory::Directory;
use crate::hands::Hands;
use crate::names::unfinished_in;
use crate::shared::Shared;
use crate::waker::Waker;
use base_core::NoMemory;
use std::fs;
use std::fs::{File, OpenOptions, TryLockError};
use std::io::ErrorKind;
use std::sync::Arc;

/// Why a folder was not opened.
#[derive(Clone, Copy)]
pub enum OpenFault {
    /// It cannot be made, or read and written.
    Broken,
    /// Another server has it open.
    InUse,
    NoMemory,
}

impl From<NoMemory> for OpenFault {
    fn from(_: NoMemory) -> Self {
        OpenFault::NoMemory
    }
}

/// Makes the folder, unless it is there.
fn make(host: &HostRuntime, path: &str) -> Result<(), OpenFault> {
    match fs::create_dir(host, path) {
        Ok(()) => Ok(()),
        Err(error) if error.kind() == ErrorKind::AlreadyExists => Ok(()),
        Err(_) => Err(OpenFault::Broken),
    }
}

/// A file of the folder that is locked as long as it is open.
fn locked(host: &HostRuntime, path: &str) -> Result<File, OpenFault> {
    let Ok(name) = format!(in host.alloc(); "{path}/lock") else {
        return Err(OpenFault::NoMemory);
    };
    let opened = OpenOptions::new()
        .append(true)
        .create(true)
        .open(host, name.as_str());
    let Ok(file) = opened else {
        return Err(OpenFault::Broken);
    };
    match file.try_lock() {
        Ok(()) => Ok(file),
        Err(TryLockError::WouldBlock) => Err(OpenFault::InUse),
        Err(TryLockError::Error(_)) => Err(OpenFault::Broken),
    }
}

/// Removes a dump that was not finished.
fn remove_unfinished(host: &HostRuntime, path: &str) -> Result<(), OpenFault> {
    let Ok(name) = unfinished_in(host.alloc(), path) else {
        return Err(OpenFault::NoMemory);
    };
    match fs::remove_file(host, name.as_str()) {
        Ok(()) => Ok(()),
        Err(error) if error.kind() == ErrorKind::NotFound => Ok(()),
        Err(_) => Err(OpenFault::Broken),
    }
}

fn new_waker(host: &HostRuntime) -> Result<Waker, OpenFault> {
    match Waker::new(host) {
        Ok(waker) => Ok(waker),
        Err(_) => Err(OpenFault::NoMemory),
    }
}

/// Opens the folder, which is made if it is missing, and gives who does for it what takes long besides, also whether
/// [`Hands::keep_synced`] is to be called. What a dump left that was not finished is removed.
pub fn open(
    host: &HostRuntime,
    path: &str,
    is_kept_synced: bool,
) -> Result<(Directory, Hands), OpenFault>
    ensures { IfOk result (λ b. b.0.failed ≡ false) }
{
    make(host, path)?;
    let lock = locked(host, path)?;
    remove_unfinished(host, path)?;
    let Ok(folder) = fs::open(host, path) else {
        return Err(OpenFault::Broken);
    };
    let alloc = host.alloc();
    let waker = if is_kept_synced {
        Some(new_waker(host)?)
    } else {
        None
    };
    let Ok(shared) = Arc::new(alloc, Shared::new(alloc, folder, waker)) else {
        return Err(OpenFault::NoMemory);
    };
    let (Ok(own), Ok(name), Ok(other)) = (
        Arc::try_clone(&shared),
        path.to_string(alloc),
        path.to_string(alloc),
    ) else {
        return Err(OpenFault::NoMemory);
    };
    Ok((
        Directory::new(*host, name, own, lock),
        Hands::new(*host, other, shared),
    ))
}
