//! How long it took to read a file.

use lines_core::{SessionFault, fault_text, give_up};
use std::fs;
use std::process::ExitCode;
use std::time::{Clock, Instant};

/// Says how many bytes the file has that was loaded, and how many milliseconds that took since then, if
/// one was, and the clock says it. The error is the status, where that could not be said, which is told.
pub fn tell_reading<R: Clock>(
    host: &HostRuntime,
    rt: &R,
    load: Option<&str>,
    since: Option<Instant>,
) -> Result<(), ExitCode> {
    let (Some(path), Some(since)) = (load, since) else {
        return Ok(());
    };
    let (Ok(metadata), Ok(took)) = (fs::metadata(host, path), since.elapsed(rt)) else {
        return Ok(());
    };
    match println!(host; "read {} bytes in {} ms", metadata.len(), took.as_millis()) {
        Ok(()) => Ok(()),
        Err(_) => Err(give_up(host, fault_text(SessionFault::Write))),
    }
}
