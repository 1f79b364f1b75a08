//! A journal whose last line was cut off, mended.

use crate::files::give_up_on;
use lines_core::LONGEST_LINE;
use std::fs::{File, OpenOptions};
use std::io::{Result, Write};
use std::process::ExitCode;

/// What no journal has: behind its last line feed there is more than a line may have.
const NO_LINE: &[u8] = b"its last line has no line feed, and is too long for one";

const UNMENDED: &[u8] = b"cannot be mended";

/// Writes the bytes to the end of the file of this name with `.cut` behind it.
fn put_by(rt: &HostRuntime, path: &str, cut: &[u8]) -> Result<()> {
    let name = format!(in rt.alloc(); "{path}.cut")?;
    let mut file = OpenOptions::new()
        .append(true)
        .create(true)
        .open(rt, name.as_str())?;
    file.write_all(cut)
}

/// Takes so many bytes off the end of the file.
fn take_off(file: &File, count: u64) -> Result<()> {
    let size = file.metadata()?.len();
    file.set_len(size.saturating_sub(count))
}

/// Tells on standard error what became of the bytes.
fn tell_mended(rt: &HostRuntime, path: &str, count: usize, is_put_by: bool) {
    let _ = if is_put_by {
        eprintln!(rt;
            "sysr: {path}: its last line was cut off; {count} bytes were moved to {path}.cut"
        )
    } else {
        eprintln!(rt; "sysr: {path}: its last line was cut off; {count} bytes were taken away")
    };
}

/// Takes the bytes behind the last line feed of a journal off its end, which are a line that was cut
/// off: nobody was told of its change. They are put by beside the journal, where there is room for
/// them, and that is told. The error is the status, where the journal cannot be mended, which is told.
pub fn mend(rt: &HostRuntime, path: &str, cut: &[u8]) -> std::result::Result<(), ExitCode> {
    if cut.len() > LONGEST_LINE {
        return Err(give_up_on(rt, path, NO_LINE));
    }
    let is_put_by = put_by(rt, path, cut).is_ok();
    let mended = match OpenOptions::new().append(true).open(rt, path) {
        Ok(file) => take_off(&file, cut.len() as u64),
        Err(error) => Err(error),
    };
    if mended.is_err() {
        return Err(give_up_on(rt, path, UNMENDED));
    }
    tell_mended(rt, path, cut.len(), is_put_by);
    Ok(())
}
