//! The files that a command line names, each by one word.
ghost use Rattle.std.specs.Prelude.{◌≡◌, true, IfSome};
ghost use Rattle.std.specs.Option.{is_some};

use std::fs;
use std::io::Write;
use std::os::unix::fs::MetadataExt;
use std::process::ExitCode;

/// The status of a command line that is refused.
const REFUSED_STATUS: u8 = 2;

/// The names of the files: which is loaded, to which each change is written, to which the state is
/// written at the end, and by which users log in.
#[derive(Clone, Copy)]
pub struct Named<'a> {
    pub load: Option<&'a str>,
    pub journal: Option<&'a str>,
    pub dump: Option<&'a str>,
    pub users: Option<&'a str>,
}

impl<'a> Named<'a> {
    /// The file that is loaded and gone on with, if there is one: both words give it the same name.
    pub fn gone_on(self) -> Option<&'a str>
        ensures load { IfSome result (λ _. is_some self.entry.load ≡ true) }
        ensures journal { IfSome result (λ _. is_some self.entry.journal ≡ true) }
    {
        match (self.load, self.journal) {
            (Some(loaded), Some(path)) if loaded == path => Some(path),
            _ => None,
        }
    }
}

/// Whether both names lead to one file, which is there.
fn lead_to_one(rt: &HostRuntime, first: &str, second: &str) -> bool {
    let (Ok(first), Ok(second)) = (fs::metadata(rt, first), fs::metadata(rt, second)) else {
        return false;
    };
    first.dev() == second.dev() && first.ino() == second.ino()
}

/// Refuses two words that name one file, under one name or two.
fn apart(
    rt: &HostRuntime,
    first: (&str, Option<&str>),
    second: (&str, Option<&str>),
) -> Result<(), ExitCode> {
    let (Some(path), Some(other)) = (first.1, second.1) else {
        return Ok(());
    };
    if path == other || lead_to_one(rt, path, other) {
        let (one, two) = (first.0, second.0);
        let _ = eprintln!(rt; "error: {one} and {two} name one file: {path}");
        return Err(ExitCode::from(REFUSED_STATUS));
    }
    Ok(())
}

fn refuse_names(rt: &HostRuntime, path: &str, other: &str) -> ExitCode {
    let mut err = rt.stderr();
    let _ = err.write_all(b"error: --load and --journal name one file by two names: ");
    let _ = writeln!(err, "{path} and {other}");
    ExitCode::from(REFUSED_STATUS)
}

/// Refuses two names of one file that is loaded and gone on with: whether it is the same one is
/// seen by its name.
fn one_name(rt: &HostRuntime, load: Option<&str>, journal: Option<&str>) -> Result<(), ExitCode> {
    let (Some(path), Some(other)) = (load, journal) else {
        return Ok(());
    };
    if path == other || !lead_to_one(rt, path, other) {
        return Ok(());
    }
    Err(refuse_names(rt, path, other))
}

/// Refuses a command line of which two words name one file, whose contents would then be lost or
/// mixed: but what is loaded may be gone on with, under the same name. The error is the status, and
/// the reason is told.
pub fn apart_from_each_other(rt: &HostRuntime, named: Named<'_>) -> Result<(), ExitCode> {
    let Named {
        load,
        journal,
        dump,
        users,
    } = named;
    apart(rt, ("--journal", journal), ("--dump", dump))?;
    apart(rt, ("--load", load), ("--dump", dump))?;
    apart(rt, ("--users", users), ("--journal", journal))?;
    apart(rt, ("--users", users), ("--dump", dump))?;
    one_name(rt, load, journal)
}
