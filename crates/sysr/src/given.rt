//! What a command reads: standard input, or a server's folder.
ghost use Rattle.std.specs.Prelude.{◌≡◌, false, IfOk, IfErr};
ghost use Rattle.std.specs.Process.{exit_status};

use crate::files::give_up_on;
use base_core::StdSource;
use directory_core::History;
use folder_core::FolderFault;
use lines_core::{NO_MEMORY, Steady, give_up};
use std::io::{Read, Result, Stdin};
use std::process::ExitCode;

/// What a command reads: standard input, or the changes of a server's folder.
#[derive(Drop)]
pub enum Given {
    Input(Steady<Stdin>),
    Folder(Steady<History>),
}

impl Read for Given {
    ghost use Rattle.std.specs.Prelude.{None};

    // Nothing is told of it.
    ghost remaining = { λ _. None };

    fn read(&mut self, buf: &mut [u8]) -> Result<usize> {
        match self {
            Given::Input(input) => input.read(buf),
            Given::Folder(folder) => folder.read(buf),
        }
    }
}

/// The changes of this folder, or standard input where none is named. The error is the status, where the folder
/// cannot be read, which is told.
pub fn changes_of(
    rt: &HostRuntime,
    data: Option<&str>,
) -> std::result::Result<StdSource<Given>, ExitCode>
    ensures ok { IfOk result (λ reader. reader.failed ≡ false) }
    ensures err { IfErr result (λ status. exit_status status ≡ 1) }
{
    let Some(path) = data else {
        return Ok(StdSource::new(Given::Input(Steady::new(rt.stdin()))));
    };
    match History::new(rt, path) {
        Ok(history) => Ok(StdSource::new(Given::Folder(Steady::new(history)))),
        Err(FolderFault::NoMemory) => Err(give_up(rt, NO_MEMORY)),
        Err(FolderFault::Broken) => Err(give_up_on(rt, path, b"cannot be read")),
    }
}
