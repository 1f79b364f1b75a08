//! `sysr run` answers the lines of standard input on standard output, and `sysr serve` those of
//! sessions over TCP. `sysr journal` writes the accepted changes of standard input as lines, and
//! `sysr dump` lines that make what it leaves. `sysr stream` writes what each of the changes did, as
//! records. `sysr explain` says why somebody holds a right that these lines make, or how he lost it.
//! `sysr stop` tells a server to stop, `sysr status` asks how it fares, and `sysr reload` has it read
//! its file of users anew, for which `sysr verifier` makes a line.
//!
//! Each line of `run` is `user: statement`, and what was read is answered before more is read. What
//! `journal`, `dump` and `explain` read is a journal, or with `--script` what `run` reads; `stream`
//! reads a journal, and tells what was read before it reads more. The exit
//! status is 0 where the input was read to its end, whatever the replies; 1 where the program itself
//! could not go on, with the reason on standard error, where lines were left out and that is to be
//! strict, or where an explanation is that somebody does not hold a right, or owns what could be
//! taken; 2 where the command line was refused, or a question has no answer; 3 where an audit failed.
//! Help and the version go to standard output, with status 0. A call that a signal interrupted is
//! made again.
//!
//! Before anything is opened the places of standard streams that are closed are filled, so that
//! neither a file nor a client is sent what is meant for them. A file that is written to is held
//! against other programs, before it is read where it is gone on with, and no two words of a command
//! line may name one file (`files.rt`, `naming.rt`). A last line that was cut off is taken off a
//! journal that is gone on with (`mending.rt`), and one that a server writes is put on its disk once a
//! second (`syncing.rt`). A file of users is not taken where it is open to
//! others (`users.rt`), and a port that other machines can reach asks for one (`places.rt`). A socket
//! file of a user's own belongs to the system's user of his name.
//!
//! The one contract: what the crates below promise of readers and writers is promised of these
//! commands, each joined with its streams as the words say. Where `journal` and `dump` end without
//! a fault, what they wrote is whole (`specs/Joints.antt`), and so is what `stream` told
//! (`specs/Streamed.antt`); what `run` and `serve` leave was kept
//! in the journal that is named, from where it was opened (`specs/Kept.antt`). Where a file of
//! users is named, whoever `serve` served has logged in, or came in at the socket of the user that
//! he was. What `verifier` wrote is the line of a user of the password that it read
//! (`specs/Passwords.antt`). A reader or writer that tells its bytes stands for a file or a stream,
//! which tell none.
//!
//! What is written for what was read is the contract of [`answered`](run_core::answered); what a
//! journal's file gets that of [`LineKeeper`](journal_core::LineKeeper); what a file makes
//! that of [`load`](load_core::load), and standard input that of [`replay`](load_core::replay); what
//! a dump says that of [`write_dump`](dump_core::write_dump), and a stream that of
//! [`stream`](stream_core::stream); what is explained that of
//! [`explain`](explain_text::explain); what the command line may say that of
//! [`options`](crate::command::options); and what the threads of a server do to its core that of
//! [`serve_on`](serving_core::serve_on).
//!
//! A command costs what the calls cost that it joins; a verifier 4,096 HMACs. At its end the memory
//! of tables and rights goes back with the process, and is not taken apart.
#![tactic(auto)]

ghost use Rattle.sysr.specs.Ranges.{IsInRange};

mod calls;
mod command;
mod controls;
mod data;
mod end_of_input;
mod entrances;
mod explaining;
mod figures;
mod files;
mod given;
mod keeping;
mod lent;
mod listening;
mod loading;
mod mending;
mod naming;
mod places;
mod random;
mod reading_time;
mod recording;
mod reloading;
mod replaying;
mod report;
mod running;
mod serving_in_folder;
mod socket_files;
mod streaming;
mod syncing;
mod system_users;
mod users;
mod verifying;
mod whole;

use crate::command::{CommandLine, Reading, options, refuse};
use crate::controls::stop;
use crate::explaining::explained;
use crate::figures::status;
use crate::given::changes_of;
use crate::listening::serve;
use crate::recording::{dump, journal};
use crate::reloading::reload;
use crate::running::run;
use crate::serving_in_folder::serve_in_folder;
use crate::streaming::streamed;
use crate::verifying::verifier;
use lines_core::{NO_MEMORY, give_up};
use run_core::{fill_closed_streams, input, output};
use std::mem::forget;
use std::process::ExitCode;
use std::sync::Wait;
use std::thread::Threads;
use std::time::Clock;
use std::{env, io};

/// Writes the dump of what is read. What is gathered of one that cannot be written whole
/// is not written, as a front of a dump is none.
fn dumped(
    rt: &HostRuntime,
    load: Option<&str>,
    data: Option<&str>,
    reading: Reading,
) -> Result<ExitCode, ExitCode> {
    let mut reader = changes_of(rt, data)?;
    let mut writer = output(rt)?;
    match dump(rt, &mut reader, &mut writer, load, reading) {
        Ok(status) => Ok(status),
        Err(status) => {
            forget(writer);
            Err(status)
        }
    }
}

/// Does what the command line asks for. The error is the status, where it could not be done, which is
/// told.
fn carried_out<R>(host: &HostRuntime, rt: &R, asked: CommandLine<'_>) -> Result<ExitCode, ExitCode>
where
    R: Threads + Wait + Clock + Sync,
    requires { IsInRange asked }
{
    match asked {
        CommandLine::Run(asked) => Ok(run(host, rt, asked)?.into_status()),
        CommandLine::Journal { data, reading } => {
            journal(
                host,
                &mut changes_of(host, data)?,
                &mut output(host)?,
                reading,
            )
        }
        CommandLine::Dump {
            load,
            data,
            reading,
        } => dumped(host, load, data, reading),
        CommandLine::Stream { data, limits, from } => {
            streamed(
                host,
                &mut changes_of(host, data)?,
                &mut output(host)?,
                limits,
                from,
            )
        }
        CommandLine::Serve(asked, sockets) => match asked.data {
            None => {
                let (ended, _) = serve(host, rt, asked, sockets.as_slice())?;
                Ok(ended.into_status())
            }
            Some(folder) => {
                let (ended, _) = serve_in_folder(host, rt, asked, folder, sockets.as_slice())?;
                Ok(ended.into_status())
            }
        },
        CommandLine::Verifier { user } => {
            verifier(host, &mut input(host), &mut output(host)?, user)
        }
        CommandLine::Stop { control } => Ok(stop(host, control)),
        CommandLine::Status { control, form } => Ok(status(host, control, form)),
        CommandLine::Reload { control } => Ok(reload(host, control)),
        CommandLine::Explain(asked) => explained(host, asked),
    }
}

fn main(rt: HostRuntime) -> ExitCode {
    fill_closed_streams(&rt);
    let words: Vec<String> = match env::args(&rt) {
        Ok(words) => match words.collect(rt.alloc()) {
            Ok(words) => words,
            Err(_) => return give_up(&rt, NO_MEMORY),
        },
        Err(error) if error.kind() == io::ErrorKind::InvalidData => {
            let _ = eprintln!(rt; "error: an argument is not UTF-8");
            return ExitCode::from(2);
        }
        Err(_) => return give_up(&rt, NO_MEMORY),
    };
    let ended = match options(rt.alloc(), words.as_slice()) {
        Ok(asked) => carried_out(&rt, &rt, asked),
        Err(error) => Err(refuse(&rt, &error)),
    };
    match ended {
        Ok(status) | Err(status) => status,
    }
}
