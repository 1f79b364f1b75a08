//! What the command line says.
ghost use Rattle.std.specs.Prelude.{◌<◌, ◌≤◌, IfOk, IfSome};
ghost use Rattle.sysr.specs.Ranges.{AreApart, AreAsked, IsChunk, IsIdle, IsMostSessions, IsPort, ServesInRange, IsInRange};

use crate::command::commands::program;
use crate::command::questions::{Explaining, explaining_of, word_of};
use crate::command::reading::{Reading, limits_of, reading_of};
use crate::command::users::{UserSocketWord, user_of, user_sockets_of};
use crate::command::values::refused;
use base_core::{Limits, User};
use clap::error::ErrorKind;
use clap::{ArgMatches, Error};
use lines_core::{NO_MEMORY, SessionFault, fault_text, give_up};
use std::alloc::Global;
use std::convert::AsStr;
use std::process::ExitCode;

const CHUNK: u8 = 16;

const MAX_CHUNK: u8 = 64;

const WORKERS: u8 = 4;

const MAX_WORKERS: u8 = 16;

const MAX_SESSIONS: u32 = 1_000_000_000;

const MAX_IDLE: u32 = 86_400;

const MAX_OPEN: u32 = 1_000_000;

const GRACE: u32 = 10;

const MAX_GRACE: u32 = 86_400;

const CHECKPOINT_EVERY: u32 = 100_000;

const MAX_PIECES: u32 = 1_000_000;

/// What the command line asks for.
#[derive(Drop)]
pub enum CommandLine<'a> {
    /// To answer the lines of standard input.
    Run(Running<'a>),
    /// To write the accepted changes of the lines of standard input, or of this server's folder.
    Journal {
        data: Option<&'a str>,
        reading: Reading,
    },
    /// To write what would make the state that they leave, beginning with what this file says.
    Dump {
        load: Option<&'a str>,
        data: Option<&'a str>,
        reading: Reading,
    },
    /// To write what each of the changes did that stand on standard input, or in this server's folder, behind the
    /// moment `from`.
    Stream {
        data: Option<&'a str>,
        limits: Limits,
        from: u64,
    },
    /// To serve sessions, at these socket files of users' own too.
    Serve(Serving<'a>, Vec<UserSocketWord>),
    /// To make this user's line of a file of users.
    Verifier {
        user: User,
    },
    /// To tell the server of this control socket to stop.
    Stop {
        control: &'a str,
    },
    /// To ask the server of this control socket how it fares.
    Status {
        control: &'a str,
        form: StatusForm,
    },
    /// To have the server of this control socket read its file of users anew.
    Reload {
        control: &'a str,
    },
    /// To explain the rights that the lines of standard input make.
    Explain(Explaining<'a>),
}

/// How lines are answered: how many records a step of the checkpointer takes, how much there may
/// be, from which file the first changes come, to which each change is written, and whether to
/// audit at the end.
#[derive(Clone, Copy)]
pub struct Running<'a> {
    pub chunk: usize,
    pub limits: Limits,
    pub load: Option<&'a str>,
    pub journal: Option<&'a str>,
    pub audit: bool,
}

/// The sessions that are asked for: at which port, at which one those of PostgreSQL's clients, and
/// of which address both are, if that is said; at which socket file, and of which mode that is; by
/// which file of users they log in; how many, by how many threads, how many may be open at once, if
/// that is bounded, how many records a step of the checkpointer takes, how much there may be, for
/// how many seconds a session waits for its client, if not for ever, whether it is told where
/// sessions begin and end, who is denied what, and when that was; from which file the first changes
/// come, to which each change is written, or in which folder of its own it keeps them, and when they are put on
/// the disk, to which the state is written at the end, and whether to audit then; at which control socket it may be told to stop,
/// whether the end of standard input tells it so, and how many seconds sessions then have.
#[derive(Clone, Copy)]
pub struct Serving<'a> {
    pub port: Option<u16>,
    pub pg_port: Option<u16>,
    pub listen: Option<&'a str>,
    pub socket: Option<&'a str>,
    pub mode: u32,
    pub users: Option<&'a str>,
    pub workers: usize,
    pub sessions: u64,
    pub chunk: usize,
    pub limits: Limits,
    pub idle: Option<u64>,
    pub max_sessions: Option<u64>,
    pub log: bool,
    pub log_denials: bool,
    pub log_time: bool,
    pub load: Option<&'a str>,
    pub journal: Option<&'a str>,
    pub data: Option<OwnFolder<'a>>,
    pub sync: JournalSync,
    pub dump: Option<&'a str>,
    pub audit: bool,
    pub control: Option<&'a str>,
    pub until_eof: bool,
    pub grace: u64,
}

/// A server's own folder: where it is, behind how many changes a checkpoint is written to it, and how many pieces
/// of its journal are kept, if not all.
#[derive(Clone, Copy)]
pub struct OwnFolder<'a> {
    pub path: &'a str,
    pub every: u64,
    pub pieces: Option<usize>,
}

/// When a journal is put on its disk, where a loss of power leaves it.
#[derive(Clone, Copy, Debug, PartialEq, Eq)]
pub enum JournalSync {
    /// When the system does.
    Never,
    /// Once a second, where something was written since.
    Second,
    /// Before anyone is told of what it says.
    Each,
}

/// The form in which a server tells how it fares.
#[derive(Clone, Copy, Debug, PartialEq, Eq)]
pub enum StatusForm {
    /// A line for each figure, for people.
    Text,
    /// As Prometheus reads it.
    Prometheus,
    /// One object of JSON.
    Json,
}

// clap has refused a number out of range, so that the last is for no chunk at all.
fn chunk_of(matches: &ArgMatches<'_>) -> usize
    ensures { IsChunk result }
{
    match matches.get_one::<u8>("chunk") {
        Some(chunk) if 0 < chunk && chunk <= MAX_CHUNK => chunk as usize,
        _ => CHUNK as usize,
    }
}

// clap has refused a number out of range.
fn idle_of(matches: &ArgMatches<'_>) -> Option<u64>
    ensures { IsIdle result }
{
    let seconds = matches.get_one::<u32>("idle")?;
    Some(seconds.clamp(1, MAX_IDLE) as u64)
}

// clap has refused a number out of range.
fn max_sessions_of(matches: &ArgMatches<'_>) -> Option<u64>
    ensures { IsMostSessions result }
{
    let most = matches.get_one::<u32>("max-sessions")?;
    Some(most.clamp(1, MAX_OPEN) as u64)
}

// clap has refused a number out of range.
fn grace_of(matches: &ArgMatches<'_>) -> u64
    ensures { result ≤ 86400 }
{
    let seconds = matches.get_one::<u32>("grace").unwrap_or(GRACE);
    seconds.min(MAX_GRACE) as u64
}

// clap has refused a number out of range.
fn port_of(matches: &ArgMatches<'_>, id: &str) -> Option<u16>
    ensures { IsPort result }
{
    let port = matches.get_one::<u16>(id)?;
    Some(port.max(1))
}

/// The port for PostgreSQL's clients, if one is asked for, beside this one. An error is clap's, where
/// both are the same.
fn pg_port_of(
    alloc: Global,
    matches: &ArgMatches<'_>,
    port: Option<u16>,
) -> Result<Option<u16>, Error>
    ensures port { IfOk result IsPort }
    ensures apart { IfOk result (λ pg_port. AreApart port pg_port) }
{
    let pg_port = port_of(matches, "pg-port");
    match pg_port {
        Some(both) if pg_port == port => {
            Err(refused(alloc, both, "--pg-port <p>", "it is that of --port"))
        }
        _ => Ok(pg_port),
    }
}

// clap has refused another word.
fn mode_of(matches: &ArgMatches<'_>) -> u32 {
    match matches.get_str("mode") {
        Some("600") => 0o600,
        Some("666") => 0o666,
        _ => 0o660,
    }
}

// clap has refused another word.
fn status_form_of(matches: &ArgMatches<'_>) -> StatusForm {
    match matches.get_str("format") {
        Some("prometheus") => StatusForm::Prometheus,
        Some("json") => StatusForm::Json,
        _ => StatusForm::Text,
    }
}

// clap has refused a number out of range. Without one there is no end to them: 64 bits count all
// that a server will ever take.
fn sessions_of(matches: &ArgMatches<'_>) -> u64
    ensures { 0 < result }
{
    match matches.get_one::<u32>("sessions") {
        Some(sessions) => sessions.clamp(1, MAX_SESSIONS) as u64,
        None => u64::MAX,
    }
}

// clap has refused another word.
fn journal_sync_of(matches: &ArgMatches<'_>) -> JournalSync {
    match matches.get_str("journal-sync") {
        Some("never") => JournalSync::Never,
        Some("each") => JournalSync::Each,
        _ => JournalSync::Second,
    }
}

// clap has refused a number out of range.
fn own_folder_of<'a>(matches: &ArgMatches<'a>) -> Option<OwnFolder<'a>> {
    let path = matches.get_str("data")?;
    let every = matches
        .get_one::<u32>("checkpoint-every")
        .unwrap_or(CHECKPOINT_EVERY);
    let pieces = match matches.get_one::<u32>("keep-pieces") {
        Some(pieces) => Some(pieces.min(MAX_PIECES) as usize),
        None => None,
    };
    Some(OwnFolder {
        path,
        every: every.max(1) as u64,
        pieces,
    })
}

// clap has refused a number out of range. An error is its own, where both ports are the same.
fn serving_of<'a>(alloc: Global, matches: &ArgMatches<'a>) -> Result<Serving<'a>, Error>
    ensures { IfOk result ServesInRange }
{
    let workers = matches.get_one::<u8>("workers").unwrap_or(WORKERS);
    let port = port_of(matches, "port");
    let pg_port = pg_port_of(alloc, matches, port)?;
    Ok(Serving {
        port,
        pg_port,
        listen: matches.get_str("listen"),
        socket: matches.get_str("socket"),
        mode: mode_of(matches),
        users: matches.get_str("users"),
        workers: workers.clamp(1, MAX_WORKERS) as usize,
        sessions: sessions_of(matches),
        chunk: chunk_of(matches),
        limits: limits_of(matches),
        idle: idle_of(matches),
        max_sessions: max_sessions_of(matches),
        log: matches.get_flag("log"),
        log_denials: matches.get_flag("log-denials"),
        log_time: matches.get_flag("log-time"),
        load: matches.get_str("load"),
        journal: matches.get_str("journal"),
        data: own_folder_of(matches),
        sync: journal_sync_of(matches),
        dump: matches.get_str("dump"),
        audit: matches.get_flag("audit"),
        control: matches.get_str("control"),
        until_eof: matches.get_flag("until-eof"),
        grace: grace_of(matches),
    })
}

fn running_of<'a>(matches: &ArgMatches<'a>) -> Running<'a>
    ensures { IsInRange (CommandLine.Run result) }
{
    Running {
        chunk: chunk_of(matches),
        limits: limits_of(matches),
        load: matches.get_str("load"),
        journal: matches.get_str("journal"),
        audit: matches.get_flag("audit"),
    }
}

/// What is asked of a server, by its control socket.
fn control_of<'a>(matches: &ArgMatches<'a>) -> Option<CommandLine<'a>>
    ensures { IfSome result IsInRange }
{
    if let Some(stop) = matches.subcommand_matches("stop") {
        return Some(CommandLine::Stop {
            control: word_of(stop, "control"),
        });
    }
    if let Some(status) = matches.subcommand_matches("status") {
        return Some(CommandLine::Status {
            control: word_of(status, "control"),
            form: status_form_of(status),
        });
    }
    let reload = matches.subcommand_matches("reload")?;
    Some(CommandLine::Reload {
        control: word_of(reload, "control"),
    })
}

/// Reads the words of a command line, of which the first is the name of the program. Each number is
/// in its range: the chunk from 1 to 64, and 16 where none is given; the ports, if they are given,
/// from 1 to 65,535, and never the same; the workers from 1 to 16, and 4 where none are given; the
/// sessions from 1 to 1,000,000,000, and 2^64 - 1 where none are given, so that there is no end to
/// them; the changes from 1 to 1,000,000,000, and 1,000,000 where none are given; the seconds of an
/// idle session, if they are given, from 1 to 86,400; the sessions that may be open at once, if that
/// is given, from 1 to 1,000,000; the moment of an explanation, if it is given, from 0 to
/// 1,000,000,000; the seconds of grace from 0 to 86,400, and 10 where none are given; the changes behind which a
/// checkpoint is written from 1 to 1,000,000,000, and 100,000 where none are given. An error is
/// clap's: the words were refused, help or the version was asked for, or there was no memory. Words
/// are also refused where one that is to name a user names none, and where both ports are the same.
pub fn options<'a, S: AsStr>(alloc: Global, words: &'a [S]) -> Result<CommandLine<'a>, Error>
    ensures { IfOk result IsInRange }
{
    let matches = program(alloc)?.try_get_matches_from(words)?;
    if let Some(serve) = matches.subcommand_matches("serve") {
        let sockets = user_sockets_of(alloc, serve)?;
        return Ok(CommandLine::Serve(serving_of(alloc, serve)?, sockets));
    }
    if let Some(control) = control_of(&matches) {
        return Ok(control);
    }
    if let Some(verifier) = matches.subcommand_matches("verifier") {
        return Ok(CommandLine::Verifier {
            user: user_of(alloc, word_of(verifier, "user"))?,
        });
    }
    if let Some(explain) = matches.subcommand_matches("explain") {
        return Ok(CommandLine::Explain(explaining_of(explain)));
    }
    if let Some(dump) = matches.subcommand_matches("dump") {
        return Ok(CommandLine::Dump {
            load: dump.get_str("load"),
            data: dump.get_str("data"),
            reading: reading_of(dump),
        });
    }
    if let Some(stream) = matches.subcommand_matches("stream") {
        return Ok(CommandLine::Stream {
            data: stream.get_str("data"),
            limits: limits_of(stream),
            from: stream.get_one::<u32>("from").unwrap_or(0) as u64,
        });
    }
    if let Some(journal) = matches.subcommand_matches("journal") {
        return Ok(CommandLine::Journal {
            data: journal.get_str("data"),
            reading: reading_of(journal),
        });
    }
    // clap has refused a command line without a command.
    let run = matches.subcommand_matches("run").unwrap_or(&matches);
    Ok(CommandLine::Run(running_of(run)))
}

/// Shows help or the version, which are asked for, or tells why the command line was refused: with
/// the status that clap gives, 0 or 2, and with 1 where there was no memory, or where help or the
/// version could not be written.
pub fn refuse(rt: &HostRuntime, error: &Error) -> ExitCode {
    if error.kind() == ErrorKind::OutOfMemory {
        return give_up(rt, NO_MEMORY);
    }
    if error.print(rt).is_err() && !error.use_stderr() {
        return give_up(rt, fault_text(SessionFault::Write));
    }
    ExitCode::from(error.exit_code() as u8)
}
