//! The commands of the program, and what each may be given.

use crate::command::explain_commands::explain_command;
use crate::command::reading_flags::with_reading;
use clap::builder::ValueParser;
use clap::{Arg, ArgAction, Command};
use std::alloc::{AllocError, Global};

/// This edition of the program.
pub const VERSION: &str = "0.1.0";

// The modes of a socket file.
const MODES: [&str; 3] = ["600", "660", "666"];

// When a journal is put on its disk.
const JOURNAL_SYNCS: [&str; 3] = ["never", "second", "each"];

// The forms in which a server tells how it fares.
const STATUS_FORMS: [&str; 3] = ["text", "prometheus", "json"];

const FORM_OF_A_LINE: &str = "\
A line is `user: statement`, as in `ann: SELECT * FROM pay`. Replies go to standard output, in the
order of the lines; standard error says why the program could not go on.";

const FORM_OF_A_SESSION: &str = "\
The first line of a session is `USER name`, or with --users a login stands in its place; each later
line is a statement of that user, as in `SELECT * FROM pay`. Standard error says of each session that
ended with a fault which one it was, and who was refused a login; with --log it also says where each
session begins and ends.";

const FORM_OF_A_JOURNAL: &str = "\
It reads a journal (what `run --journal` kept) or, with --script, a script, and writes the journal
of what was carried out: for each change the line `user: statement`. A server that answers these
lines has the same tables, rows and rights. Lines that were denied or refused, or that say no
statement, are left out, which it tells on standard error. The status is 0 if all was written, and 1
if not, or if with --strict something was left out.";

const FORM_OF_A_DUMP: &str = "\
It reads a journal (what `run --journal` kept) or, with --script, a script, and writes a dump of
what was carried out: lines that make the same tables, rows and grants in force, each once. Lines
that were denied or refused, or that say no statement, are left out, which it tells on standard
error. The status is 0 if all was written, and 1 if not, or if with --strict something was left
out.";

const FORM_OF_A_STREAM: &str = "\
It reads a journal, carries out its changes, and writes what each of them did: a record for each table
that was made, each row that was inserted, updated or deleted, and each grant that was made, lost its
option or fell. What was read is told before more is read, as in `tail -F -n +1 pay.journal | sysr
stream`. The status is 0 if all was told, and 1 if not, or if a line says no change that is done.";

const FORM_OF_A_STOP: &str = "\
The server takes no further session, and each session answers the lines that it was sent, and ends;
then the server ends. At a second stop, or behind its grace, sessions are cut. The status is 0 once
the server has ended.";

const FORM_OF_A_STATUS: &str = "\
It tells of sessions, statements and denials since the server began, of its moment and its limit, of
its journal and its memory: a line for each, or in the form of Prometheus, or as one object of JSON.
The status is 0 once it was told.";

const FORM_OF_A_RELOAD: &str = "\
A line that is wrong leaves the users as they are, and is told. Who is no user any more begins no
session; his open ones go on. The status is 0 if the file was taken, and 1 if not.";

const FORM_OF_A_VERIFIER: &str = "\
It reads a password: one line of standard input, of at most 1,024 printable characters of ASCII. It
writes the user's line of the file that `serve --users` reads, as in `sysr verifier ann >> users`. The
line does not say the password, but who reads it can try passwords. The status is 0 if it was written,
and 1 if not.";

/// A command under construction. No call here promises what it keeps, so that in a chain of them the
/// last is as cheap to prove as the first; and none but the two below has an exit at a fault.
pub type Made<'a> = Result<Command<'a>, AllocError>;

/// The command with this argument behind its others.
pub fn with<'a>(command: Made<'a>, arg: Arg<'a>) -> Made<'a> {
    command?.arg(arg)
}

/// The command with this subcommand behind its others.
pub fn with_command<'a>(command: Made<'a>, subcommand: Made<'a>) -> Made<'a> {
    let subcommand = subcommand?;
    command?.subcommand(subcommand)
}

/// A command without arguments.
pub fn command<'a>(alloc: Global, name: &'a str, about: &'a str, more: &'a str) -> Made<'a> {
    Ok(Command::new(alloc, name).about(about).after_help(more))
}

/// An option that takes one value.
pub fn value_arg<'a>(alloc: Global, name: &'a str, value: &'a str, help: &'a str) -> Arg<'a> {
    Arg::new(alloc, name)
        .long(name)
        .value_name(value)
        .help(help)
}

/// What such an option takes.
pub fn taking<'a>(arg: Arg<'a>, parser: ValueParser<'a>) -> Arg<'a> {
    arg.value_parser(parser)
}

/// Something that has to be given, in its place.
pub fn word_arg<'a>(alloc: Global, id: &'a str, name: &'a str, help: &'a str) -> Arg<'a> {
    Arg::new(alloc, id)
        .value_name(name)
        .required(true)
        .help(help)
}

/// An option that takes no value.
pub fn flag_arg<'a>(alloc: Global, name: &'a str, help: &'a str) -> Arg<'a> {
    Arg::new(alloc, name)
        .long(name)
        .action(ArgAction::SetTrue)
        .help(help)
}

fn chunk_arg<'a>(alloc: Global) -> Arg<'a> {
    let help = "Records in a step of the checkpointer, from 1 to 64; 16 where it is not given";
    taking(
        value_arg(alloc, "chunk", "k", help),
        clap::value_parser!(u8).range(1..=64),
    )
}

pub(crate) fn changes_arg<'a>(alloc: Global) -> Arg<'a> {
    let help =
        "Changes that are accepted at most, from 1 to 1,000,000,000; 1,000,000 where it is not \
        given";
    taking(
        value_arg(alloc, "changes", "n", help),
        clap::value_parser!(u32).range(1..=1000000000),
    )
}

fn audit_arg<'a>(alloc: Global) -> Arg<'a> {
    let help = "At the end compares the rights in force with a replay of the journal";
    flag_arg(alloc, "audit", help)
}

fn load_arg<'a>(alloc: Global) -> Arg<'a> {
    let help = "Begins with the changes of this file, which a journal or a dump has written";
    value_arg(alloc, "load", "FILE", help)
}

fn journal_arg<'a>(alloc: Global) -> Arg<'a> {
    let help =
        "Writes each change to the end of this file before its reply; the file is new or empty, \
        or the one that is loaded";
    value_arg(alloc, "journal", "FILE", help)
}

fn journal_sync_arg<'a>(alloc: Global) -> Arg<'a> {
    let help =
        "When the journal is put on its disk, so that a loss of power leaves it: before a client is told of \
        what it says (each), once a second (second, as where none is given), or when the system does (never)";
    value_arg(alloc, "journal-sync", "s", help).value_parser(JOURNAL_SYNCS.as_slice())
}

fn data_arg<'a>(alloc: Global) -> Result<Arg<'a>, AllocError> {
    let help =
        "Keeps its changes in this folder, which is made if it is missing, and begins with what it has; in \
        place of --load and --journal";
    value_arg(alloc, "data", "DIR", help)
        .conflicts_with("load")?
        .conflicts_with("journal")
}

fn checkpoint_every_arg<'a>(alloc: Global) -> Result<Arg<'a>, AllocError> {
    let help =
        "Changes behind which a checkpoint is written to the folder of --data, so that a start is short, from 1 \
        to 1,000,000,000; 100,000 where it is not given";
    taking(
        value_arg(alloc, "checkpoint-every", "n", help),
        clap::value_parser!(u32).range(1..=1000000000),
    )
    .requires_arg("data")
}

fn keep_pieces_arg<'a>(alloc: Global) -> Result<Arg<'a>, AllocError> {
    let help =
        "Pieces of the journal that stay in the folder of --data, from 0 to 1,000,000, beside those that a start \
        needs; all where it is not given";
    taking(
        value_arg(alloc, "keep-pieces", "n", help),
        clap::value_parser!(u32).range(0..=1000000),
    )
    .requires_arg("data")
}

fn dump_arg<'a>(alloc: Global) -> Arg<'a> {
    let help =
        "At the end writes to this file, which is new or empty, what would make the same state";
    value_arg(alloc, "dump", "FILE", help)
}

fn run_command<'a>(alloc: Global) -> Made<'a> {
    let about = "Answers the lines of standard input on standard output";
    let made = command(alloc, "run", about, FORM_OF_A_LINE);
    let made = with(made, chunk_arg(alloc));
    let made = with(made, changes_arg(alloc));
    let made = with(made, load_arg(alloc));
    let made = with(made, journal_arg(alloc));
    with(made, audit_arg(alloc))
}

fn journal_command<'a>(alloc: Global) -> Made<'a> {
    let about = "Writes the accepted changes of the lines of standard input, as lines again";
    let made = command(alloc, "journal", about, FORM_OF_A_JOURNAL);
    with_reading(alloc, made, false)
}

fn dump_command<'a>(alloc: Global) -> Made<'a> {
    let about = "Writes few lines that make what the lines of standard input leave";
    let made = command(alloc, "dump", about, FORM_OF_A_DUMP);
    let made = with(made, load_arg(alloc));
    with_reading(alloc, made, false)
}

fn from_arg<'a>(alloc: Global) -> Arg<'a> {
    let help = "Leaves out what the changes up to this moment did, from 0 to 1,000,000,000";
    taking(
        value_arg(alloc, "from", "m", help),
        clap::value_parser!(u32).range(0..=1000000000),
    )
}

fn folder_arg<'a>(alloc: Global) -> Arg<'a> {
    let help = "Reads the changes of this folder of a server, in place of standard input";
    value_arg(alloc, "data", "DIR", help)
}

fn stream_command<'a>(alloc: Global) -> Made<'a> {
    let about = "Writes what each change of the journal on standard input did, as records";
    let made = command(alloc, "stream", about, FORM_OF_A_STREAM);
    let made = with(made, from_arg(alloc));
    let made = with(made, folder_arg(alloc));
    with(made, changes_arg(alloc))
}

fn port_arg<'a>(alloc: Global) -> Arg<'a> {
    let help = "The port at which it listens";
    taking(
        value_arg(alloc, "port", "p", help),
        clap::value_parser!(u16).range(1..=65535),
    )
}

fn pg_port_arg<'a>(alloc: Global) -> Arg<'a> {
    let help =
        "The port at which it listens for PostgreSQL's clients: another one than that of --port, \
        beside it or without it";
    taking(
        value_arg(alloc, "pg-port", "p", help),
        clap::value_parser!(u16).range(1..=65535),
    )
}

fn listen_arg<'a>(alloc: Global) -> Arg<'a> {
    let help =
        "The address of the ports: 127.0.0.1, where it is not given, and another one only with \
        --users";
    value_arg(alloc, "listen", "ADDRESS", help)
}

fn socket_arg<'a>(alloc: Global) -> Arg<'a> {
    let help =
        "Makes a socket file at this place, and listens at it, beside the ports or without one";
    value_arg(alloc, "socket", "FILE", help)
}

fn mode_arg<'a>(alloc: Global) -> Arg<'a> {
    let help =
        "Who may open the socket file: its owner, its group too (660, where it is not given), or \
        everybody";
    value_arg(alloc, "mode", "MODE", help).value_parser(MODES.as_slice())
}

fn users_arg<'a>(alloc: Global) -> Arg<'a> {
    let help =
        "Begins each session with a login as a user of this file, but those at a --user-socket";
    value_arg(alloc, "users", "FILE", help)
}

fn user_socket_arg<'a>(alloc: Global) -> Arg<'a> {
    let help =
        "Makes a socket file of this user's own, whose sessions are his, as ann=FILE; may be given \
        several times";
    value_arg(alloc, "user-socket", "USER=FILE", help).action(ArgAction::Append)
}

fn workers_arg<'a>(alloc: Global) -> Arg<'a> {
    let help = "Threads that answer sessions, from 1 to 16; 4 where it is not given";
    taking(
        value_arg(alloc, "workers", "n", help),
        clap::value_parser!(u8).range(1..=16),
    )
}

fn sessions_arg<'a>(alloc: Global) -> Arg<'a> {
    let help =
        "Sessions that are served before it ends, from 1 to 1,000,000,000; it serves on where \
        it is not given";
    taking(
        value_arg(alloc, "sessions", "k", help),
        clap::value_parser!(u32).range(1..=1000000000),
    )
}

fn idle_arg<'a>(alloc: Global) -> Arg<'a> {
    let help = "Seconds after which a session ends whose client sends nothing or takes nothing, \
        from 1 to 86,400; it waits where it is not given";
    taking(
        value_arg(alloc, "idle", "s", help),
        clap::value_parser!(u32).range(1..=86400),
    )
}

fn max_sessions_arg<'a>(alloc: Global) -> Arg<'a> {
    let help = "Sessions that may be open at once, from 1 to 1,000,000; as many as there are \
        descriptors for where it is not given";
    taking(
        value_arg(alloc, "max-sessions", "n", help),
        clap::value_parser!(u32).range(1..=1000000),
    )
}

fn log_arg<'a>(alloc: Global) -> Arg<'a> {
    let help = "Says on standard error where each session begins and ends";
    flag_arg(alloc, "log", help)
}

fn log_denials_arg<'a>(alloc: Global) -> Arg<'a> {
    let help = "Says on standard error who was denied what";
    flag_arg(alloc, "log-denials", help)
}

fn log_time_arg<'a>(alloc: Global) -> Arg<'a> {
    let help = "Begins each line of the log with the time of day, in UTC";
    flag_arg(alloc, "log-time", help)
}

fn control_arg<'a>(alloc: Global, help: &'a str) -> Arg<'a> {
    value_arg(alloc, "control", "FILE", help)
}

fn until_eof_arg<'a>(alloc: Global) -> Arg<'a> {
    let help = "Stops at the end of standard input";
    flag_arg(alloc, "until-eof", help)
}

fn grace_arg<'a>(alloc: Global) -> Arg<'a> {
    let help =
        "Seconds that sessions have to end once it is to stop, from 0 to 86,400; 10 where it is \
        not given";
    taking(
        value_arg(alloc, "grace", "s", help),
        clap::value_parser!(u32).range(0..=86400),
    )
}

fn stop_command<'a>(alloc: Global) -> Made<'a> {
    let about = "Tells a server to stop, and waits until it has ended";
    let made = command(alloc, "stop", about, FORM_OF_A_STOP);
    let help = "The control socket of the server";
    with(made, control_arg(alloc, help).required(true))
}

fn status_command<'a>(alloc: Global) -> Made<'a> {
    let about = "Asks a server how it fares";
    let made = command(alloc, "status", about, FORM_OF_A_STATUS);
    let help = "The control socket of the server";
    let made = with(made, control_arg(alloc, help).required(true));
    with(made, status_form_arg(alloc))
}

fn reload_command<'a>(alloc: Global) -> Made<'a> {
    let about = "Has a server read its file of users anew";
    let made = command(alloc, "reload", about, FORM_OF_A_RELOAD);
    let help = "The control socket of the server";
    with(made, control_arg(alloc, help).required(true))
}

fn verifier_command<'a>(alloc: Global) -> Made<'a> {
    let about = "Makes a user's line of a file of users";
    let made = command(alloc, "verifier", about, FORM_OF_A_VERIFIER);
    with(made, word_arg(alloc, "user", "USER", "The user's name"))
}

fn status_form_arg<'a>(alloc: Global) -> Arg<'a> {
    let help = "For people (text), for Prometheus (prometheus), or for programs (json)";
    value_arg(alloc, "format", "f", help).value_parser(STATUS_FORMS.as_slice())
}

fn serve_command<'a>(alloc: Global) -> Made<'a> {
    let about = "Serves sessions over TCP and at a socket file";
    let made = command(alloc, "serve", about, FORM_OF_A_SESSION);
    let made = with(made, port_arg(alloc));
    let made = with(made, pg_port_arg(alloc));
    let made = with(made, listen_arg(alloc));
    let made = with(made, socket_arg(alloc));
    let made = with(made, mode_arg(alloc));
    let made = with(made, users_arg(alloc));
    let made = with(made, user_socket_arg(alloc));
    let made = with(made, workers_arg(alloc));
    let made = with(made, sessions_arg(alloc));
    let made = with(made, chunk_arg(alloc));
    let made = with(made, changes_arg(alloc));
    let made = with(made, idle_arg(alloc));
    let made = with(made, max_sessions_arg(alloc));
    let made = with(made, log_arg(alloc));
    let made = with(made, log_denials_arg(alloc));
    let made = with(made, log_time_arg(alloc));
    let made = with(made, load_arg(alloc));
    let made = with(made, journal_arg(alloc));
    let made = with(made, data_arg(alloc)?);
    let made = with(made, checkpoint_every_arg(alloc)?);
    let made = with(made, keep_pieces_arg(alloc)?);
    let made = with(made, journal_sync_arg(alloc));
    let made = with(made, dump_arg(alloc));
    let made = with(made, audit_arg(alloc));
    let help =
        "Makes a control socket at this place, at which `sysr stop`, `sysr status` and `sysr \
        reload` are heard";
    let made = with(made, control_arg(alloc, help));
    let made = with(made, until_eof_arg(alloc));
    with(made, grace_arg(alloc))
}

// The program without its commands.
fn bare<'a>(alloc: Global) -> Made<'a> {
    let about = "A table server in memory whose rights are delegated and revoked as in System R";
    Ok(
        Command::new(alloc, "sysr")
            .about(about)
            .version(VERSION)
            .subcommand_required(true),
    )
}

/// The program with its commands.
pub fn program<'a>(alloc: Global) -> Made<'a> {
    let made = with_command(bare(alloc), run_command(alloc));
    let made = with_command(made, journal_command(alloc));
    let made = with_command(made, dump_command(alloc));
    let made = with_command(made, stream_command(alloc));
    let made = with_command(made, serve_command(alloc));
    let made = with_command(made, stop_command(alloc));
    let made = with_command(made, status_command(alloc));
    let made = with_command(made, reload_command(alloc));
    let made = with_command(made, verifier_command(alloc));
    with_command(made, explain_command(alloc))
}
