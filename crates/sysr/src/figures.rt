//! How a server fares.
ghost use Rattle.std.specs.Prelude.{◌≡◌};

use crate::calls::{Call, line_of};
use crate::command::{StatusForm, VERSION};
use crate::files::give_up_on;
use crate::report::{Growth, Report};
use crate::socket_files::connected;
use directory_core::bytes_of_pieces;
use lines_core::{SessionFault, fault_text, give_up};
use server_core::{Counters, KINDS};
use std::fs;
use std::io::{BufWriter, Read, Result, Write};
use std::net::Shutdown;
use std::os::unix::net::UnixStream;
use std::process::ExitCode;
use std::time::{SystemTime, UNIX_EPOCH};
use system_core::Size;

// The process's pages, as the system tells them, and the bytes of one.
const PAGES: &str = "/proc/self/statm";

const PAGE_BYTES: u64 = 4096;

// The codes of lacks.
const FIRST_CODE: usize = 11;

const LAST_CODE: usize = 27;

/// What is told of a server beside what it counts.
#[derive(Clone, Copy)]
pub struct Facts<'a> {
    /// When it began, in seconds since 1970, where the clock said it.
    pub started: u64,
    /// How many changes it accepts.
    pub most_changes: u64,
    pub workers: u64,
    pub journal: Option<&'a str>,
    pub folder: Option<&'a str>,
}

/// The seconds since 1970, or 0 where the clock does not say them.
pub fn seconds_now(host: &HostRuntime) -> u64 {
    let Ok(now) = SystemTime::now(host) else {
        return 0;
    };
    match now.duration_since(UNIX_EPOCH) {
        Ok(since) => since.as_secs(),
        Err(_) => 0,
    }
}

/// The bytes of memory that the process has, or 0 where the system does not say them.
fn memory_bytes(host: &HostRuntime) -> u64 {
    let Ok(pages) = fs::read_to_string(host, PAGES) else {
        return 0;
    };
    let Some(resident) = pages.as_str().split(' ').nth(1) else {
        return 0;
    };
    resident
        .parse::<u64>()
        .unwrap_or(0)
        .saturating_mul(PAGE_BYTES)
}

/// The bytes of the journal, or of its pieces in the server's folder.
fn journal_bytes(host: &HostRuntime, facts: Facts<'_>) -> u64 {
    if let Some(path) = facts.folder {
        return bytes_of_pieces(host, path);
    }
    let Some(path) = facts.journal else {
        return 0;
    };
    match fs::metadata(host, path) {
        Ok(metadata) => metadata.len(),
        Err(_) => 0,
    }
}

fn put_size<W: Write>(report: &mut Report<'_, W>, size: Size) -> Result<()> {
    report.figure("tables", Growth::Gauge, size.tables)?;
    report.figure("rows", Growth::Gauge, size.rows)?;
    report.figure("grants", Growth::Gauge, size.grants)?;
    report.figure("checkpoints", Growth::Gauge, size.checkpoints)
}

fn put_sessions<W: Write>(report: &mut Report<'_, W>, counters: &Counters) -> Result<()> {
    let (begun, ended) = (counters.begun(), counters.ended());
    report.figure("sessions_open", Growth::Gauge, begun.saturating_sub(ended))?;
    report.figure("sessions_begun", Growth::Counter, begun)?;
    report.figure(
        "sessions_ended_by_fault",
        Growth::Counter,
        counters.faults(),
    )
}

fn put_statements<W: Write>(report: &mut Report<'_, W>, counters: &Counters) -> Result<()> {
    let longest = counters.longest_turn();
    report.figure("longest_turn_microseconds", Growth::Gauge, longest)?;
    report.figure("lines_faulty", Growth::Counter, counters.lines_faulty())?;
    report.begin_family("statements")?;
    for (place, kind) in KINDS.iter().enumerate() {
        report.part("statements", "kind", *kind, counters.statements(place))?;
    }
    report.end_family()
}

/// What becomes of a statement that lacks something.
#[derive(Clone, Copy)]
enum Lacking {
    Denied,
    Refused,
}

impl Lacking {
    fn name(self) -> &'static str {
        match self {
            Lacking::Denied => "denied",
            Lacking::Refused => "refused",
        }
    }

    fn counted(self, counters: &Counters, code: usize) -> u64 {
        match self {
            Lacking::Denied => counters.denied(code),
            Lacking::Refused => counters.refused(code),
        }
    }
}

fn put_lacks<W: Write>(
    report: &mut Report<'_, W>,
    counters: &Counters,
    lacking: Lacking,
) -> Result<()> {
    let name = lacking.name();
    report.begin_family(name)?;
    for code in FIRST_CODE..=LAST_CODE {
        let counted = lacking.counted(counters, code);
        if counted > 0 {
            report.part(name, "code", code, counted)?;
        }
    }
    report.end_family()
}

fn put_facts<W: Write>(
    host: &HostRuntime,
    report: &mut Report<'_, W>,
    facts: Facts<'_>,
) -> Result<()> {
    report.figure("start_time_seconds", Growth::Gauge, facts.started)?;
    report.figure("workers", Growth::Gauge, facts.workers)?;
    report.figure("changes_limit", Growth::Gauge, facts.most_changes)?;
    let bytes = journal_bytes(host, facts);
    report.figure("journal_bytes", Growth::Gauge, bytes)?;
    report.figure("memory_bytes", Growth::Gauge, memory_bytes(host))
}

/// Writes how the server fares. What the stream does not take is forgotten.
pub fn tell_status(
    host: &HostRuntime,
    stream: &UnixStream,
    form: StatusForm,
    facts: Facts<'_>,
    counters: &Counters,
    size: Size,
) -> Result<()> {
    let mut writer = BufWriter::new(host.alloc(), stream)?;
    let mut report = Report::begin(form, &mut writer, VERSION)?;
    put_facts(host, &mut report, facts)?;
    report.figure("moment", Growth::Gauge, counters.moment())?;
    put_size(&mut report, size)?;
    put_sessions(&mut report, counters)?;
    put_statements(&mut report, counters)?;
    put_lacks(&mut report, counters, Lacking::Denied)?;
    put_lacks(&mut report, counters, Lacking::Refused)?;
    report.end()?;
    writer.flush()
}

/// Copies what the stream gives to standard output.
fn show<R: Read>(host: &HostRuntime, stream: &mut R) -> Result<()> {
    let mut bytes = [0; 1024];
    let mut output = host.stdout();
    for _ in 0..u64::MAX {
        let read = stream.read(&mut bytes)?;
        if read == 0 {
            return output.flush();
        }
        output.write_all(bytes.get(..read).unwrap_or(&[]))?;
    }
    Ok(())
}

/// Asks the server of this control socket how it fares, and tells it on standard output. The status is 0
/// then, and 1 where no server listens there, or none answers, which is told.
pub fn status(rt: &HostRuntime, path: &str, form: StatusForm) -> ExitCode {
    let mut stream = match connected(rt, path) {
        Ok(stream) => stream,
        Err(status) => return status,
    };
    if stream.write_all(line_of(Call::Status(form))).is_err()
        || stream.shutdown(Shutdown::Write).is_err()
    {
        return give_up_on(rt, path, b"no server answers there");
    }
    match show(rt, &mut stream) {
        Ok(()) => ExitCode::SUCCESS,
        Err(_) => give_up(rt, fault_text(SessionFault::Write)),
    }
}
