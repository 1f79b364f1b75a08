//! How a command reads standard input.
ghost use Rattle.sysr.specs.Ranges.{AreAsked};

use base_core::Limits;
use clap::ArgMatches;
use load_core::{CutLine, Form};

const CHANGES: u32 = 1_000_000;

const MAX_CHANGES: u32 = 1_000_000_000;

/// How a command reads standard input, and with which status it ends.
#[derive(Clone, Copy, PartialEq, Eq)]
pub struct Reading {
    /// Whether its lines are read as those of a journal, or of a script, as `run` reads them.
    pub form: Form,
    /// Whether a journal's last line that has no line feed is refused, or is dropped and told.
    pub cut_line: CutLine,
    /// Whether the status is 1 where lines were left out or the last line was cut off.
    pub strict: bool,
    /// How much there may be.
    pub limits: Limits,
}

// clap has refused another word.
fn cut_line_of(matches: &ArgMatches<'_>) -> CutLine {
    match matches.get_str("cut-line") {
        Some("drop") => CutLine::Drop,
        _ => CutLine::Refuse,
    }
}

fn form_of(matches: &ArgMatches<'_>) -> Form {
    if matches.get_flag("script") {
        Form::Script
    } else {
        Form::Journal
    }
}

/// How much there may be. clap has refused a number out of range.
pub(crate) fn limits_of(matches: &ArgMatches<'_>) -> Limits
    ensures { AreAsked result }
{
    let changes = matches.get_one::<u32>("changes").unwrap_or(CHANGES);
    Limits::with_changes(changes.clamp(1, MAX_CHANGES) as u64)
}

/// What the words of a command say of the reading.
pub(crate) fn reading_of(matches: &ArgMatches<'_>) -> Reading
    ensures { AreAsked result.limits }
{
    Reading {
        form: form_of(matches),
        cut_line: cut_line_of(matches),
        strict: matches.get_flag("strict"),
        limits: limits_of(matches),
    }
}
