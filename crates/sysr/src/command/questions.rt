//! The questions that `explain` is asked.
ghost use Rattle.sysr.specs.Ranges.{AreAsked, IsMoment};

use crate::command::reading::{Reading, reading_of};
use clap::ArgMatches;
use explain_text::Question;
use explain_words::Format;

const MAX_MOMENT: u32 = 1_000_000_000;

/// What is to be explained of a journal or a script: a question, as of which moment, if not at its
/// end, and in which form; and how standard input is read, or which server's folder is.
#[derive(Clone, Copy)]
pub struct Explaining<'a> {
    pub data: Option<&'a str>,
    pub reading: Reading,
    pub at: Option<u64>,
    pub format: Format,
    pub question: Question<'a>,
}

// clap has refused a number out of range.
fn moment_of(matches: &ArgMatches<'_>, id: &str) -> Option<u64>
    ensures { IsMoment result }
{
    let moment = matches.get_one::<u32>(id)?;
    Some(moment.min(MAX_MOMENT) as u64)
}

// clap has refused another word.
fn format_of(matches: &ArgMatches<'_>) -> Format {
    match matches.get_str("format") {
        Some("csv") => Format::Csv,
        Some("dot") => Format::Dot,
        _ => Format::Text,
    }
}

/// The word of this argument. clap has refused a command line without a word that is required.
pub fn word_of<'a>(matches: &ArgMatches<'a>, id: &str) -> &'a str {
    matches.get_str(id).unwrap_or("")
}

fn why_of<'a>(matches: &ArgMatches<'a>) -> Question<'a> {
    Question::Why {
        user: word_of(matches, "user"),
        privilege: word_of(matches, "privilege"),
        table: word_of(matches, "table"),
    }
}

fn cut_of<'a>(matches: &ArgMatches<'a>) -> Question<'a> {
    Question::Cut {
        user: word_of(matches, "user"),
        privilege: word_of(matches, "privilege"),
        table: word_of(matches, "table"),
    }
}

fn can_of<'a>(matches: &ArgMatches<'a>) -> Question<'a> {
    Question::Can {
        user: word_of(matches, "user"),
        privilege: word_of(matches, "privilege"),
        table: word_of(matches, "table"),
    }
}

// clap has refused a command line without a question.
fn question_of<'a>(matches: &ArgMatches<'a>) -> Question<'a> {
    if let Some(why) = matches.subcommand_matches("why") {
        return why_of(why);
    }
    if let Some(who) = matches.subcommand_matches("who") {
        return Question::Who {
            table: word_of(who, "table"),
            privilege: who.get_str("privilege"),
        };
    }
    if let Some(supposed) = matches.subcommand_matches("if") {
        return Question::If {
            line: word_of(supposed, "line"),
        };
    }
    if let Some(cut) = matches.subcommand_matches("cut") {
        return cut_of(cut);
    }
    if let Some(can) = matches.subcommand_matches("can") {
        return can_of(can);
    }
    if let Some(diff) = matches.subcommand_matches("diff") {
        return Question::Diff {
            at: moment_of(diff, "at").unwrap_or(0),
        };
    }
    match matches.subcommand_name() {
        Some("fell") => Question::Fell,
        Some("grants") => Question::Grants,
        _ => Question::Rights,
    }
}

/// Up to which moment is read: of `diff` to the later one.
fn until_of(matches: &ArgMatches<'_>) -> Option<u64>
    ensures { IsMoment result }
{
    match matches.subcommand_matches("diff") {
        Some(diff) => moment_of(diff, "to"),
        None => moment_of(matches, "at"),
    }
}

/// What the words of `explain` ask.
pub fn explaining_of<'a>(matches: &ArgMatches<'a>) -> Explaining<'a>
    ensures moment { IsMoment result.at }
    ensures limits { AreAsked result.reading.limits }
{
    Explaining {
        data: matches.get_str("data"),
        reading: reading_of(matches),
        at: until_of(matches),
        format: format_of(matches),
        question: question_of(matches),
    }
}
