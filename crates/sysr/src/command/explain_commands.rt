//! The command that explains rights, and its questions.

use crate::command::commands::{Made, command, taking, value_arg, with, with_command, word_arg};
use crate::command::reading_flags::with_reading;
use clap::{Arg, Command};
use std::alloc::Global;

static FORMATS: [&str; 3] = ["text", "csv", "dot"];

const FORM_OF_AN_ANSWER: &str = "\
It reads a journal on standard input or, with --script, a script, as in
`sysr explain why eve SELECT pay < pay.journal`, carries out its changes, and answers at its end,
or at the moment of --at. Lines that were denied or refused, or that say no statement, are left out,
which it tells on standard error. The status is 0 if the answer is yes, or neither yes nor no; 1 if
it is no, if the program could not go on, or if with --strict something was left out; and 2 if the
question has no answer.";

const WHY: &str = "\
sysr explain why eve 'SELECT(wage)' pay < pay.journal
says by which grants eve holds it, or when and by which REVOKE she lost it.";

const WHO: &str = "\
sysr explain who pay SELECT < pay.journal
lists who may select from pay, each with the grants that give it to him.";

const RIGHTS: &str = "\
sysr explain rights < pay.journal > rights.csv
writes a line for each owner and each grant in force.";

const FELL: &str = "\
sysr explain --at 23 fell < pay.journal
lists the grants that had fallen at moment 23, each with its REVOKE.";

const GRANTS: &str = "\
sysr explain grants < pay.journal > grants.csv
writes a line for each single grant, in force or not.";

const IF: &str = "\
sysr explain if 'ann: REVOKE SELECT ON pay FROM bob' < pay.journal
says who would lose what. Nothing is changed.";

const CUT: &str = "\
sysr explain cut eve SELECT pay < pay.journal
writes lines that take it from eve, as few as that takes.";

const DIFF: &str = "\
sysr explain --format csv diff --at 1200 --to 1350 < pay.journal
lists the rights that came between the two moments, those that fell, and those that lost their
option.";

fn to_arg<'a>(alloc: Global) -> Arg<'a> {
    let help = "The later moment; that of the last change, if it is not given";
    taking(
        value_arg(alloc, "to", "n", help),
        clap::value_parser!(u32).range(0..=1000000000),
    )
}

const CAN: &str = "\
sysr explain can bob SELECT pay < pay.journal
lists whom bob could give it to, and to whom that would be new.";

fn can_command<'a>(alloc: Global) -> Made<'a> {
    let about = "Whom the user could give the privilege to";
    let made = command(alloc, "can", about, CAN);
    let made = with(made, user_arg(alloc));
    let made = with(made, privilege_arg(alloc));
    with(made, table_arg(alloc))
}

fn diff_command<'a>(alloc: Global) -> Made<'a> {
    let about = "Which rights came, fell and lost their option behind the moment of --at";
    with(command(alloc, "diff", about, DIFF), to_arg(alloc))
}

fn at_arg<'a>(alloc: Global) -> Arg<'a> {
    let help = "Answers as of the moment behind the m-th change, from 0 to 1,000,000,000";
    let arg = taking(
        value_arg(alloc, "at", "m", help),
        clap::value_parser!(u32).range(0..=1000000000),
    );
    arg.global(true)
}

fn format_arg<'a>(alloc: Global) -> Arg<'a> {
    let help = "For people (text), for programs (csv), or as a graph for Graphviz (dot)";
    let arg = value_arg(alloc, "format", "f", help);
    arg.global(true).value_parser(FORMATS.as_slice())
}

fn user_arg<'a>(alloc: Global) -> Arg<'a> {
    word_arg(alloc, "user", "USER", "The user's name")
}

fn privilege_arg<'a>(alloc: Global) -> Arg<'a> {
    let help = "SELECT, INSERT, DELETE or UPDATE, or of columns 'SELECT(a, b)' or 'UPDATE(a)'";
    word_arg(alloc, "privilege", "PRIVILEGE", help)
}

fn table_arg<'a>(alloc: Global) -> Arg<'a> {
    word_arg(alloc, "table", "TABLE", "The table's name")
}

fn why_command<'a>(alloc: Global) -> Made<'a> {
    let about = "Why the user holds the privilege, or how he lost it";
    let made = command(alloc, "why", about, WHY);
    let made = with(made, user_arg(alloc));
    let made = with(made, privilege_arg(alloc));
    with(made, table_arg(alloc))
}

fn who_command<'a>(alloc: Global) -> Made<'a> {
    let about = "Who holds the privileges on the table, or this one";
    let made = with(command(alloc, "who", about, WHO), table_arg(alloc));
    with(made, privilege_arg(alloc).required(false))
}

fn if_command<'a>(alloc: Global) -> Made<'a> {
    let about = "What the line would take, and from whom";
    let help = "A line of a script, `user: statement`";
    with(
        command(alloc, "if", about, IF),
        word_arg(alloc, "line", "LINE", help),
    )
}

fn cut_command<'a>(alloc: Global) -> Made<'a> {
    let about = "What would take the privilege from the user";
    let made = command(alloc, "cut", about, CUT);
    let made = with(made, user_arg(alloc));
    let made = with(made, privilege_arg(alloc));
    with(made, table_arg(alloc))
}

// The command without its questions.
fn bare<'a>(alloc: Global) -> Made<'a> {
    let about = "Explains the rights that the lines of standard input make";
    let command = Command::new(alloc, "explain")
        .about(about)
        .after_help(FORM_OF_AN_ANSWER)
        .subcommand_required(true);
    let made = with(with(Ok(command), at_arg(alloc)), format_arg(alloc));
    with_reading(alloc, made, true)
}

/// The command with its questions.
pub fn explain_command<'a>(alloc: Global) -> Made<'a> {
    let rights = "Every right in force, as records with commas";
    let fell = "Every grant that fell, when and by what";
    let grants = "Every grant that was ever made, as records with commas";
    let made = with_command(bare(alloc), why_command(alloc));
    let made = with_command(made, who_command(alloc));
    let made = with_command(made, command(alloc, "rights", rights, RIGHTS));
    let made = with_command(made, command(alloc, "fell", fell, FELL));
    let made = with_command(made, command(alloc, "grants", grants, GRANTS));
    let made = with_command(made, if_command(alloc));
    let made = with_command(made, cut_command(alloc));
    let made = with_command(made, can_command(alloc));
    with_command(made, diff_command(alloc))
}
