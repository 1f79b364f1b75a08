//! The flags of the commands that read a journal or a script.

use crate::command::commands::{Made, changes_arg, flag_arg, value_arg, with};
use clap::Arg;
use std::alloc::{AllocError, Global};

static CUT_LINES: [&str; 2] = ["refuse", "drop"];

fn script_arg<'a>(alloc: Global) -> Arg<'a> {
    let help =
        "Standard input is a script, as `run` reads, and no journal: a line has at most 4,096 \
        bytes, and the last one counts without a line feed too";
    flag_arg(alloc, "script", help)
}

fn cut_line_arg<'a>(alloc: Global) -> Arg<'a> {
    let help =
        "A journal's last line without a line feed is a fault (refuse, as where none is given), \
        or is left out, which standard error tells (drop)";
    value_arg(alloc, "cut-line", "c", help).value_parser(CUT_LINES.as_slice())
}

fn strict_arg<'a>(alloc: Global) -> Arg<'a> {
    let help = "The status is 1 where lines were left out or the last line was cut off";
    flag_arg(alloc, "strict", help)
}

fn data_arg<'a>(alloc: Global) -> Result<Arg<'a>, AllocError> {
    let help = "Reads the changes of this folder of a server, in place of standard input";
    value_arg(alloc, "data", "DIR", help).conflicts_with("script")
}

/// The command with these flags behind its arguments. Where they are global, the subcommands of the
/// command take them too.
pub fn with_reading<'a>(alloc: Global, command: Made<'a>, is_global: bool) -> Made<'a> {
    let command = with(command, data_arg(alloc)?.global(is_global));
    let command = with(command, script_arg(alloc).global(is_global));
    let command = with(command, cut_line_arg(alloc).global(is_global));
    let command = with(command, strict_arg(alloc).global(is_global));
    with(command, changes_arg(alloc).global(is_global))
}
