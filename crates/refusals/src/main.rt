//! `refusals` makes calls that take memory, and each again where it was refused.
//!
//! What it writes is the same whichever one request for memory is refused, since such a call leaves
//! all as it was: else a line says `changed by a refusal`. Where memory is refused to the program
//! itself, it ends there, with status 1. With the words `ROWS TICKETS USER` it issues so many
//! tickets for this user of a checkpoint of so many rows, asks each for one record, and writes
//! nothing: then the requests that it makes can be counted.
#![tactic(auto)]

mod changing;
mod exporting;
mod running;
mod storing;
mod telling;

use std::alloc::Global;
use std::env;
use std::process::ExitCode;

/// The numbers of rows and of tickets, if these words name them.
fn numbers(words: &[String]) -> Option<(usize, usize)> {
    let rows = words.get(1)?.parse().ok()?;
    let tickets = words.get(2)?.parse().ok()?;
    Some((rows, tickets))
}

/// The numbers of rows and of tickets that the command line names, and the user, if it names any.
fn asked(rt: &HostRuntime) -> Option<(usize, usize, String)> {
    let mut words: Vec<String> = env::args(rt).ok()?.collect(rt.alloc()).ok()?;
    let numbers = numbers(&words);
    let user = words.pop();
    drop(words);
    match (numbers, user) {
        (Some((rows, tickets)), Some(user)) => Some((rows, tickets, user)),
        _ => None,
    }
}

fn all(rt: &HostRuntime, alloc: Global) -> Option<()> {
    running::run(rt, alloc)?;
    storing::store(rt, alloc)?;
    changing::grant(rt, alloc)?;
    changing::update(rt, alloc)?;
    exporting::step(rt, alloc)?;
    exporting::export(rt, alloc)?;
    exporting::columns(rt, alloc)
}

fn main(rt: HostRuntime) -> ExitCode {
    let done = match asked(&rt) {
        Some((rows, tickets, user)) => {
            exporting::issue(&rt, rt.alloc(), rows, tickets, user.as_str())
        }
        None => all(&rt, rt.alloc()),
    };
    match done {
        Some(()) => ExitCode::SUCCESS,
        None => ExitCode::FAILURE,
    }
}
