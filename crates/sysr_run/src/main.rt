//! `sysr_run` is `sysr run` without options, by itself: it answers the lines of standard input on
//! standard output, as [`answered`](run_core::answered) does, and keeps no journal.
//!
//! It stands on the crates that this needs and on no other, so that it is built while those that
//! load, serve, dump and explain are still to be proved.
#![tactic(auto)]

use journal_core::NoKeeper;
use lines_core::{NO_MEMORY, give_up};
use run_core::{answered, fill_closed_streams, input, output};
use std::env;
use std::mem::forget;
use std::process::ExitCode;
use system_core::System;

/// The records in a step of the checkpointer, as of `sysr run` where none are given.
const CHUNK: usize = 16;

/// The status of a command line that is refused.
const REFUSED_STATUS: u8 = 2;

/// Answers the lines of standard input. The error is the status, where that ended by a fault, which
/// is told.
fn run(rt: &HostRuntime) -> Result<(), ExitCode> {
    let mut writer = output(rt)?;
    let Ok(system) = System::new(rt.alloc(), CHUNK) else {
        return Err(give_up(rt, NO_MEMORY));
    };
    // The process ends here, and its memory goes back as a whole.
    forget(answered(rt, &mut input(rt), &mut writer, NoKeeper, system)?);
    Ok(())
}

fn main(rt: HostRuntime) -> ExitCode {
    fill_closed_streams(&rt);
    if env::args(&rt).is_ok_and(|words| words.len() > 1) {
        let _ = eprintln!(rt; "error: sysr_run takes no words");
        return ExitCode::from(REFUSED_STATUS);
    }
    match run(&rt) {
        Ok(()) => ExitCode::SUCCESS,
        Err(status) => status,
    }
}
