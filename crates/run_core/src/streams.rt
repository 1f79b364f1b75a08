//! The standard streams.
ghost use Rattle.std.specs.Prelude.{◌≡◌, false, IfOk, IfErr};
ghost use Rattle.std.specs.Process.{exit_status};

use base_core::{StdSink, StdSource};
use lines_core::{NO_MEMORY, Steady, give_up};
use std::fs;
use std::io::{BufWriter, Stdin, Stdout, Write};
use std::mem::forget;
use std::process::ExitCode;

// What is gathered of the output before it is written.
const OUTPUT_BYTES: usize = 65536;

/// Fills the places of standard streams that are closed, for as long as the process runs: a file or a
/// socket there would be sent what is told. They are filled by a folder, from which nothing can be
/// read, and to which nothing can be written, so that both are still faults.
pub fn fill_closed_streams(rt: &HostRuntime) {
    for _ in 0..3 {
        forget(fs::open(rt, "/"));
    }
}

/// Standard input.
pub fn input(rt: &HostRuntime) -> StdSource<Steady<Stdin>>
    ensures { result.failed ≡ false }
{
    StdSource::new(Steady::new(rt.stdin()))
}

/// Standard output. The error is the status, where there was no memory for its buffer.
pub fn output(rt: &HostRuntime) -> Result<StdSink<Steady<Stdout>>, ExitCode>
    ensures ok { IfOk result (λ writer. writer.failed ≡ false) }
    ensures err { IfErr result (λ status. exit_status status ≡ 1) }
{
    match BufWriter::with_capacity(rt.alloc(), OUTPUT_BYTES, Steady::new(rt.stdout())) {
        Ok(buffered) => Ok(StdSink::new(buffered)),
        Err(_) => Err(give_up(rt, NO_MEMORY)),
    }
}

/// Tells a sentence on standard error. A fault of standard error is forgotten.
pub fn tell(rt: &HostRuntime, sentence: &[u8]) {
    let mut err = rt.stderr();
    let _ = err.write_all(b"sysr: ");
    let _ = err.write_all(sentence);
    let _ = err.write_all(b"\n");
}
