//! Bytes that nobody can guess.
ghost use Rattle.std.specs.Prelude.{◌≡◌, IfErr};
ghost use Rattle.std.specs.Process.{exit_status};

use lines_core::give_up;
use std::process::ExitCode;
use std::random::RandomSource;

/// Fills these bytes at random. The error is the status, where the system has none, which is told.
pub fn fill(rt: &HostRuntime, bytes: &mut [u8]) -> Result<(), ExitCode>
    ensures { IfErr result (λ status. exit_status status ≡ 1) }
{
    match rt.fill_bytes(bytes) {
        Ok(()) => Ok(()),
        Err(_) => Err(give_up(rt, "sysr: no random bytes")),
    }
}
