//! A writer whose bytes are gathered nowhere.
ghost use Rattle.std.specs.Prelude.{◌≡◌, false};

use crate::stream::{Broken, Resume, Sink};
use std::io::Write;

/// A writer of `std` that gets each piece as it comes. To take none of some bytes is an error.
#[derive(Drop)]
pub struct Unbuffered<W> {
    writer: W,
    failed: bool,
}

impl<W: Write> Unbuffered<W> {
    /// This writer, which has not failed.
    pub fn new(writer: W) -> Self
        ensures writer { result.writer ≡ writer }
        ensures failed { result.failed ≡ false }
    {
        let failed = false;
        Unbuffered { writer, failed }
    }
}

impl<W: Write> Sink for Unbuffered<W> {
    ghost use Rattle.std.specs.Prelude.{true};
    ghost use Rattle.std.proofs.Common.{refl};

    ghost failed = { λ s. s.failed };

    ghost taken = { λ s. W.contents s.writer };

    ghost handed_on = { λ s. W.contents s.writer };

    ghost flushed = { λ s. true };

    fn write(&mut self, bytes: &[u8]) -> Result<usize, Broken> {
        match self.writer.write(bytes) {
            Ok(n) if n > 0 || bytes.is_empty() => Ok(n),
            _ => {
                self.failed = true;
                Err(Broken)
            }
        }
    }

    fn flush(&mut self) -> Result<(), Broken> {
        match self.writer.flush() {
            Ok(()) => Ok(()),
            Err(_) => {
                self.failed = true;
                Err(Broken)
            }
        }
    }

    ghost flushed_hands_on = { λ s _. refl };
}

impl<W: Write> Resume for Unbuffered<W> {
    fn resume(&mut self) {
        self.failed = false;
    }
}
