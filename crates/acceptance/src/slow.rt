//! A writer that fails.
ghost use Rattle.std.specs.Prelude.{◌≡◌, false};

use base_core::{Broken, Sink};
use std::alloc::Global;

/// A writer that takes one byte at a time, and fails at some write.
#[derive(Drop)]
pub struct Slow {
    pub bytes: Vec<u8>,
    good_writes: usize,
    failed: bool,
}

impl Slow {
    pub fn new(alloc: Global, good_writes: usize) -> Slow
        ensures { result.failed ≡ false }
    {
        Slow {
            bytes: Vec::new(alloc),
            good_writes,
            failed: false,
        }
    }
}

impl Sink for Slow {
    ghost use Rattle.std.specs.Prelude.{Some, true, refl};

    ghost failed = { λ s. s.failed };

    ghost taken = { λ s. Some s.bytes.items };

    ghost handed_on = { λ s. Some s.bytes.items };

    ghost flushed = { λ _. true };

    fn write(&mut self, bytes: &[u8]) -> Result<usize, Broken> {
        let Some(&first) = bytes.first() else {
            return Ok(0);
        };
        if self.good_writes == 0 || self.bytes.push(first).is_err() {
            self.failed = true;
            return Err(Broken);
        }
        self.good_writes -= 1;
        Ok(1)
    }

    fn flush(&mut self) -> Result<(), Broken> {
        Ok(())
    }

    ghost flushed_hands_on = { λ _ _. refl };
}
