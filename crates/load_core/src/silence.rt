//! A writer to which nothing is written.
ghost use Rattle.std.specs.Prelude.{◌≡◌};

use base_core::{Broken, Sink};

/// A writer that never fails, and of which nobody knows what it took.
#[derive(Drop)]
pub struct Silence;

impl Sink for Silence {
    ghost use Rattle.std.specs.Prelude.{None, true, false, refl};

    ghost failed = { λ _. false };

    ghost taken = { λ _. None };

    ghost handed_on = { λ _. None };

    ghost flushed = { λ _. true };

    fn write(&mut self, bytes: &[u8]) -> Result<usize, Broken> {
        Ok(bytes.len())
    }

    fn flush(&mut self) -> Result<(), Broken> {
        Ok(())
    }

    ghost flushed_hands_on = { λ _ _. refl };
}
