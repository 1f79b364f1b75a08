//! Who makes durable what a keeper has kept.
ghost use Rattle.std.specs.Prelude.{◌≡◌, Bool, false, OnOk};

use base_core::Broken;
use std::snapshot::Snapshot;

/// Who makes durable what a keeper has kept, so that a loss of power leaves it. He does not hold the keeper,
/// which goes on meanwhile.
pub trait Syncs<K>: Drop {
    // Whether it is asked that what was kept is durable.
    ghost asks: { Bool };
    // What a keeper that was so had kept is durable.
    ghost durable: { K → Type 0 };

    /// Whether it is asked that what was kept is durable.
    fn is_asked(&self) -> bool
        ensures { result ≡ asks };

    /// Makes durable what the keeper had kept when it was so. `Broken` where that could not be done: nobody
    /// knows then how much of it is on the disk, and no later call makes it good.
    fn sync(&self, kept: &Snapshot<K>) -> Result<(), Broken>
        ensures { OnOk result (durable kept.now.value) };
}

/// Nobody asks for it: whatever was kept is as durable as is wanted.
#[derive(Clone, Copy)]
pub struct NoSync;

impl<K> Syncs<K> for NoSync {
    ghost asks = { false };

    ghost durable = { λ k. Unit {0} };

    #[inline(always)]
    fn is_asked(&self) -> bool {
        false
    }

    #[inline(always)]
    fn sync(&self, _kept: &Snapshot<K>) -> Result<(), Broken> {
        Ok(())
    }
}
