//! Who tends what is kept of a server's changes.
ghost use Rattle.std.specs.Prelude.{◌≡◌, Some, List};
ghost use Rattle.system_core.specs.declared.machine.event.Entry.{Entry};
ghost use Rattle.desk_core.specs.Guarded.{Origin, origin_of};
ghost use Rattle.session_core.specs.Tending.{Tends};

use crate::witness::Witness;
use desk_core::{Desk, Pass};
use journal_core::Keeper;
use std::alloc::Global;
use std::sync::Wait;
use std::sync::atomic::AtomicBool;
use std::time::Clock;

/// One who tends what is kept of a server's changes, through a pass of his own, while its sessions go on.
pub trait Tender<K: Keeper + Drop> {
    // He may begin where so much was entered, at a desk that was built so.
    ghost may_begin: { Self → List Entry → Origin K → Type 0 };

    /// Tends it until the flag is set. He looks at what was entered and kept, and says CHECKPOINT, and does nothing
    /// else through the pass. Of each CHECKPOINT that was begun the witness is told.
    fn tend<R: Wait + Clock, G: Witness>(
        &self,
        rt: &R,
        alloc: Global,
        desk: &Desk<K>,
        pass: &mut Pass<K>,
        witness: &G,
        stop: &AtomicBool,
    )
        requires pass { pass.old.lock ≡ Some desk.now }
        requires begins { may_begin self.now pass.old.seen (origin_of desk.now) }
        ensures { Tends desk.now pass.old pass.new };

    /// Has him look whether the flag is set.
    fn wake(&self);
}

/// Nobody tends anything.
#[derive(Clone, Copy)]
pub struct NoTender;

impl<K: Keeper + Drop> Tender<K> for NoTender {
    ghost use Rattle.session_core.specs.Tending.{untended};

    ghost may_begin = { λ tender journal origin. Unit {0} };

    fn tend<R: Wait + Clock, G: Witness>(
        &self,
        _rt: &R,
        _alloc: Global,
        _desk: &Desk<K>,
        _pass: &mut Pass<K>,
        _witness: &G,
        _stop: &AtomicBool,
    ) {}

    fn wake(&self) {}
}
