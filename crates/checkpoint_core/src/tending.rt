//! Who takes checkpoints that restart a server.
ghost use Rattle.std.specs.Prelude.{◌≡◌, Some};
ghost use Rattle.desk_core.specs.Guarded.{origin_of};
ghost use Rattle.session_core.specs.Gains.{Watches};
ghost use Rattle.session_core.specs.Tending.{Tends};

use crate::archive::Archive;
use crate::beginning::taken;
use crate::fault::CheckpointFault;
use base_core::User;
use desk_core::{Desk, Pass};
use journal_core::Keeper;
use session_core::{Tender, Witness};
use std::alloc::Global;
use std::sync::Wait;
use std::sync::atomic::{AtomicBool, Ordering};
use std::time::Clock;

/// When a server takes checkpoints, and what of the old ones it keeps.
#[derive(Clone, Copy)]
pub struct Plan {
    /// Behind how many changes since the newest dump the next is taken.
    pub every: u64,
    /// How many pieces of the journal are kept; all without a number. What a start needs is always kept.
    pub pieces: Option<usize>,
    /// As whom it says CHECKPOINT.
    pub user: User,
}

/// One who takes a checkpoint behind so many changes, has it put into an archive, and removes what that has made old.
#[derive(Drop)]
pub struct CheckpointTaker<A: Drop> {
    archive: A,
    // The point of the dump with which the server began, 0 without one.
    base: u64,
    plan: Plan,
}

impl<A: Drop> CheckpointTaker<A> {
    /// One for a server that began with a dump of `base` changes.
    pub fn new(archive: A, base: u64, plan: Plan) -> CheckpointTaker<A>
        ensures { result.archive ≡ archive }
    {
        CheckpointTaker {
            archive,
            base,
            plan,
        }
    }
}

/// Removes the dumps that are older than the newest, and of the pieces all but the last so many, as far as a
/// start needs none of them.
fn remove_old<R: Wait, K: Keeper + Drop, A: Archive<K>>(
    rt: &R,
    alloc: Global,
    desk: &Desk<K>,
    pass: &mut Pass<K>,
    archive: &A,
    pieces: Option<usize>,
) -> Result<(), CheckpointFault>
    requires { pass.old.lock ≡ Some desk.now }
    ensures { Watches pass.old pass.new }
{
    let dumps = archive.dumps(alloc)?;
    archive.remove_dumps(rt, desk, pass, dumps.as_slice());
    let Some(kept) = pieces else {
        return Ok(());
    };
    let points = archive.pieces(alloc)?;
    if points.len() > kept {
        let old = points.len() - kept;
        archive.remove_pieces(rt, desk, pass, &points.as_slice()[..old]);
    }
    Ok(())
}

/// Takes a checkpoint, and has it put into the archive. Of how many changes its dump is.
fn checkpoint_taken<R, K, A, G>(
    rt: &R,
    alloc: Global,
    desk: &Desk<K>,
    pass: &mut Pass<K>,
    archive: &A,
    plan: &Plan,
    witness: &G,
    stop: &AtomicBool,
) -> Result<u64, CheckpointFault>
where
    R: Wait + Clock,
    K: Keeper + Drop,
    A: Archive<K>,
    G: Witness,
    requires pass { pass.old.lock ≡ Some desk.now }
    requires begins { A.may_put archive.now pass.old.seen (origin_of desk.now) }
    ensures { Tends desk.now pass.old pass.new }
{
    let number = taken(rt, desk, pass, &plan.user, witness, stop)?;
    let point = archive.put(rt, alloc, desk, pass, number)?;
    archive.settle(rt, desk, pass)?;
    remove_old(rt, alloc, desk, pass, archive, plan.pieces)?;
    Ok(point)
}

impl<K: Keeper + Drop, A: Archive<K> + Drop> Tender<K> for CheckpointTaker<A> {
    ghost may_begin = { λ taker. A.may_put taker.archive };

    fn tend<R: Wait + Clock, G: Witness>(
        &self,
        rt: &R,
        alloc: Global,
        desk: &Desk<K>,
        pass: &mut Pass<K>,
        witness: &G,
        stop: &AtomicBool,
    ) {
        let archive = &self.archive;
        let mut next = self.base.saturating_add(self.plan.every);
        for _ in rt.forever() {
            archive.rest(rt, next);
            if stop.load(Ordering::SeqCst) {
                return;
            }
            if archive.count() >= next {
                next = archive.count().saturating_add(self.plan.every);
                let taken = checkpoint_taken(
                    rt, alloc, desk, pass, archive, &self.plan, witness, stop,
                );
                archive.tell(&taken);
            }
        }
        unreachable!()
    }

    fn wake(&self) {
        self.archive.wake();
    }
}
