//! Where checkpoints of a server are put.
ghost use Rattle.std.specs.Prelude.{◌≡◌, ◌≤◌, List, length, Some};
ghost use Rattle.turnstile.specs.Logs.{StartsWith};
ghost use Rattle.turnstile.specs.Passes.{IsSamePass, mine};
ghost use Rattle.system_core.specs.declared.machine.event.Entry.{Entry};
ghost use Rattle.desk_core.specs.Guarded.{Origin, origin_of};
ghost use Rattle.desk_core.specs.Turns.{asked_by};

use crate::fault::CheckpointFault;
use base_core::Broken;
use desk_core::{Desk, Pass};
use journal_core::Keeper;
use std::alloc::Global;
use std::sync::Wait;

/// Where checkpoints of a server are put, so that they restart it. What is asked of it is done through a pass of the
/// server's desk, which makes nothing by it.
pub trait Archive<K: Keeper + Drop> {
    // A checkpoint may be put of a server where so much was entered, at a desk that was built so.
    ghost may_put: { Self → List Entry → Origin K → Type 0 };

    /// Writes the image of a checkpoint to the disk as a dump, and gives that its name: the dump of so many changes,
    /// which it answers. Nobody is held up for longer than two turns.
    ///
    /// `Gone` where the image is kept no more; `TooLarge` where its dump could not be loaded; and `Refused` where it was not
    /// taken: the newest dump is of as many changes, or one is not settled.
    fn put<R: Wait>(
        &self,
        rt: &R,
        alloc: Global,
        desk: &Desk<K>,
        pass: &mut Pass<K>,
        number: u64,
    ) -> Result<u64, CheckpointFault>
        requires pass { pass.old.lock ≡ Some desk.now }
        requires begins { may_put self.now pass.old.seen (origin_of desk.now) }
        ensures same { IsSamePass pass.old pass.new }
        ensures made { mine asked_by pass.new ≡ mine asked_by pass.old }
        ensures seen { StartsWith pass.new.seen pass.old.seen };

    /// Has the name of the dump on the disk that was put last, so that it is the newest, and the journal goes on
    /// behind it. `Refused` where none was put, or names have changed since.
    fn settle<R: Wait>(
        &self,
        rt: &R,
        desk: &Desk<K>,
        pass: &mut Pass<K>,
    ) -> Result<(), CheckpointFault>
        requires { pass.old.lock ≡ Some desk.now }
        ensures same { IsSamePass pass.old pass.new }
        ensures made { mine asked_by pass.new ≡ mine asked_by pass.old }
        ensures seen { StartsWith pass.new.seen pass.old.seen };

    /// Removes the dumps of these points, but for those that a start may need, and says how many it removed.
    fn remove_dumps<R: Wait>(
        &self,
        rt: &R,
        desk: &Desk<K>,
        pass: &mut Pass<K>,
        points: &[u64],
    ) -> u64
        requires { pass.old.lock ≡ Some desk.now }
        ensures same { IsSamePass pass.old pass.new }
        ensures made { mine asked_by pass.new ≡ mine asked_by pass.old }
        ensures seen { StartsWith pass.new.seen pass.old.seen }
        ensures count { result ≤ length points.now };

    /// Removes the pieces of the journal that begin at these points, but for those that a start may need, and
    /// says how many it removed.
    fn remove_pieces<R: Wait>(
        &self,
        rt: &R,
        desk: &Desk<K>,
        pass: &mut Pass<K>,
        points: &[u64],
    ) -> u64
        requires { pass.old.lock ≡ Some desk.now }
        ensures same { IsSamePass pass.old pass.new }
        ensures made { mine asked_by pass.new ≡ mine asked_by pass.old }
        ensures seen { StartsWith pass.new.seen pass.old.seen }
        ensures count { result ≤ length points.now };

    /// The points of the dumps that stand there, in order.
    fn dumps(&self, alloc: Global) -> Result<Vec<u64>, Broken>;

    /// The points at which a piece of the journal begins, in order.
    fn pieces(&self, alloc: Global) -> Result<Vec<u64>, Broken>;

    /// How many changes the journal has.
    fn count(&self) -> u64;

    /// Returns once the journal has so many changes, or this was woken since it returned last.
    fn rest<R: Wait>(&self, rt: &R, count: u64);

    /// Has `rest` return.
    fn wake(&self);

    /// Tells that a dump of so many changes is the newest, or why there is none.
    fn tell(&self, taken: &Result<u64, CheckpointFault>);

    // So it may be however much is entered.
    ghost still: { (archive : Self) (old new : List Entry) (origin : Origin K)
        → StartsWith new old → may_put archive old origin → may_put archive new origin };
}
