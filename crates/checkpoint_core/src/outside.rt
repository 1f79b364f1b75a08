//! What is done for a folder by whoever does not hold it.
ghost use Rattle.std.specs.Prelude.{◌≡◌, true, false, [], Some, IfOk, IfSome};
ghost use Rattle.checkpoint_core.specs.Written.{AreLinesOf};

use crate::fault::CheckpointFault;
use base_core::{Broken, Sink};
use folder_core::{Dumping, Folder, NamesSynced, Synced, Written};
use std::alloc::Global;
use std::sync::Wait;

/// What takes long, and is done for a server's folder beside it: while everybody goes on, and the folder with
/// them.
pub trait Outside<D: Dumping, F: Folder<D>> {
    /// A file of its own, to which a dump is written.
    type Writer: Sink + Drop;

    /// A file with nothing in it.
    fn begin_dump(&self) -> Result<Self::Writer, Broken>
        ensures works { IfOk result (λ writer. Self.Writer.failed writer ≡ false) }
        ensures empty { IfOk result
            (λ writer. F.knows ≡ true → Self.Writer.taken writer ≡ Some []) };

    /// Has the file on the disk, whole.
    fn finish(&self, writer: Self::Writer) -> Result<Written, Broken>
        requires { Self.Writer.flushed writer ≡ true }
        ensures { IfOk result (λ written. F.knows ≡ true
            → IfSome (Self.Writer.taken writer) (AreLinesOf (F.lines_of written))) };

    /// Has on the disk what was written to the journal.
    fn sync(&self) -> Result<Synced, Broken>;

    /// Has on the disk the names of the folder.
    fn sync_names(&self) -> Result<NamesSynced, Broken>;

    /// The points of the dumps that stand there, in order.
    fn dumps(&self, alloc: Global) -> Result<Vec<u64>, Broken>;

    /// The points at which a piece of the journal begins, in order.
    fn pieces(&self, alloc: Global) -> Result<Vec<u64>, Broken>;

    /// How many changes the journal has.
    fn count(&self) -> u64;

    /// Returns once the journal has so many changes, or was woken since it returned last.
    fn rest<R: Wait>(&self, rt: &R, count: u64);

    /// Has `rest` return.
    fn wake(&self);

    /// Tells that a dump of so many changes is the newest, or why there is none.
    fn tell(&self, taken: &Result<u64, CheckpointFault>);
}
