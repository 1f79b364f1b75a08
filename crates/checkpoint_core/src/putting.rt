//! A server's folder as an archive: a checkpoint's image is written to the disk and put there.
ghost use Rattle.std.specs.Prelude.{◌≡◌, true, Some, IfOk};
ghost use Rattle.std.specs.Arc.{arc_value};
ghost use Rattle.turnstile.specs.Logs.{StartsWith};
ghost use Rattle.turnstile.specs.Passes.{IsSamePass, mine};
ghost use Rattle.dump_core.specs.Dump.{dump_of_image};
ghost use Rattle.dump_core.specs.Laws.{AreWellFormed};
ghost use Rattle.desk_core.specs.Guarded.{origin_of};
ghost use Rattle.desk_core.specs.Turns.{asked_by};
ghost use Rattle.desk_core.specs.Kept.{HasKept};
ghost use Rattle.checkpoint_core.specs.Beginning.{AreLinesOfImage, IsSeen};

use crate::archive::Archive;
use crate::fault::CheckpointFault;
use crate::fitting::fits;
use crate::outside::Outside;
use base_core::{Broken, NoMemory};
use capture_core::Image;
use data_core::Pieces;
use desk_core::{Desk, Pass};
use dump_core::write_image;
use folder_core::{Errand, Folder, Written};
use journal_core::{Keeper, LineKeeper};
use recovery_core::HistoryDumps;
use std::alloc::Global;
use std::marker::PhantomData;
use std::sync::{Arc, Wait};

/// What keeps a server's changes in its folder.
pub type FolderKeeper<F> = LineKeeper<Pieces<HistoryDumps, F>>;

/// How a server began: how many changes its folder had, and how many the core that was restored of them.
#[derive(Clone, Copy)]
pub struct Begun {
    pub count: u64,
    pub start: u64,
}

/// A server's folder as an archive of its checkpoints.
#[derive(Drop)]
pub struct FolderArchive<F, O: Drop> {
    outside: O,
    begun: Begun,
    most: u64,
    folder: PhantomData<F>,
}

impl<F, O: Drop> FolderArchive<F, O> {
    /// That of a server which began so. No dump is put there that has more statements than `most`, the number of
    /// changes that a core may have: it could not be loaded.
    pub fn new(outside: O, begun: Begun, most: u64) -> FolderArchive<F, O>
        ensures { result.begun ≡ begun }
    {
        FolderArchive {
            outside,
            begun,
            most,
            folder: PhantomData,
        }
    }
}

/// The image of a checkpoint, which the desk keeps.
fn found<R: Wait, K: Keeper + Drop>(
    rt: &R,
    desk: &Desk<K>,
    pass: &mut Pass<K>,
    number: u64,
) -> Result<Arc<Image>, CheckpointFault>
    requires { pass.old.lock ≡ Some desk.now }
    ensures same { IsSamePass pass.old pass.new }
    ensures made { mine asked_by pass.new ≡ mine asked_by pass.old }
    ensures seen { StartsWith pass.new.seen pass.old.seen }
    ensures image { IfOk result (λ image. IsSeen pass.new.seen (arc_value image)) }
    ensures kept { IfOk result (λ _. (keeper : K)
        × HasKept K.Keeper (origin_of desk.now) pass.new.seen keeper) }
{
    match desk.image(rt, pass, number) {
        None => Err(CheckpointFault::Worn),
        Some(Err(NoMemory)) => Err(CheckpointFault::NoMemory),
        Some(Ok(None)) => Err(CheckpointFault::Gone),
        Some(Ok(Some(image))) => Ok(image),
    }
}

/// Writes the dump of an image to a file of its own, which is then on the disk.
fn written<F: Folder<HistoryDumps>, O: Outside<HistoryDumps, F>>(
    alloc: Global,
    outside: &O,
    image: &Image,
) -> Result<Written, CheckpointFault>
    requires { AreWellFormed (dump_of_image image.now) }
    ensures { IfOk result (λ written. F.knows ≡ true
        → AreLinesOfImage image.now (F.lines_of written)) }
{
    let mut writer = outside.begin_dump()?;
    write_image(alloc, image, &mut writer)?;
    Ok(outside.finish(writer)?)
}

impl<F, O> Archive<FolderKeeper<F>> for FolderArchive<F, O>
where
    F: Folder<HistoryDumps> + Drop,
    O: Outside<HistoryDumps, F> + Drop,
{
    ghost use Rattle.checkpoint_core.specs.Beginning.{MayTend, tends_still};

    ghost may_put = { λ archive. MayTend F.knows archive.begun };

    fn put<R: Wait>(
        &self,
        rt: &R,
        alloc: Global,
        desk: &Desk<FolderKeeper<F>>,
        pass: &mut Pass<FolderKeeper<F>>,
        number: u64,
    ) -> Result<u64, CheckpointFault> {
        let image = found(rt, desk, pass, number)?;
        if !fits(&image, self.most) {
            return Err(CheckpointFault::TooLarge);
        }
        let entered = image.point.0;
        if entered < self.begun.start {
            return Err(CheckpointFault::Gone);
        }
        let point = self.begun.count + (entered - self.begun.start);
        let synced = self.outside.sync()?;
        let dump = written(alloc, &self.outside, &image)?;
        drop(image);
        let put = Errand::Put {
            synced,
            point,
            dump,
        };
        if !desk.tend(rt, pass, put) {
            return Err(CheckpointFault::Refused);
        }
        Ok(point)
    }

    fn settle<R: Wait>(
        &self,
        rt: &R,
        desk: &Desk<FolderKeeper<F>>,
        pass: &mut Pass<FolderKeeper<F>>,
    ) -> Result<(), CheckpointFault> {
        let names = self.outside.sync_names()?;
        if !desk.tend(rt, pass, Errand::Settle(names)) {
            return Err(CheckpointFault::Refused);
        }
        Ok(())
    }

    fn remove_dumps<R: Wait>(
        &self,
        rt: &R,
        desk: &Desk<FolderKeeper<F>>,
        pass: &mut Pass<FolderKeeper<F>>,
        points: &[u64],
    ) -> u64 {
        let mut count = 0;
        for &point in points {
            if desk.tend(rt, pass, Errand::RemoveDump(point)) {
                count += 1;
            }
        }
        count
    }

    fn remove_pieces<R: Wait>(
        &self,
        rt: &R,
        desk: &Desk<FolderKeeper<F>>,
        pass: &mut Pass<FolderKeeper<F>>,
        points: &[u64],
    ) -> u64 {
        let mut count = 0;
        for &point in points {
            if desk.tend(rt, pass, Errand::RemovePiece(point)) {
                count += 1;
            }
        }
        count
    }

    fn dumps(&self, alloc: Global) -> Result<Vec<u64>, Broken> {
        self.outside.dumps(alloc)
    }

    fn pieces(&self, alloc: Global) -> Result<Vec<u64>, Broken> {
        self.outside.pieces(alloc)
    }

    fn count(&self) -> u64 {
        self.outside.count()
    }

    fn rest<R: Wait>(&self, rt: &R, count: u64) {
        self.outside.rest(rt, count);
    }

    fn wake(&self) {
        self.outside.wake();
    }

    fn tell(&self, taken: &Result<u64, CheckpointFault>) {
        self.outside.tell(taken);
    }

    ghost still = { λ archive. tends_still F.knows archive.begun };
}
