//! The start of a server from its folder.
ghost use Rattle.std.specs.Prelude.{◌≡◌, ◌-◌, ◌<◌, ◌≤◌, IfOk, OnOk, IfSome};
ghost use Rattle.folder_core.specs.FileNames.{piece};
ghost use Rattle.folder_core.specs.Serving.{crashed};
ghost use Rattle.folder_core.specs.Calls.{AreNamed, Moves, IsFoundAt};
ghost use Rattle.recovery_core.specs.Reading.{IsMadeWith};
ghost use Rattle.recovery_core.specs.Recovered.{MakesCore, IsStartingWith, Clears, GoesOnFrom, Recovers};

use crate::fault::RecoveryFault;
use crate::pieces::pieces_read;
use crate::recovered::Recovered;
use crate::recovering::base_read;
use base_core::Limits;
use folder_core::{Dumping, Folder};
use std::alloc::Global;

/// What stands in the folder makes this core: the newest dump, and the pieces behind it, which begin at these
/// points.
fn restored<D: Dumping, F: Folder<D>>(
    alloc: Global,
    folder: &F,
    points: &[u64],
    chunk: usize,
    limits: Limits,
) -> Result<Recovered, RecoveryFault>
    requires some { 0 < chunk }
    requires small { chunk ≤ 64 }
    ensures under { IfOk result (λ recovered. recovered.point ≤ recovered.at) }
    ensures made { IfOk result (λ recovered. IsMadeWith chunk limits recovered.system) }
    ensures restores { IfOk result (λ recovered. IfSome (F.state folder.now)
        (λ s. AreNamed piece s points.now → MakesCore chunk limits recovered s)) }
{
    let base = base_read(alloc, folder, chunk, limits)?;
    let read = pieces_read(alloc, folder, points, base)?;
    if read.skips > 0 {
        let point = read.recovered.point;
        read.recovered.system.free();
        return Err(RecoveryFault::Missing { point });
    }
    Ok(read.recovered)
}

/// Removes the pieces that do not join: of these, those at the end of the journal or behind it.
fn clear<D: Dumping, F: Folder<D>>(
    folder: &mut F,
    points: &[u64],
    at: u64,
) -> Result<(), RecoveryFault>
    requires { IfSome (F.state folder.old) (IsStartingWith at) }
    ensures { OnOk result (Moves (Clears at points.now) (F.state folder.old) (F.state folder.new)) }
{
    for &point in points {
        if point >= at {
            folder.remove_piece(point)?;
        }
    }
    Ok(())
}

/// Makes the folder ready, from what was found: the dump of this point, which resumes with that piece, and
/// the lines up to so many changes. What stands there is on the disk before anything is changed, and what
/// does not join is off it before a line is written.
fn make_ready<D: Dumping, F: Folder<D>>(
    folder: &mut F,
    points: &[u64],
    point: u64,
    resumes: u64,
    at: u64,
) -> Result<(), RecoveryFault>
    requires under { point ≤ at }
    requires found { IfSome (F.state folder.old) (IsFoundAt point resumes (at - point)) }
    requires named { IfSome (F.state folder.old) (λ s. AreNamed piece s points.now) }
    ensures { OnOk result (Moves (GoesOnFrom point resumes at)
        (F.state folder.old) (F.state folder.new)) }
{
    folder.keep_found(point, resumes, at - point)?;
    clear(folder, points, at)?;
    folder.sync_names()?;
    folder.begin_piece()?;
    Ok(())
}

/// Starts from what stands in the folder, whatever a crash left there: the core that the newest dump and the
/// pieces of the journal behind it make, as far as they join. Behind it the journal goes on in a piece of its own.
/// At each moment a crash leaves what was told, since the folder takes no call that a server may not make.
///
/// Whatever is known of the folder, lines made the core, and nothing else. The chunk and the limits are those of [`System::with_limits`], the chunk from 1 to 64. `Broken` where the folder
/// could not be read or written, `NoMemory` where there was no memory; the other faults where a file says what
/// no server wrote.
pub fn recover<D: Dumping, F: Folder<D>>(
    alloc: Global,
    folder: &mut F,
    chunk: usize,
    limits: Limits,
) -> Result<Recovered, RecoveryFault>
    requires some { 0 < chunk }
    requires small { chunk ≤ 64 }
    requires over { IfSome (F.state folder.old) (λ s. s.phase ≡ crashed) }
    ensures made { IfOk result (λ recovered. IsMadeWith chunk limits recovered.system) }
    ensures moves { IfOk result (λ recovered. Moves (Recovers chunk limits recovered)
        (F.state folder.old) (F.state folder.new)) }
{
    let points = folder.pieces(alloc)?;
    let recovered = restored(alloc, folder, points.as_slice(), chunk, limits)?;
    let (point, resumes, at) = (recovered.point, recovered.resumes, recovered.at);
    match make_ready(folder, points.as_slice(), point, resumes, at) {
        Ok(()) => Ok(recovered),
        Err(fault) => {
            recovered.system.free();
            Err(fault)
        }
    }
}
