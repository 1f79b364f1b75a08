//! The pieces of the journal behind a dump, read one after another.
ghost use Rattle.std.specs.Prelude.{◌≤◌, List, length, IfOk, IfSome};
ghost use Rattle.system_core.specs.declared.machine.event.Entry.{Entry};
ghost use Rattle.folder_core.specs.FileNames.{piece};
ghost use Rattle.folder_core.specs.Calls.{AreNamed};
ghost use Rattle.recovery_core.specs.Reading.{IsSound, ReadsPiece, GoesOnBy, IsReadUpTo, IsReadWhole, IsGoneOn, IsFurther};

use crate::fault::RecoveryFault;
use crate::recovered::Recovered;
use crate::recovering::Read;
use folder_core::{Dumping, Folder};
use load_core::{Loaded, LoadedBehind, load_behind};
use std::alloc::Global;

/// How far the reading has come by a piece, of which the loader gives this.
fn gone_on(loaded: LoadedBehind, before: u64, point: u64, resumes: u64, entered: u64) -> Read
    requires point { point ≤ 9999999999 }
    requires skips { loaded.skips ≤ point }
    requires before { before ≤ length loaded.loaded.system.journal }
    requires entered { entered ≤ before }
    ensures { IsGoneOn loaded before point resumes entered result }
{
    let LoadedBehind { loaded, skips } = loaded;
    let Loaded { system, cut } = loaded;
    drop(cut);
    let entered = entered + (system.moment().0 - before);
    let recovered = Recovered {
        system,
        point,
        resumes,
        at: (point - skips) + entered,
    };
    Read {
        recovered,
        skips,
        entered,
    }
}

/// Reads the piece at which the journal goes on.
fn piece_read<D: Dumping, F: Folder<D>>(
    alloc: Global,
    folder: &F,
    read: Read,
) -> Result<Read, RecoveryFault>
    requires { IsSound read }
    ensures sound { IfOk result IsSound }
    ensures goes_on { IfOk result (GoesOnBy read) }
    ensures reads { IfOk result (λ new. IfSome (F.state folder.now) (ReadsPiece read new)) }
{
    let Read {
        recovered,
        skips,
        entered,
    } = read;
    let Recovered {
        system,
        point,
        resumes,
        at,
    } = recovered;
    let mut reader = match folder.open_piece(at) {
        Ok(reader) => reader,
        Err(fault) => {
            system.free();
            return Err(RecoveryFault::from(fault));
        }
    };
    let before = system.moment().0;
    let loaded = load_behind(alloc, &mut reader, system, skips);
    drop(reader);
    match loaded {
        Ok(loaded) => Ok(gone_on(loaded, before, point, resumes, entered)),
        Err(why) => Err(RecoveryFault::Piece { point: at, why }),
    }
}

/// Reads the pieces behind the dump that was read, of those that begin at these points, as far as they
/// join.
pub fn pieces_read<D: Dumping, F: Folder<D>>(
    alloc: Global,
    folder: &F,
    points: &[u64],
    read: Read,
) -> Result<Read, RecoveryFault>
    requires { IsSound read }
    ensures sound { IfOk result IsSound }
    ensures further { IfOk result (IsFurther read) }
    ensures reads { IfOk result (λ new. IfSome (F.state folder.now)
        (λ s. AreNamed piece s points.now → (start : List Entry)
        → IsReadUpTo start read s → IsReadWhole start new s)) }
{
    let mut read = read;
    while points.contains(&read.recovered.at) {
        let at = read.recovered.at;
        read = piece_read(alloc, folder, read)?;
        if read.recovered.at == at {
            return Ok(read);
        }
    }
    Ok(read)
}
