//! What stands in a server's folder, read: the newest dump, and the pieces of the journal behind it.
ghost use Rattle.std.specs.Prelude.{◌≡◌, ◌<◌, ◌≤◌, [], All, Contains, None, IfOk, IfSome, length};
ghost use Rattle.recovery_core.specs.Reading.{ReadsDump, ReadsBase, IsDumpRead, IsEmptyRead, IsSound, IsMade, IsMadeWith, IsWithJournal};

use crate::fault::RecoveryFault;
use crate::recovered::Recovered;
use base_core::Limits;
use folder_core::{Dumping, Folder};
use load_core::{Loaded, LoadedBehind, load_behind};
use std::alloc::Global;
use system_core::System;

/// What was restored so far, how many of the journal's next lines are passed over, and how many were
/// entered behind the dump.
#[derive(Drop)]
pub struct Read {
    pub recovered: Recovered,
    pub skips: u64,
    pub entered: u64,
}

/// The greatest of the points.
fn greatest(points: &[u64]) -> Option<u64>
    ensures none { result ≡ None → points.now ≡ [] }
    ensures some { IfSome result (λ greatest. Contains points.now greatest) }
    ensures greatest { IfSome result (λ greatest. All (λ point. point ≤ greatest) points.now) }
{
    let mut greatest = None;
    for &point in points {
        match greatest {
            Some(other) if point <= other => {}
            _ => greatest = Some(point),
        }
    }
    greatest
}

/// Nothing was read: the core is this.
fn nothing_read(system: System) -> Read
    ensures { IsEmptyRead system result }
{
    let recovered = Recovered {
        system,
        point: 0,
        resumes: 0,
        at: 0,
    };
    Read {
        recovered,
        skips: 0,
        entered: 0,
    }
}

/// The core that the dump of this point makes, from an empty one.
fn dump_read<D: Dumping, F: Folder<D>>(
    alloc: Global,
    folder: &F,
    system: System,
    point: u64,
) -> Result<Read, RecoveryFault>
    requires empty { system.journal ≡ [] }
    requires made { IsMade system }
    requires point { point ≤ 9999999999 }
    ensures sound { IfOk result IsSound }
    ensures world { IfOk result (λ read. IsWithJournal system read.recovered.system) }
    ensures reads { IfOk result
        (λ read. IfSome (F.state folder.now) (ReadsDump system point read)) }
{
    let (mut reader, resumes) = match folder.open_dump(point) {
        Ok(opened) => opened,
        Err(fault) => {
            system.free();
            return Err(RecoveryFault::from(fault));
        }
    };
    let loaded = load_behind(alloc, &mut reader, system, 0);
    drop(reader);
    match loaded {
        Err(why) => Err(RecoveryFault::Dump { point, why }),
        Ok(LoadedBehind { loaded, .. }) => whole_dump(loaded, point, resumes),
    }
}

/// What was loaded of the dump of this point, where it was whole and resumes with a piece before it.
fn whole_dump(loaded: Loaded, point: u64, resumes: u64) -> Result<Read, RecoveryFault>
    requires point { point ≤ 9999999999 }
    requires few { length loaded.system.journal ≤ loaded.system.limits.changes }
    requires made { IsMade loaded.system }
    ensures sound { IfOk result IsSound }
    ensures read { IfOk result (λ read. IsDumpRead loaded point resumes read) }
{
    let Loaded { system, cut } = loaded;
    if cut.is_some() || resumes > point {
        system.free();
        return Err(RecoveryFault::BadDump { point });
    }
    let recovered = Recovered {
        system,
        point,
        resumes,
        at: resumes,
    };
    Ok(Read {
        recovered,
        skips: point - resumes,
        entered: 0,
    })
}

/// The core that the newest dump makes, or an empty one without a dump.
pub fn base_read<D: Dumping, F: Folder<D>>(
    alloc: Global,
    folder: &F,
    chunk: usize,
    limits: Limits,
) -> Result<Read, RecoveryFault>
    requires some { 0 < chunk }
    requires small { chunk ≤ 64 }
    ensures sound { IfOk result IsSound }
    ensures made { IfOk result (λ read. IsMadeWith chunk limits read.recovered.system) }
    ensures reads { IfOk result
        (λ read. IfSome (F.state folder.now) (ReadsBase chunk limits read)) }
{
    let points = folder.dumps(alloc)?;
    let newest = greatest(points.as_slice());
    drop(points);
    let Ok(system) = System::with_limits(alloc, chunk, limits) else {
        return Err(RecoveryFault::NoMemory);
    };
    match newest {
        None => Ok(nothing_read(system)),
        Some(point) => dump_read(alloc, folder, system, point),
    }
}
