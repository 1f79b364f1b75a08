//! Journals whose lines stand in several files, one of which begins before the core's.
ghost use Rattle.std.specs.Prelude.{◌≡◌, ◌↔◌, ◌≤◌, false, true, length, Err, IfOk, IsErrOf};
ghost use Rattle.load_core.specs.Skipping.{EndsBehind};
ghost use Rattle.load_core.specs.Loader.{loaded_of};

use crate::fault::LoadFault;
use crate::loader::Loader;
use crate::loading::{Loaded, load_fault};
use crate::whole::read_whole;
use base_core::{Broken, Sink, Source};
use lines_core::LineServer;
use std::alloc::Global;
use system_core::System;

/// A loader that passes over the first lines of a file.
#[derive(Drop)]
pub struct Skipping {
    pub loader: Loader,
    /// How many are still to be passed over.
    pub skips: u64,
}

/// What a file's whole lines make, and how many more lines were to be passed over than it has.
#[derive(Drop)]
pub struct LoadedBehind {
    pub loaded: Loaded,
    pub skips: u64,
}

impl LineServer for Skipping {
    ghost use Rattle.load_core.specs.Skipping.{SkipsOrGoesOn, is_over, SkipsOrGoesOn-too_long};

    ghost answers = { SkipsOrGoesOn };

    ghost over = { is_over };

    fn is_over(&self) -> bool {
        self.loader.is_over()
    }

    fn answer<W: Sink>(&mut self, writer: &mut W, line: &[u8]) -> Result<(), Broken> {
        if self.skips > 0 {
            self.skips -= 1;
            return Ok(());
        }
        self.loader.answer(writer, line)
    }

    ghost too_long = { SkipsOrGoesOn-too_long };
}

/// Goes on from a core by a reader's whole lines behind the first so many, until its end, and enters the
/// change that each says, through pass 0. A last line that has no line feed says nothing, and is given
/// beside the core. Where it has fewer lines than are to be passed over, the rest of their number is given.
///
/// Lines are as those of [`load_whole`](crate::load_whole), and so are the faults; but the number of a
/// line is that of the change which it would have been. On a fault the core is let go.
pub fn load_behind<S: Source>(
    alloc: Global,
    reader: &mut S,
    begins: System,
    skips: u64,
) -> Result<LoadedBehind, LoadFault>
    requires source { S.failed reader.old ≡ false }
    requires few { length begins.journal ≤ begins.limits.changes }
    ensures read { IsErrOf result LoadFault.Read ↔ (S.failed reader.new ≡ true) }
    ensures ends { EndsBehind begins skips result (S.left reader.old) (S.left reader.new) }
    ensures few { IfOk result
        (λ b. length b.loaded.system.journal ≤ b.loaded.system.limits.changes) }
{
    let loader = Loader::new(alloc, begins);
    let mut skipping = Skipping { loader, skips };
    match read_whole(alloc, &mut skipping, reader) {
        Ok(cut) => {
            let Skipping { loader, skips } = skipping;
            match loader.finish(cut) {
                Ok(loaded) => Ok(LoadedBehind { loaded, skips }),
                Err(fault) => Err(fault),
            }
        }
        Err(fault) => {
            let Skipping { loader, .. } = skipping;
            loader.free();
            Err(load_fault(fault))
        }
    }
}
