//! A file to which a dump is written.
ghost use Rattle.std.specs.Prelude.{◌≡◌, false, IfOk};

use base_core::{Broken, NoMemory, Sink, StdSink};
use std::alloc::Global;
use std::fs::File;
use std::io::BufWriter;

/// A file to which a dump is written, by a buffer.
#[derive(Drop)]
pub struct DumpFile {
    sink: StdSink<File>,
}

impl DumpFile {
    /// This file, to which nothing was written yet. `NoMemory` where there was none for the buffer.
    pub(crate) fn new(alloc: Global, file: File) -> Result<DumpFile, NoMemory>
        ensures { IfOk result (λ f. f.sink.failed ≡ false) }
    {
        match BufWriter::new(alloc, file) {
            Ok(buffered) => Ok(DumpFile {
                sink: StdSink::new(buffered),
            }),
            Err(_) => Err(NoMemory),
        }
    }

    /// Has on the disk what was handed on. What waits in the buffer is lost.
    pub(crate) fn finish(self) -> Result<(), Broken> {
        let (file, waiting) = self.sink.into_parts();
        drop(waiting);
        match file.sync_all() {
            Ok(()) => Ok(()),
            Err(_) => Err(Broken),
        }
    }
}

impl Sink for DumpFile {
    ghost use Rattle.std.specs.Prelude.{None};
    ghost use Rattle.std.proofs.Common.{refl};

    ghost failed = { λ file. ⟦<StdSink<File> as Sink>⟧.failed file.sink };

    // Of a file nothing is known.
    ghost taken = { λ _. None };

    ghost handed_on = { λ _. None };

    ghost flushed = { λ file. ⟦<StdSink<File> as Sink>⟧.flushed file.sink };

    fn write(&mut self, bytes: &[u8]) -> Result<usize, Broken> {
        self.sink.write(bytes)
    }

    fn flush(&mut self) -> Result<(), Broken> {
        self.sink.flush()
    }

    ghost flushed_hands_on = { λ file is_flushed. refl };
}
