//! A stream whose interrupted calls are made again.
ghost use Rattle.std.specs.Prelude.{◌≡◌, ◌≢◌, IfErr};
ghost use Rattle.std.specs.IoError.{error_kind};
ghost use Rattle.std.specs.Io.{ReadsAtMost, WritesAtMost};
ghost use Rattle.std.specs.Io.KnownBytes.{Keeps, ReadConsumes, WriteAppends};

use std::io::{Error, ErrorKind, Read, Result, Write};

/// A reader or writer of `std` that makes a call again where a signal interrupted it. So a process
/// that is stopped and goes on loses no input and no output. `TimedOut` after 2^64 - 1 calls.
#[derive(Drop)]
pub struct Steady<T> {
    stream: T,
}

impl<T> Steady<T> {
    /// The stream whose interrupted calls are made again.
    pub fn new(stream: T) -> Steady<T>
        ensures { result.stream ≡ stream }
    {
        Steady { stream }
    }
}

fn too_many_calls() -> Error
    ensures { error_kind result ≡ ErrorKind.TimedOut }
{
    Error::from(ErrorKind::TimedOut)
}

impl<R: Read> Read for Steady<R> {
    ghost remaining = { λ s. R.remaining s.stream };

    fn read(&mut self, buf: &mut [u8]) -> Result<usize>
        ensures bound { ReadsAtMost result buf.new }
        ensures bytes { ReadConsumes (R.remaining self.old.stream) (R.remaining self.new.stream)
            result buf.new }
        ensures steady { IfErr result (λ e. error_kind e ≢ ErrorKind.Interrupted) }
    {
        for _ in 0..u64::MAX {
            match self.stream.read(buf) {
                Ok(n) => return Ok(n),
                Err(error) => {
                    if error.kind() != ErrorKind::Interrupted {
                        return Err(error);
                    }
                }
            }
        }
        Err(too_many_calls())
    }
}

impl<W: Write> Write for Steady<W> {
    ghost contents = { λ s. W.contents s.stream };

    fn write(&mut self, buf: &[u8]) -> Result<usize>
        ensures bound { WritesAtMost result buf.now }
        ensures bytes { WriteAppends (W.contents self.old.stream) (W.contents self.new.stream)
            result buf.now }
        ensures steady { IfErr result (λ e. error_kind e ≢ ErrorKind.Interrupted) }
    {
        for _ in 0..u64::MAX {
            match self.stream.write(buf) {
                Ok(n) => return Ok(n),
                Err(error) => {
                    if error.kind() != ErrorKind::Interrupted {
                        return Err(error);
                    }
                }
            }
        }
        Err(too_many_calls())
    }

    fn flush(&mut self) -> Result<()>
        ensures bytes { Keeps (W.contents self.old.stream) (W.contents self.new.stream) }
        ensures steady { IfErr result (λ e. error_kind e ≢ ErrorKind.Interrupted) }
    {
        for _ in 0..u64::MAX {
            match self.stream.flush() {
                Ok(()) => return Ok(()),
                Err(error) => {
                    if error.kind() != ErrorKind::Interrupted {
                        return Err(error);
                    }
                }
            }
        }
        Err(too_many_calls())
    }
}
