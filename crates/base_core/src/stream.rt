//! Readers and writers whose every error is one and the same.
ghost use Rattle.std.specs.Prelude.{◌≡◌, ◌≤◌, ◌<◌, ℕ, Bool, true, false, List, Option, length, IfOk, OnOk, MatchResult, Ok};
ghost use Rattle.std.specs.Io.KnownBytes.{Keeps, IsAtEnd, ReadConsumes, WriteAppends};
ghost use Rattle.base_core.specs.Streams.{MayWriteText};

use std::io::{BufWriter, Read, Write};

/// A failed read or write.
#[derive(Clone, Copy, Debug, PartialEq, Eq)]
pub struct Broken;

/// A reader that says whether it has failed.
pub trait Source {
    // An error came.
    ghost failed: { Self → Bool };
    // The bytes that reads will give from here on, where they are known.
    ghost left: { Self → Option (List ℕ) };

    /// Reads some bytes to the front of `into`. `Ok(0)` is the end, where there was room.
    fn read(&mut self, into: &mut [u8]) -> Result<usize, Broken>
        requires { failed self.old ≡ false }
        ensures count { IfOk result (λ n. n ≤ length into.new) }
        ensures failed { MatchResult result (λ _. failed self.new ≡ false)
            (λ _. failed self.new ≡ true) }
        ensures bytes { ReadConsumes (left self.old) (left self.new) result into.new };
}

/// A writer that says whether it has failed.
pub trait Sink {
    // An error came.
    ghost failed: { Self → Bool };
    // The bytes that were taken, where they are known.
    ghost taken: { Self → Option (List ℕ) };
    // Those of them that were handed on, where they are known.
    ghost handed_on: { Self → Option (List ℕ) };
    // Nothing that was taken waits in a buffer.
    ghost flushed: { Self → Bool };

    /// Takes some of the bytes, at least one where there is one.
    fn write(&mut self, bytes: &[u8]) -> Result<usize, Broken>
        requires { failed self.old ≡ false }
        ensures count { IfOk result (λ n. n ≤ length bytes.now) }
        ensures some { 0 < length bytes.now → IfOk result (λ n. 0 < n) }
        ensures failed { MatchResult result (λ _. failed self.new ≡ false)
            (λ _. failed self.new ≡ true) }
        ensures bytes { WriteAppends (taken self.old) (taken self.new) result bytes.now };

    /// Hands on what was taken and waits in a buffer.
    fn flush(&mut self) -> Result<(), Broken>
        requires { failed self.old ≡ false }
        ensures failed { MatchResult result (λ _. failed self.new ≡ false)
            (λ _. failed self.new ≡ true) }
        ensures flushed { OnOk result (flushed self.new ≡ true) }
        ensures bytes { Keeps (taken self.old) (taken self.new) };

    // A sink that is flushed, be it after a write, has handed on all that it took.
    ghost flushed_hands_on: { (sink : Self) → flushed sink ≡ true → handed_on sink ≡ taken sink };
}

/// A sink that can be asked again once it has failed, since what made it fail may have passed: a disk
/// that was full.
pub trait Resume: Sink {
    /// From now on it has not failed. What it took stays as it is.
    fn resume(&mut self)
        ensures failed { Self.failed self.new ≡ false }
        ensures bytes { Keeps (Self.taken self.old) (Self.taken self.new) };
}

/// A reader of `std`.
#[derive(Drop)]
pub struct StdSource<R> {
    reader: R,
    failed: bool,
}

impl<R: Read> StdSource<R> {
    /// This reader, which has not failed.
    pub fn new(reader: R) -> Self
        ensures reader { result.reader ≡ reader }
        ensures failed { result.failed ≡ false }
    {
        let failed = false;
        StdSource { reader, failed }
    }
}

impl<R: Read> Source for StdSource<R> {
    ghost failed = { λ s. s.failed };

    ghost left = { λ s. R.remaining s.reader };

    fn read(&mut self, into: &mut [u8]) -> Result<usize, Broken> {
        match self.reader.read(into) {
            Ok(n) => Ok(n),
            Err(_) => {
                self.failed = true;
                Err(Broken)
            }
        }
    }
}

/// A writer of `std` with a buffer. To take none of some bytes is an error.
#[derive(Drop)]
pub struct StdSink<W: Write + Drop> {
    writer: BufWriter<W>,
    failed: bool,
}

impl<W: Write + Drop> StdSink<W> {
    ghost use Rattle.std.specs.Io.Buffered.{writer_buffer, writer_inner};

    /// This writer, which has not failed.
    pub fn new(writer: BufWriter<W>) -> Self
        ensures writer { result.writer ≡ writer }
        ensures failed { result.failed ≡ false }
    {
        let failed = false;
        StdSink { writer, failed }
    }

    /// The writer behind the buffer, and the bytes that wait in the buffer.
    pub fn into_parts(self) -> (W, Vec<u8>)
        ensures inner { result.0 ≡ writer_inner self.writer }
        ensures waiting { result.1.items ≡ writer_buffer self.writer }
    {
        let StdSink { writer, .. } = self;
        writer.into_parts()
    }
}

impl<W: Write + Drop> Sink for StdSink<W> {
    ghost use Rattle.std.specs.Prelude.{nat_eq, Some, None, []};
    ghost use Rattle.std.specs.Io.Buffered.{writer_buffer, writer_contents, writer_inner};
    ghost use Rattle.std.specs.Io.KnownBytes.{append_known};
    ghost use Rattle.std.proofs.Common.{refl, sym, ap, subst, append-nil};
    ghost use Rattle.std.proofs.lemmas.Bool.{eqb-true};
    ghost use Rattle.std.proofs.lemmas.List.{nil_from_length};

    ghost failed = { λ s. s.failed };

    ghost taken = { λ s. writer_contents W.contents s.writer };

    ghost handed_on = { λ s. W.contents (writer_inner s.writer) };

    ghost flushed = { λ s. nat_eq (length (writer_buffer s.writer)) 0 };

    fn write(&mut self, bytes: &[u8]) -> Result<usize, Broken> {
        match self.writer.write(bytes) {
            Ok(n) if n > 0 || bytes.is_empty() => Ok(n),
            _ => {
                self.failed = true;
                Err(Broken)
            }
        }
    }

    fn flush(&mut self) -> Result<(), Broken> {
        match self.writer.flush() {
            Ok(()) => Ok(()),
            Err(_) => {
                self.failed = true;
                Err(Broken)
            }
        }
    }

    ghost flushed_hands_on = { λ s empty.
        let known = W.contents (writer_inner s.writer) in
        let none_waits : (bytes : Option (List ℕ)) → bytes ≡ append_known bytes [] =
        elim [ None ↦ refl | Some xs ↦ ap (λ (ys : List ℕ). Some ys) (sym (append-nil xs)) ] in
        let waiting = writer_buffer s.writer in
        let is_nil : waiting ≡ [] = nil_from_length waiting (eqb-true (length waiting) 0 empty) in
        subst (λ (xs : List ℕ). known ≡ append_known known xs) (sym is_nil) (none_waits known) };
}

/// Writes all of the bytes. On an `Err` the writer took some front of them.
pub fn write_all<W: Sink>(writer: &mut W, bytes: &[u8]) -> Result<(), Broken>
    requires { W.failed writer.old ≡ false }
    ensures { MayWriteText W.failed W.taken bytes.now result writer.old writer.new }
{
    let mut rest = bytes;
    while !rest.is_empty() {
        let n = writer.write(rest)?;
        rest = &rest[n..];
    }
    Ok(())
}
