//! How often the streams of `std` are called, and that they take and give what is long, which no
//! clause can say.
use base_core::{Broken, Sink, Source, StdSink, StdSource, write_all};
use std::alloc::Global;
use std::io::{self, BufWriter, ErrorKind};
use std::process::Abort;

/// A stream whose reads and writes, or flushes, may be broken. It is at its end, and counts its
/// calls.
#[derive(Drop)]
struct Counted {
    is_broken: bool,
    breaks_flushes: bool,
    calls: usize,
    flushes: usize,
}

impl Counted {
    fn new(is_broken: bool, breaks_flushes: bool) -> Counted {
        Counted {
            is_broken,
            breaks_flushes,
            calls: 0,
            flushes: 0,
        }
    }
}

impl io::Read for Counted {
    fn read(&mut self, _into: &mut [u8]) -> io::Result<usize> {
        self.calls = self.calls.saturating_add(1);
        if self.is_broken {
            return Err(io::Error::from(ErrorKind::Interrupted));
        }
        Ok(0)
    }
}

impl io::Write for Counted {
    fn write(&mut self, bytes: &[u8]) -> io::Result<usize> {
        self.calls = self.calls.saturating_add(1);
        if self.is_broken {
            return Err(io::Error::from(ErrorKind::TimedOut));
        }
        Ok(bytes.len())
    }

    fn flush(&mut self) -> io::Result<()> {
        self.flushes = self.flushes.saturating_add(1);
        if self.breaks_flushes {
            return Err(io::Error::from(ErrorKind::TimedOut));
        }
        Ok(())
    }
}

/// An interrupted read is not made again: it is broken as any other.
#[test]
fn a_read_is_one_call(rt: HostRuntime) {
    for (is_broken, want) in [(false, Ok(0)), (true, Err(Broken))] {
        let mut reader = Counted::new(is_broken, false);
        let mut source = StdSource::new(&mut reader);
        let outcome = source.read(&mut [0; 4]);
        assert!(rt; outcome == want && reader.calls == 1);
    }
}

/// Writes these bytes through a buffer for two: what came of it, and how often the writer was
/// called.
fn write(
    rt: &impl Abort,
    alloc: Global,
    writer: Counted,
    bytes: &[u8],
) -> (Result<(), Broken>, usize) {
    let writer = BufWriter::with_capacity(alloc, 2, writer).expect(rt, "memory");
    let mut sink = StdSink::new(writer);
    let outcome = write_all(&mut sink, bytes);
    (outcome, sink.into_parts().0.calls)
}

#[test]
fn a_failed_write_is_made_once(rt: HostRuntime) {
    let broken = write(&rt, rt.alloc(), Counted::new(true, false), b"abc");
    let nothing = write(&rt, rt.alloc(), Counted::new(true, false), b"");
    assert!(rt; broken == (Err(Broken), 1) && nothing == (Ok(()), 0));
}

/// Flushes a byte that waits in a buffer: what came of it, how often the writer was called and
/// flushed, and how many bytes wait.
fn flush(rt: &impl Abort, alloc: Global, writer: Counted) -> (Result<(), Broken>, [usize; 3]) {
    let writer = BufWriter::with_capacity(alloc, 2, writer).expect(rt, "memory");
    let mut sink = StdSink::new(writer);
    assert!(rt; sink.write(b"a") == Ok(1));
    let outcome = sink.flush();
    let (writer, waiting) = sink.into_parts();
    (outcome, [writer.calls, writer.flushes, waiting.len()])
}

#[test]
fn a_flush_is_one_call(rt: HostRuntime) {
    let flushed = flush(&rt, rt.alloc(), Counted::new(false, false));
    assert!(rt; flushed == (Ok(()), [1, 1, 0]));
    let unflushed = flush(&rt, rt.alloc(), Counted::new(false, true));
    assert!(rt; unflushed == (Err(Broken), [1, 1, 0]));
    let unwritten = flush(&rt, rt.alloc(), Counted::new(true, false));
    assert!(rt; unwritten == (Err(Broken), [1, 0, 1]));
}

const LONG: usize = 2_000_000;

/// A stream gives and takes as much as is asked for at once: no error is made up where there is
/// much.
#[test]
fn long_reads_and_writes_are_one_call(rt: HostRuntime) {
    let bytes = vec![in rt.alloc(); b'x'; LONG].expect(&rt, "memory");
    let mut into = vec![in rt.alloc(); 0; LONG].expect(&rt, "memory");
    let mut source = StdSource::new(bytes.as_slice());
    assert!(rt; source.read(&mut into) == Ok(LONG));
    assert!(rt; into.as_slice() == bytes.as_slice());
    let (outcome, calls) = write(&rt, rt.alloc(), Counted::new(false, false), &bytes);
    assert!(rt; outcome == Ok(()) && calls == 1);
}
