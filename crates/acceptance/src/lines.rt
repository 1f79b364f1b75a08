//! How input is read in pieces.
ghost use Rattle.std.specs.Prelude.{◌≡◌, false};

use crate::pieces::Pieces;
use crate::slow::Slow;
use base_core::{Broken, Sink, write_all};
use lines_core::{LineServer, SessionFault, serve};
use std::alloc::Global;

/// Writes each line again with a line feed. It is over once it has seen the line `bye`.
#[derive(Drop)]
struct Echo {
    over: bool,
}

impl LineServer for Echo {
    ghost use Rattle.std.specs.Prelude.{⊤};

    ghost answers = { λ _ _ _ _. ⊤ };

    ghost over = { λ s. s.over };

    fn is_over(&self) -> bool {
        self.over
    }

    fn answer<W: Sink>(&mut self, writer: &mut W, line: &[u8]) -> Result<(), Broken> {
        self.over = line == b"bye".as_slice();
        write_all(writer, line)?;
        write_all(writer, b"\n")?;
        Ok(())
    }

    ghost too_long = { λ _ _ _ _ _ _ _ answered. answered };
}

/// How the answering of these pieces ends, and what a writer with so many good writes took.
fn serve_pieces(
    alloc: Global,
    pieces: &mut Pieces<'_>,
    good_writes: usize,
) -> (Result<(), SessionFault>, Vec<u8>)
    requires { pieces.old.failed ≡ false }
{
    let mut writer = Slow::new(alloc, good_writes);
    let outcome = serve(alloc, &mut Echo { over: false }, pieces, &mut writer);
    (outcome, writer.bytes)
}

const INPUT: &'static [u8] = b"a\r\n\nbc\n\rd\r\r\nlast\r";

const OUTPUT: &'static [u8] = b"a\n\nbc\n\rd\r\nlast\r\n";

#[test]
fn lines_in_pieces(rt: HostRuntime) {
    for size in [1, 2, 3, 7] {
        let mut pieces = Pieces::new(INPUT, size, 1000);
        let (outcome, text) = serve_pieces(rt.alloc(), &mut pieces, 1000);
        assert!(rt; outcome == Ok(()) && pieces.most_asked == 65536);
        assert!(rt; text.as_slice() == OUTPUT);
    }
}

#[test]
fn end_read_once(rt: HostRuntime) {
    for (length, left) in [(0, 9), (2, 8), (3, 8)] {
        let mut pieces = Pieces::new(&b"a\nb"[..length], 1000, 10);
        let (outcome, _) = serve_pieces(rt.alloc(), &mut pieces, 1000);
        assert!(rt; outcome == Ok(()) && pieces.good_reads == left);
    }
}

#[test]
fn over_early(rt: HostRuntime) {
    let mut pieces = Pieces::new(b"a\nbye\nb\nc\n", 7, 1000);
    let (outcome, text) = serve_pieces(rt.alloc(), &mut pieces, 1000);
    assert!(rt; outcome == Ok(()) && text.as_slice() == b"a\nbye\n".as_slice());
}
