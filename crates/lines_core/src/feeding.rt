//! Lines from pieces of an input that somebody else reads.
ghost use Rattle.std.specs.Prelude.{◌≡◌, ◌≤◌, ◌<◌, ◌+◌, List, ℕ, true, false, length, take, IfOk, OnOk, OnErr, IsOk, MatchResult};
ghost use Rattle.std.specs.Io.KnownBytes.{Keeps};
ghost use Rattle.base_core.specs.Streams.{Writes, WritesFrontOf};
ghost use Rattle.lines_core.specs.declared.line.TheConstants.{KEPT_BYTES};
ghost use Rattle.lines_core.specs.Lines.{NoFeed};
ghost use Rattle.lines_core.specs.Feeding.{unfed};
ghost use Rattle.lines_core.specs.Serving.{AnswersPiece, BreaksPiece, AnswersPart, BreaksPart, ending_at};

use crate::line::Line;
use crate::serving::{Ending, LineServer, MOST_BYTES, ending_at, feed, feed_line, finish};
use base_core::{Broken, Sink};
use std::alloc::{AllocError, Global};
use std::marker::Model;

/// What lies between two pieces of an input whose lines are answered: the front of a line, and how many
/// bytes may still come. Whoever has this and the server can go on.
#[derive(Drop)]
pub struct Feeding {
    line: Line,
    unread: u64,
}

impl Model for Feeding {
    ghost use Rattle.std.specs.Prelude.{◌≤◌, length};
    ghost use Rattle.lines_core.specs.declared.line.TheConstants.{KEPT_BYTES};
    ghost use Rattle.lines_core.specs.Lines.{NoFeed};
    ghost use Rattle.lines_core.specs.Feeding.{FeedingState};

    ghost Value = { FeedingState };

    ghost view = { λ f. record { line = f.line; unread = f.unread } };

    ghost invariant = { λ f. NoFeed f.line × (length f.line ≤ KEPT_BYTES) };
}

impl Feeding {
    /// Before the first piece. The error is `AllocError`: there was no memory for a line.
    pub fn new(alloc: Global) -> Result<Feeding, AllocError>
        ensures { IfOk result (λ f. f ≡ unfed) }
    {
        let line = Line::new(alloc)?;
        Ok(Feeding {
            line,
            unread: MOST_BYTES,
        })
    }

    /// How many bytes may still come.
    pub fn unread(&self) -> u64
        ensures { result ≡ self.now.unread }
    {
        self.unread
    }

    /// What is kept of the line that has begun.
    pub(crate) fn into_line(self) -> Line
        ensures { result ≡ self.line }
    {
        self.line
    }

    /// Answers each line that ends in this piece, and keeps the front of what comes behind the last. What was
    /// written is handed on where the piece ends with a line. `Broken` where the writer failed.
    pub fn feed<D: LineServer, W: Sink>(
        &mut self,
        server: &mut D,
        writer: &mut W,
        piece: &[u8],
    ) -> Result<(), Broken>
        requires sink { W.failed writer.old ≡ false }
        requires room { length piece.now ≤ self.old.unread }
        ensures failed { MatchResult result (λ _. W.failed writer.new ≡ false)
            (λ _. W.failed writer.new ≡ true) }
        ensures flushed { W.flushed writer.old ≡ true
            → OnOk result (W.flushed writer.new ≡ true) }
        ensures kept { NoFeed self.old.line × (length self.old.line ≤ KEPT_BYTES) }
        ensures unread { OnOk result (self.new.unread + length piece.now ≡ self.old.unread) }
        ensures fed { OnOk result ((rest : List ℕ) → NoFeed rest
            → self.old.line ≡ take KEPT_BYTES rest
            → AnswersPiece D.answers rest piece.now self.new.line server.old server.new
            (W.taken writer.old) (W.taken writer.new)) }
        ensures broken { OnErr result ((rest : List ℕ) → NoFeed rest
            → self.old.line ≡ take KEPT_BYTES rest
            → BreaksPiece D.answers rest piece.now server.old server.new
            (W.taken writer.old) (W.taken writer.new)) }
    {
        let Ok(()) = feed(server, &mut self.line, writer, piece) else {
            // No line goes on from here.
            self.line.clear();
            return Err(Broken);
        };
        self.unread -= piece.len() as u64;
        Ok(())
    }

    /// Answers the line that ends first in this piece, and takes the piece up to behind it; where none ends there,
    /// takes all of it and keeps its front. How many bytes it took. Nothing is handed on. `Broken` where the
    /// writer failed.
    pub fn feed_line<D: LineServer, W: Sink>(
        &mut self,
        server: &mut D,
        writer: &mut W,
        piece: &[u8],
    ) -> Result<usize, Broken>
        requires sink { W.failed writer.old ≡ false }
        requires room { length piece.now ≤ self.old.unread }
        ensures failed { MatchResult result (λ _. W.failed writer.new ≡ false)
            (λ _. W.failed writer.new ≡ true) }
        ensures kept { NoFeed self.old.line × (length self.old.line ≤ KEPT_BYTES) }
        ensures took { IfOk result (λ n. n ≤ length piece.now) }
        ensures some { IfOk result (λ n. 0 < length piece.now → 0 < n) }
        // Where no line ends, that is all.
        ensures all { IfOk result (λ n. NoFeed (take n piece.now) → n ≡ length piece.now) }
        ensures unread { IfOk result (λ n. self.new.unread + n ≡ self.old.unread) }
        ensures fed { IfOk result (λ n. (rest : List ℕ) → NoFeed rest
            → self.old.line ≡ take KEPT_BYTES rest
            → AnswersPart D.answers rest (take n piece.now) self.new.line server.old server.new
            (W.taken writer.old) (W.taken writer.new)) }
        ensures broken { OnErr result ((rest : List ℕ) → NoFeed rest
            → self.old.line ≡ take KEPT_BYTES rest
            → BreaksPart D.answers rest piece.now server.old server.new
            (W.taken writer.old) (W.taken writer.new)) }
    {
        let Ok(taken) = feed_line(server, &mut self.line, writer, piece) else {
            // No line goes on from here.
            self.line.clear();
            return Err(Broken);
        };
        self.unread -= taken as u64;
        Ok(taken)
    }

    /// Answers what is kept of a last line, at the end of the input: how that ended. `Broken` where the writer
    /// failed.
    pub fn finish<D: LineServer, W: Sink>(
        &self,
        server: &mut D,
        writer: &mut W,
    ) -> Result<Ending, Broken>
        requires sink { W.failed writer.old ≡ false }
        ensures failed { MatchResult result (λ _. W.failed writer.new ≡ false)
            (λ _. W.failed writer.new ≡ true) }
        ensures flushed { W.flushed writer.old ≡ true
            → OnOk result (W.flushed writer.new ≡ true) }
        ensures ended { IfOk result (λ ending. ending ≡ ending_at self.now.line) }
        ensures empty { length self.now.line ≡ 0
            → OnOk result ((server.new ≡ server.old) × Keeps (W.taken writer.old) (W.taken writer.new))
            × IsOk result }
        ensures last { 0 < length self.now.line
            → OnOk result (Writes (λ text. D.answers server.old self.now.line text server.new)
            (W.taken writer.old) (W.taken writer.new)) }
        ensures broken { OnErr result ((0 < length self.now.line)
            × WritesFrontOf (λ text. D.answers server.old self.now.line text server.new)
            (W.taken writer.old) (W.taken writer.new)) }
    {
        finish(server, &self.line, writer)?;
        Ok(ending_at(&self.line))
    }
}
