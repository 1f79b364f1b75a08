//! Lines from a reader, and answers to a writer.
ghost use Rattle.std.specs.Prelude.{◌≡◌, ◌≤◌, ◌<◌, ◌↔◌, ◌⊎◌, ◌^◌, ◌++◌, ℕ, List, [], Bool, true, false, take, length, IfOk, OnOk, OnErr, MatchResult, IsErrOf, IsOk};
ghost use Rattle.std.specs.Io.KnownBytes.{Consumes, Keeps, IsAtEnd};
ghost use Rattle.std.specs.Str.Lines.{strip_carriage_return};
ghost use Rattle.base_core.specs.Streams.{Writes, WritesFrontOf, MayWrite};
ghost use Rattle.lines_core.specs.declared.line.TheConstants.{KEPT_BYTES, LONGEST_LINE};
ghost use Rattle.lines_core.specs.Lines.{NoFeed};
ghost use Rattle.lines_core.specs.Feeding.{unfed};
ghost use Rattle.lines_core.specs.Serving.{AnswersPiece, BreaksPiece, AnswersPart, BreaksPart, EndsReading, Ends, EndsTold, EndsWhole, ending_at, IsEndingAt, traffic_of};

use crate::feeding::Feeding;
use crate::line::{Line, without_carriage_return};
use base_core::{Broken, Sink, Source};
use memchr::memchr;
use std::alloc::{AllocError, Global};
use thiserror::Error;

/// Why the answering of lines ended before the input did.
#[derive(Clone, Copy, Debug, PartialEq, Eq, Error)]
pub enum SessionFault {
    #[error("read fault")]
    Read,
    #[error("write fault")]
    Write,
    #[error("bound reached")]
    Bound,
    #[error("no memory")]
    NoMemory,
}

/// Which end the answering of lines came to.
#[derive(Drop)]
pub enum Ending {
    /// That of the input, of which each line has its line feed.
    Whole,
    /// That of the input, whose last line has none.
    CutOff,
    /// The server was over.
    Over,
}

/// Which end the answering of whole lines came to.
#[derive(Drop)]
pub enum WholeEnding {
    /// That of the input, of which each line has its line feed.
    Whole,
    /// That of the input, whose last line has none and was not answered: what is kept of it.
    CutOff(Vec<u8>),
    /// The server was over.
    Over,
}

/// Where the answering of whole lines stopped.
#[derive(Drop)]
enum Stop {
    /// At the end of the input.
    AtEnd,
    /// Where the server was over.
    Over,
}

/// The most bytes that are read.
pub const MOST_BYTES: u64 = 1 << 32;

const BUFFER_BYTES: usize = 65536;

const LINE_FEED: u8 = b'\n';

/// What answers lines.
pub trait LineServer {
    // From the first state these bytes may be written for the line, and the second state is the next.
    ghost answers: { Self → List ℕ → List ℕ → Self → Type 0 };
    // No line is wanted any more.
    ghost over: { Self → Bool };

    /// Whether no line is wanted any more.
    fn is_over(&self) -> bool
        ensures { result ≡ over self.now };

    /// Answers one line, which comes without its line feed and without one carriage return before
    /// that, and of a line of more than 4,128 bytes a front that has more too. On an `Err` the
    /// writer failed, and a front of an answer was written.
    fn answer<W: Sink>(&mut self, writer: &mut W, line: &[u8]) -> Result<(), Broken>
        requires { W.failed writer.old ≡ false }
        ensures { MayWrite W.failed W.taken (λ text. answers self.old line.now text self.new)
            result writer.old writer.new };

    // Lines that are too long for any server are answered alike.
    ghost too_long: { (old new : Self) (line other text : List ℕ)
        → LONGEST_LINE < length line → LONGEST_LINE < length other
        → answers old line text new → answers old other text new };
}

/// Hands on what was written, where nothing is kept of a line: so it is after a line has ended.
fn flush_between_lines<W: Sink>(line: &Line, writer: &mut W) -> Result<(), Broken>
    requires { W.failed writer.old ≡ false }
    ensures failed { MatchResult result (λ _. W.failed writer.new ≡ false)
        (λ _. W.failed writer.new ≡ true) }
    ensures taken { Keeps (W.taken writer.old) (W.taken writer.new) }
    ensures flushed { OnOk result ((line.now ≡ []) ⊎ (W.flushed writer.old ≡ true)
        → W.flushed writer.new ≡ true) }
    ensures err { OnErr result (line.now ≡ []) }
{
    if line.as_slice().is_empty() {
        return writer.flush();
    }
    Ok(())
}

/// Answers the line of which this is the last part. Of a line in one part nothing is copied.
fn answer_line<D: LineServer, W: Sink>(
    server: &mut D,
    line: &mut Line,
    writer: &mut W,
    last: &[u8],
) -> Result<(), Broken>
    requires { W.failed writer.old ≡ false }
    ensures text { MayWrite W.failed W.taken
        (λ text. D.answers server.old
        (strip_carriage_return (take KEPT_BYTES (line.old ++ last.now))) text server.new)
        result writer.old writer.new }
    ensures cleared { OnOk result (line.new ≡ []) }
{
    let whole = line.joined(last);
    server.answer(writer, without_carriage_return(whole))?;
    line.clear();
    Ok(())
}

/// Answers each line that ends in the piece, and keeps the front of what comes after the last.
pub(crate) fn feed<D: LineServer, W: Sink>(
    server: &mut D,
    line: &mut Line,
    writer: &mut W,
    piece: &[u8],
) -> Result<(), Broken>
    requires { W.failed writer.old ≡ false }
    ensures failed { MatchResult result (λ _. W.failed writer.new ≡ false)
        (λ _. W.failed writer.new ≡ true) }
    ensures ok { OnOk result ((rest : List ℕ) → NoFeed rest
        → line.old ≡ take KEPT_BYTES rest
        → AnswersPiece D.answers rest piece.now line.new server.old server.new
        (W.taken writer.old) (W.taken writer.new)) }
    ensures err { OnErr result ((rest : List ℕ) → NoFeed rest
        → line.old ≡ take KEPT_BYTES rest
        → BreaksPiece D.answers rest piece.now server.old server.new
        (W.taken writer.old) (W.taken writer.new)) }
    ensures flushed { W.flushed writer.old ≡ true → OnOk result (W.flushed writer.new ≡ true) }
{
    let mut left = piece;
    while let Some(end) = memchr(LINE_FEED, left) {
        let (front, behind) = left.split_at(end);
        answer_line(server, line, writer, front)?;
        left = &behind[1..];
    }
    flush_between_lines(line, writer)?;
    line.extend(left);
    Ok(())
}

/// Answers the line that ends first in the piece: how many bytes lead to behind it. Where none ends there, that is
/// all of them, and the front is kept.
pub(crate) fn feed_line<D: LineServer, W: Sink>(
    server: &mut D,
    line: &mut Line,
    writer: &mut W,
    piece: &[u8],
) -> Result<usize, Broken>
    requires { W.failed writer.old ≡ false }
    ensures failed { MatchResult result (λ _. W.failed writer.new ≡ false)
        (λ _. W.failed writer.new ≡ true) }
    ensures took { IfOk result (λ n. n ≤ length piece.now) }
    ensures all { IfOk result (λ n. NoFeed (take n piece.now) → n ≡ length piece.now) }
    ensures ok { IfOk result (λ n. (rest : List ℕ) → NoFeed rest
        → line.old ≡ take KEPT_BYTES rest
        → AnswersPart D.answers rest (take n piece.now) line.new server.old server.new
        (W.taken writer.old) (W.taken writer.new)) }
    ensures err { OnErr result ((rest : List ℕ) → NoFeed rest
        → line.old ≡ take KEPT_BYTES rest
        → BreaksPart D.answers rest piece.now server.old server.new
        (W.taken writer.old) (W.taken writer.new)) }
{
    let Some(end) = memchr(LINE_FEED, piece) else {
        line.extend(piece);
        return Ok(piece.len());
    };
    answer_line(server, line, writer, &piece[..end])?;
    Ok(end + 1)
}

/// Reads at most `most` bytes to the front of the buffer.
fn read_up_to<S: Source>(reader: &mut S, buffer: &mut [u8], most: usize) -> Result<usize, Broken>
    requires failed { S.failed reader.old ≡ false }
    requires room { (0 < most) × (most ≤ length buffer.old) }
    ensures failed { MatchResult result (λ _. S.failed reader.new ≡ false)
        (λ _. S.failed reader.new ≡ true) }
    ensures count { IfOk result (λ n. n ≤ most) }
    ensures ok { IfOk result
        (λ n. Consumes (S.left reader.old) (S.left reader.new) (take n buffer.new)) }
    ensures end { IfOk result (λ n. n ≡ 0 → IsAtEnd (S.left reader.new)) }
    ensures err { OnErr result (Keeps (S.left reader.old) (S.left reader.new)) }
{
    reader.read(&mut buffer[..most])
}

/// Answers the last line, if it has a byte.
pub(crate) fn finish<D: LineServer, W: Sink>(
    server: &mut D,
    line: &Line,
    writer: &mut W,
) -> Result<(), Broken>
    requires { W.failed writer.old ≡ false }
    ensures failed { MatchResult result (λ _. W.failed writer.new ≡ false)
        (λ _. W.failed writer.new ≡ true) }
    ensures empty { length line.now ≡ 0
        → OnOk result ((server.new ≡ server.old) × Keeps (W.taken writer.old) (W.taken writer.new))
        × IsOk result }
    ensures ok { 0 < length line.now
        → OnOk result (Writes (λ text. D.answers server.old line.now text server.new)
        (W.taken writer.old) (W.taken writer.new)) }
    ensures err { OnErr result ((0 < length line.now)
        × WritesFrontOf (λ text. D.answers server.old line.now text server.new)
        (W.taken writer.old) (W.taken writer.new)) }
    ensures flushed { W.flushed writer.old ≡ true → OnOk result (W.flushed writer.new ≡ true) }
{
    let bytes = line.as_slice();
    if bytes.is_empty() {
        return Ok(());
    }
    server.answer(writer, bytes)?;
    writer.flush()
}

/// How an input ends behind whose last line feed this line has begun.
pub(crate) fn ending_at(line: &Line) -> Ending
    ensures { result ≡ ending_at line.now }
{
    if line.as_slice().is_empty() {
        Ending::Whole
    } else {
        Ending::CutOff
    }
}

/// Reads to the end and answers each line whose line feed has come, from before the first piece. What is kept
/// of what stands behind the last line feed is left.
fn answer_whole_lines<D: LineServer, S: Source, W: Sink>(
    server: &mut D,
    feeding: &mut Feeding,
    buffer: &mut [u8],
    reader: &mut S,
    writer: &mut W,
) -> Result<Stop, SessionFault>
    requires source { S.failed reader.old ≡ false }
    requires sink { W.failed writer.old ≡ false }
    requires start { feeding.old ≡ unfed }
    requires room { 0 < length buffer.old }
    ensures read { IsErrOf result SessionFault.Read ↔ (S.failed reader.new ≡ true) }
    ensures write { IsErrOf result SessionFault.Write ↔ (W.failed writer.new ≡ true) }
    ensures memory { IsErrOf result SessionFault.NoMemory → ⊥ }
    ensures not_over { W.failed writer.new ≡ false
        → OnErr result (D.over server.old ≡ false → D.over server.new ≡ false) }
    ensures flushed { W.flushed writer.old ≡ true → W.failed writer.new ≡ false
        → W.flushed writer.new ≡ true }
    ensures ends { EndsReading D.answers D.over result feeding.new.line feeding.new.unread
        server.old server.new
        (traffic_of (S.left reader.old) (S.left reader.new)
        (W.taken writer.old) (W.taken writer.new)) }
{
    while feeding.unread() > 0 {
        let most = feeding.unread().min(buffer.len() as u64) as usize;
        let Ok(n) = read_up_to(reader, buffer, most) else {
            return Err(SessionFault::Read);
        };
        if n == 0 {
            return Ok(Stop::AtEnd);
        }
        let Ok(()) = feeding.feed(server, writer, &buffer[..n]) else {
            return Err(SessionFault::Write);
        };
        if server.is_over() {
            return Ok(Stop::Over);
        }
    }
    Err(SessionFault::Bound)
}

/// Reads to the end and answers each line, from before the first piece.
fn serve_lines<D: LineServer, S: Source, W: Sink>(
    server: &mut D,
    feeding: &mut Feeding,
    buffer: &mut [u8],
    reader: &mut S,
    writer: &mut W,
) -> Result<Ending, SessionFault>
    requires source { S.failed reader.old ≡ false }
    requires sink { W.failed writer.old ≡ false }
    requires start { feeding.old ≡ unfed }
    requires room { 0 < length buffer.old }
    ensures read { IsErrOf result SessionFault.Read ↔ (S.failed reader.new ≡ true) }
    ensures write { IsErrOf result SessionFault.Write ↔ (W.failed writer.new ≡ true) }
    ensures memory { IsErrOf result SessionFault.NoMemory → ⊥ }
    ensures not_over { W.failed writer.new ≡ false
        → OnErr result (D.over server.old ≡ false → D.over server.new ≡ false) }
    ensures flushed { W.flushed writer.old ≡ true → W.failed writer.new ≡ false
        → W.flushed writer.new ≡ true }
    ensures ends { EndsTold D.answers D.over result server.old server.new
        (traffic_of (S.left reader.old) (S.left reader.new)
        (W.taken writer.old) (W.taken writer.new)) }
{
    match answer_whole_lines(server, feeding, buffer, reader, writer) {
        Ok(Stop::Over) => Ok(Ending::Over),
        Ok(Stop::AtEnd) => match feeding.finish(server, writer) {
            Ok(ending) => Ok(ending),
            Err(Broken) => Err(SessionFault::Write),
        },
        Err(fault) => Err(fault),
    }
}

/// How an input ends behind whose last line feed this line has begun, which is not answered.
fn whole_ending(line: Line) -> WholeEnding
    ensures { IsEndingAt result line }
{
    let front = line.into_bytes();
    if front.is_empty() {
        WholeEnding::Whole
    } else {
        WholeEnding::CutOff(front)
    }
}

/// Room for a piece of the input.
fn new_buffer(alloc: Global) -> Result<Vec<u8>, AllocError>
    ensures { IfOk result (λ buffer. 0 < length buffer.items) }
{
    vec![in alloc; 0; BUFFER_BYTES]
}

/// Answers the lines that the reader gives, one by one, until its end or until the server is over.
///
/// It reads at most 65,536 bytes at a time. `Read` and `Write` are answered exactly where the
/// reader or the writer has failed, `Bound` where 2^32 bytes were read and the end had not come, and
/// `NoMemory` before the first read. On `Read` and `Bound` the lines whose line feed has come were
/// answered. On `Write` what was written is a front of the answers to lines of which the last has
/// its line feed or ends the input. On each fault but `Write` the server was not over. What was
/// written is handed on before each further read, and at the end.
pub fn serve<D: LineServer, S: Source, W: Sink>(
    alloc: Global,
    server: &mut D,
    reader: &mut S,
    writer: &mut W,
) -> Result<(), SessionFault>
    requires source { S.failed reader.old ≡ false }
    requires sink { W.failed writer.old ≡ false }
    ensures read { IsErrOf result SessionFault.Read ↔ (S.failed reader.new ≡ true) }
    ensures write { IsErrOf result SessionFault.Write ↔ (W.failed writer.new ≡ true) }
    ensures flushed { W.flushed writer.old ≡ true → W.failed writer.new ≡ false
        → W.flushed writer.new ≡ true }
    ensures not_over { W.failed writer.new ≡ false
        → OnErr result (D.over server.old ≡ false → D.over server.new ≡ false) }
    ensures ends { Ends D.answers D.over result server.old server.new
        (traffic_of (S.left reader.old) (S.left reader.new)
        (W.taken writer.old) (W.taken writer.new)) }
{
    match serve_told(alloc, server, reader, writer) {
        Ok(_) => Ok(()),
        Err(fault) => Err(fault),
    }
}

/// As [`serve`], and tells which end it came to.
pub fn serve_told<D: LineServer, S: Source, W: Sink>(
    alloc: Global,
    server: &mut D,
    reader: &mut S,
    writer: &mut W,
) -> Result<Ending, SessionFault>
    requires source { S.failed reader.old ≡ false }
    requires sink { W.failed writer.old ≡ false }
    ensures read { IsErrOf result SessionFault.Read ↔ (S.failed reader.new ≡ true) }
    ensures write { IsErrOf result SessionFault.Write ↔ (W.failed writer.new ≡ true) }
    ensures flushed { W.flushed writer.old ≡ true → W.failed writer.new ≡ false
        → W.flushed writer.new ≡ true }
    ensures not_over { W.failed writer.new ≡ false
        → OnErr result (D.over server.old ≡ false → D.over server.new ≡ false) }
    ensures ends { EndsTold D.answers D.over result server.old server.new
        (traffic_of (S.left reader.old) (S.left reader.new)
        (W.taken writer.old) (W.taken writer.new)) }
{
    let Ok(mut buffer) = new_buffer(alloc) else {
        return Err(SessionFault::NoMemory);
    };
    let Ok(mut feeding) = Feeding::new(alloc) else {
        return Err(SessionFault::NoMemory);
    };
    serve_lines(server, &mut feeding, buffer.as_mut_slice(), reader, writer)
}

/// Answers the lines whose line feed has come, one by one, until the end of what the reader gives
/// or until the server is over. A last line without a line feed is passed over, and handed out as
/// far as it is kept: its first 4,130 bytes at most.
///
/// It reads, and answers faults, as [`serve`] does, but that a write cannot fail behind the last
/// line feed.
pub fn serve_whole<D: LineServer, S: Source, W: Sink>(
    alloc: Global,
    server: &mut D,
    reader: &mut S,
    writer: &mut W,
) -> Result<WholeEnding, SessionFault>
    requires source { S.failed reader.old ≡ false }
    requires sink { W.failed writer.old ≡ false }
    ensures read { IsErrOf result SessionFault.Read ↔ (S.failed reader.new ≡ true) }
    ensures write { IsErrOf result SessionFault.Write ↔ (W.failed writer.new ≡ true) }
    ensures flushed { W.flushed writer.old ≡ true → W.failed writer.new ≡ false
        → W.flushed writer.new ≡ true }
    ensures not_over { W.failed writer.new ≡ false
        → OnErr result (D.over server.old ≡ false → D.over server.new ≡ false) }
    ensures ends { EndsWhole D.answers D.over result server.old server.new
        (traffic_of (S.left reader.old) (S.left reader.new)
        (W.taken writer.old) (W.taken writer.new)) }
{
    let Ok(mut buffer) = new_buffer(alloc) else {
        return Err(SessionFault::NoMemory);
    };
    let Ok(mut feeding) = Feeding::new(alloc) else {
        return Err(SessionFault::NoMemory);
    };
    match answer_whole_lines(server, &mut feeding, buffer.as_mut_slice(), reader, writer) {
        Ok(Stop::AtEnd) => Ok(whole_ending(feeding.into_line())),
        Ok(Stop::Over) => Ok(WholeEnding::Over),
        Err(fault) => Err(fault),
    }
}
