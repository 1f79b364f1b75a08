//! Replies that are written in pieces.
ghost use Rattle.std.specs.Prelude.{◌≡◌, ◌≤◌, ◌<◌, ◌+◌, true, false, length, take, drop, IfNone, IfOk, IfSome, MatchResult, OnErr};
ghost use Rattle.base_core.specs.Streams.{MayWrite, Writes, WritesFrontOf};
ghost use Rattle.reply_core.specs.Telling.{TellsReply};
ghost use Rattle.reply_core.specs.Pending.{Begins, TellsMore, TellsPending, TellsRest, count_left};

use crate::buffer::ReplyBuffer;
use crate::records::{write_checkpoints, write_rows};
use crate::wording::push_head;
use crate::writing::{CUT, write_ticket};
use base_core::{Broken, Gate, Row, Sequence, Sink, write_all};
use export_core::{ExportFault, Ticket};
use system_core::{Checkpoint, Reply};

/// How many rows, or lines of checkpoints, are written at once: so many that a short reply is
/// written whole, and so few that what waits for a slow client stays small.
const LINES_AT_ONCE: usize = 64;

/// What is still to be written of a reply: rows or lines of checkpoints from a place on, or the
/// records of an export that are to come.
#[derive(Drop)]
pub enum Pending {
    Rows {
        rows: Sequence<Row>,
        next: usize,
    },
    Listed {
        entries: Sequence<Checkpoint>,
        next: usize,
    },
    Export(Ticket),
}

/// The items from a place on.
fn rest_from<T>(items: &[T], next: usize) -> &[T]
    ensures { result.now ≡ drop next items.now }
{
    &items[next.min(items.len())..]
}

/// The items from a place on, as many as are written at once, and the place of those behind them,
/// if there are any.
fn part_from<T>(items: &[T], next: usize) -> (&[T], Option<usize>)
    ensures part { result.0.now ≡ take LINES_AT_ONCE (drop next items.now) }
    ensures last { IfNone result.1 (length items.now ≤ next + LINES_AT_ONCE) }
    ensures behind { IfSome result.1 (λ place. place ≡ next + LINES_AT_ONCE) }
    ensures some { IfSome result.1 (λ place. place < length items.now) }
{
    let rest = rest_from(items, next);
    if rest.len() <= LINES_AT_ONCE {
        return (rest, None);
    }
    (&rest[..LINES_AT_ONCE], Some(next + LINES_AT_ONCE))
}

/// Writes the next rows; gives those behind them, if there are any.
fn go_on_rows<W: Sink>(
    rows: Sequence<Row>,
    next: usize,
    writer: &mut W,
) -> Result<Option<Pending>, Broken>
    requires { W.failed writer.old ≡ false }
    ensures failed { MatchResult result (λ _. W.failed writer.new ≡ false)
        (λ _. W.failed writer.new ≡ true) }
    ensures ok { IfOk result (λ pending. Writes (TellsMore (Pending.Rows rows next) pending)
        (W.taken writer.old) (W.taken writer.new)) }
    ensures progress { IfOk result (λ pending. IfSome pending
        (λ rest. count_left rest < count_left (Pending.Rows rows next))) }
    ensures err { OnErr result (WritesFrontOf (TellsRest (Pending.Rows rows next))
        (W.taken writer.old) (W.taken writer.new)) }
{
    let (part, behind) = part_from(rows.as_slice(), next);
    write_rows(writer, part)?;
    match behind {
        Some(next) => Ok(Some(Pending::Rows { rows, next })),
        None => Ok(None),
    }
}

/// Writes the next lines of checkpoints; gives those behind them, if there are any.
fn go_on_listed<W: Sink>(
    buffer: &mut ReplyBuffer,
    entries: Sequence<Checkpoint>,
    next: usize,
    writer: &mut W,
) -> Result<Option<Pending>, Broken>
    requires { W.failed writer.old ≡ false }
    ensures failed { MatchResult result (λ _. W.failed writer.new ≡ false)
        (λ _. W.failed writer.new ≡ true) }
    ensures ok { IfOk result (λ pending. Writes (TellsMore (Pending.Listed entries next) pending)
        (W.taken writer.old) (W.taken writer.new)) }
    ensures progress { IfOk result (λ pending. IfSome pending
        (λ rest. count_left rest < count_left (Pending.Listed entries next))) }
    ensures err { OnErr result (WritesFrontOf (TellsRest (Pending.Listed entries next))
        (W.taken writer.old) (W.taken writer.new)) }
{
    let (part, behind) = part_from(entries.as_slice(), next);
    write_checkpoints(buffer, writer, part)?;
    match behind {
        Some(next) => Ok(Some(Pending::Listed { entries, next })),
        None => Ok(None),
    }
}

/// Writes the next records of an export, or that the rest is cut; gives the ticket, if more are to
/// come.
// By itself, so that no other reply takes the room for it.
#[inline(never)]
fn go_on_export<W: Sink, G: Gate>(
    mut ticket: Ticket,
    writer: &mut W,
    gate: &G,
) -> Result<Option<Pending>, Broken>
    requires { W.failed writer.old ≡ false }
    ensures failed { MatchResult result (λ _. W.failed writer.new ≡ false)
        (λ _. W.failed writer.new ≡ true) }
    ensures ok { IfOk result (λ pending. Writes (TellsMore (Pending.Export ticket) pending)
        (W.taken writer.old) (W.taken writer.new)) }
    ensures progress { IfOk result (λ pending. IfSome pending
        (λ rest. count_left rest < count_left (Pending.Export ticket))) }
    ensures err { OnErr result (WritesFrontOf (TellsRest (Pending.Export ticket))
        (W.taken writer.old) (W.taken writer.new)) }
{
    match ticket.write_some(writer, gate) {
        Ok(true) => Ok(Some(Pending::Export(ticket))),
        Ok(false) => Ok(None),
        Err(ExportFault::NoMemory) => {
            write_all(writer, CUT)?;
            Ok(None)
        }
        Err(ExportFault::Write) => Err(Broken),
    }
}

impl Pending {
    /// Writes some of what is to come: at most 64 rows or lines of checkpoints, or the next records
    /// of an export, before each of which the gate is called. Gives what is to come behind it, and
    /// None where nothing is. The buffer may have any text; what it has then means nothing.
    ///
    /// Only an export's records take memory: where there is none for the next, `export cut: no
    /// memory` is written in its place, and nothing is to come. `Broken` exactly where the writer
    /// has failed, and then a front was written.
    pub fn go_on<W: Sink, G: Gate>(
        self,
        buffer: &mut ReplyBuffer,
        writer: &mut W,
        gate: &G,
    ) -> Result<Option<Pending>, Broken>
        requires { W.failed writer.old ≡ false }
        ensures failed { MatchResult result (λ _. W.failed writer.new ≡ false)
            (λ _. W.failed writer.new ≡ true) }
        ensures ok { IfOk result (λ pending. Writes (TellsMore self pending)
            (W.taken writer.old) (W.taken writer.new)) }
        ensures progress { IfOk result (λ pending. IfSome pending
            (λ rest. count_left rest < count_left self)) }
        ensures err { OnErr result (WritesFrontOf (TellsRest self)
            (W.taken writer.old) (W.taken writer.new)) }
    {
        match self {
            Pending::Rows { rows, next } => go_on_rows(rows, next, writer),
            Pending::Listed { entries, next } => go_on_listed(buffer, entries, next, writer),
            Pending::Export(ticket) => go_on_export(ticket, writer, gate),
        }
    }
}

/// Writes the first of a reply: all of it, or the first line and 64 records of a longer list, or
/// the line before the records of an export. Gives what is to come behind it, and None where
/// nothing is. The buffer may have any text; what it has then means nothing.
///
/// It takes no memory. `Broken` exactly where the writer has failed, and then a front was written.
pub fn begin_reply<W: Sink>(
    buffer: &mut ReplyBuffer,
    reply: Reply,
    writer: &mut W,
) -> Result<Option<Pending>, Broken>
    requires { W.failed writer.old ≡ false }
    ensures failed { MatchResult result (λ _. W.failed writer.new ≡ false)
        (λ _. W.failed writer.new ≡ true) }
    ensures ok { IfOk result (λ pending. Writes (Begins reply pending)
        (W.taken writer.old) (W.taken writer.new)) }
    ensures err { OnErr result (WritesFrontOf (TellsReply reply)
        (W.taken writer.old) (W.taken writer.new)) }
{
    buffer.clear();
    push_head(buffer, &reply);
    write_all(writer, buffer.as_slice())?;
    match reply {
        Reply::Rows { rows, .. } => go_on_rows(rows, 0, writer),
        Reply::Listed { entries, .. } => go_on_listed(buffer, entries, 0, writer),
        Reply::Export(ticket) => Ok(Some(Pending::Export(ticket))),
        // An arm of its own, since the last one may have nothing to drop.
        Reply::Described { columns, .. } => {
            drop(columns);
            Ok(None)
        }
        _ => Ok(None),
    }
}

/// Writes all that is still to come of a reply, if anything is. The buffer may have any text; what it
/// has then means nothing.
///
/// Only an export's records take memory: where there is none for the next, `export cut: no memory`
/// is written in its place. `Broken` exactly where the writer has failed, and then a front was
/// written.
pub fn write_rest<W: Sink, G: Gate>(
    pending: Option<Pending>,
    buffer: &mut ReplyBuffer,
    writer: &mut W,
    gate: &G,
) -> Result<(), Broken>
    requires { W.failed writer.old ≡ false }
    ensures { MayWrite W.failed W.taken (TellsPending pending) result writer.old writer.new }
{
    match pending {
        None => Ok(()),
        Some(Pending::Rows { rows, next }) => {
            write_rows(writer, rest_from(rows.as_slice(), next))
        }
        Some(Pending::Listed { entries, next }) => {
            write_checkpoints(buffer, writer, rest_from(entries.as_slice(), next))
        }
        Some(Pending::Export(ticket)) => write_ticket(ticket, writer, gate),
    }
}
