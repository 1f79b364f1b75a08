//! How far one call goes with the rows that are left, and what it then writes.
ghost use Rattle.std.specs.Prelude.{◌≡◌, ◌-◌, ◌≤◌, ◌++◌, false, drop, take};
ghost use Rattle.std.specs.List.{concat};
ghost use Rattle.base_core.specs.Streams.{MayWriteText};
ghost use Rattle.answer_core.specs.Remaining.{item_count, item_rows};
ghost use Rattle.answer_core.specs.Steps.{asked_behind, asked_of, CanBeTold, StopsCallAt, StepsTo, step_text, stop_text};

use crate::items::Items;
use crate::messages::{write_closing, write_cut, write_suspended};
use crate::records::Records;
use crate::told::{MOST_LINE_BYTES, write_record};
use crate::unsent::Frame;
use base_core::{Broken, NoMemory, Sequence, Sink};
use reply_core::ReplyBuffer;

/// How many rows of a list are written at once: so many that a short answer is written whole, and so few
/// that what waits for a slow client stays small.
const ROWS_AT_ONCE: usize = 64;

/// Why no more rows are sent.
#[derive(Clone, Copy)]
pub enum Stop {
    /// The others come later.
    Later,
    /// As many were sent as were asked for.
    Suspended,
    /// All were sent.
    Whole,
}

/// How many of so many rows are asked for.
fn asked_of(most: Option<usize>, left: usize) -> usize
    ensures { result ≡ asked_of most left }
{
    match most {
        Some(most) => most.min(left),
        None => left,
    }
}

/// How many are then asked for of the others.
pub fn asked_behind(most: Option<usize>, count: usize) -> Option<usize>
    ensures { result ≡ asked_behind most count }
{
    match most {
        Some(most) => Some(most.saturating_sub(count)),
        None => None,
    }
}

/// How many of so many rows are sent now, and why no more.
pub fn next_part(most: Option<usize>, left: usize) -> (usize, Stop)
    ensures stops { StopsCallAt (asked_of most left) left result.0 result.1 }
    ensures fits { result.0 ≤ left }
{
    let asked = asked_of(most, left);
    if asked > ROWS_AT_ONCE {
        return (ROWS_AT_ONCE, Stop::Later);
    }
    if asked < left {
        return (asked, Stop::Suspended);
    }
    (asked, Stop::Whole)
}

/// Writes what is written where no more rows are sent.
fn write_stop<W: Sink>(
    buffer: &mut ReplyBuffer,
    frame: &Frame,
    total: u64,
    stop: Stop,
    writer: &mut W,
) -> Result<(), Broken>
    requires { W.failed writer.old ≡ false }
    ensures { MayWriteText W.failed W.taken (stop_text frame.now total stop)
        result writer.old writer.new }
{
    match stop {
        Stop::Later => Ok(()),
        Stop::Suspended => write_suspended(writer),
        Stop::Whole => write_closing(buffer, frame.tag, total, frame.at, writer),
    }
}

/// Writes so many rows of a list, from a place on, and what is written where no more are sent.
pub fn write_part<W: Sink>(
    buffer: &mut ReplyBuffer,
    frame: &Frame,
    items: &Items,
    next: usize,
    part: (usize, Stop),
    writer: &mut W,
) -> Result<(), Broken>
    requires works { W.failed writer.old ≡ false }
    requires fits { part.0 ≤ item_count items.now - next }
    ensures { MayWriteText W.failed W.taken
        (concat (take part.0 (drop next (item_rows items.now frame.now.formats)))
        ++ stop_text frame.now (item_count items.now) part.1) result writer.old writer.new }
{
    let (count, stop) = part;
    items.write_some(next, count, &frame.formats, writer)?;
    write_stop(buffer, frame, items.len() as u64, stop, writer)
}

/// What comes next of an export.
#[derive(Drop)]
pub enum RecordStep {
    /// This record.
    Next(Sequence<u8>),
    /// Others than were asked for.
    Suspended,
    /// Nothing.
    Whole,
    /// A record for which there is no memory.
    Cut,
}

/// What comes next of an export of which so many records were sent, where so many more are asked for.
pub fn next_step(records: &mut Records, most: Option<usize>, sent: u64) -> RecordStep
    ensures { StepsTo most sent records.old records.new result }
{
    if asked_of(most, 1) == 0 {
        return match records.is_over() {
            Ok(true) => RecordStep::Whole,
            Ok(false) => RecordStep::Suspended,
            Err(NoMemory) => RecordStep::Cut,
        };
    }
    let Ok(next) = records.next() else {
        return RecordStep::Cut;
    };
    let Some(line) = next else {
        return RecordStep::Whole;
    };
    if line.len() > MOST_LINE_BYTES || sent == u64::MAX {
        return RecordStep::Cut;
    }
    RecordStep::Next(line)
}

/// Writes what comes next of an export.
pub fn write_step<W: Sink>(
    buffer: &mut ReplyBuffer,
    frame: &Frame,
    sent: u64,
    step: &RecordStep,
    writer: &mut W,
) -> Result<(), Broken>
    requires works { W.failed writer.old ≡ false }
    requires told { CanBeTold step.now }
    ensures { MayWriteText W.failed W.taken (step_text frame.now sent step.now)
        result writer.old writer.new }
{
    match step {
        RecordStep::Next(line) => write_record(line.as_slice(), writer),
        RecordStep::Suspended => write_suspended(writer),
        RecordStep::Whole => write_closing(buffer, frame.tag, sent, frame.at, writer),
        RecordStep::Cut => write_cut(writer),
    }
}
