//! What is told of a replay.
ghost use Rattle.std.specs.Prelude.{◌≡◌, ◌++◌, IfOk};
ghost use Rattle.load_core.specs.FaultTexts.{printable, cut_off_text, cut_off_line, counted_lines, replay_fault_text, left_out_text, dropped_text};

use crate::fault_text::{of_line, owned, undone_line};
use crate::replayed::{CutFront, LeftOut, ReplayFault};
use base_core::NoMemory;
use itoa::Buffer;
use std::alloc::Global;

const DELETE: u8 = 127;

/// Adds the bytes, with `?` in place of each control character.
fn add_printable(text: &mut Vec<u8>, bytes: &[u8]) -> Result<(), NoMemory>
    ensures { IfOk result (λ _. text.new.items ≡ text.old.items ++ printable bytes.now) }
{
    for byte in bytes {
        let is_control = *byte < b' ' || *byte == DELETE;
        text.push(if is_control { b'?' } else { *byte })?;
    }
    Ok(())
}

/// What is told of a line that was cut off behind this front.
fn cut_off_text(alloc: Global, front: &[u8]) -> Result<Vec<u8>, NoMemory>
    ensures { IfOk result (λ text. text.items ≡ cut_off_text front.now) }
{
    let mut text = Vec::new(alloc);
    text.extend_from_slice(b"cut off: ")?;
    add_printable(&mut text, front)?;
    Ok(text)
}

/// `line n: ` and what is told of that line, which was cut off.
fn cut_off_line(alloc: Global, number: u64, front: &[u8]) -> Result<Vec<u8>, NoMemory>
    ensures { IfOk result (λ text. text.items ≡ cut_off_line number front.now) }
{
    let text = cut_off_text(alloc, front)?;
    of_line(alloc, number, text.as_slice())
}

/// What is told of the fault that ended a replay, in new memory and without a line end: of a line
/// `line n: `, and then what a session would be told of it, or `cut off: ` and its front, in which
/// `?` stands for each control character; else `read fault`, `bound reached` or `no memory`.
/// `NoMemory` where a request for memory was refused.
pub fn replay_fault_text(alloc: Global, fault: &ReplayFault) -> Result<Vec<u8>, NoMemory>
    ensures { IfOk result (λ text. text.items ≡ replay_fault_text fault.now) }
{
    match fault {
        ReplayFault::Read => owned(alloc, b"read fault"),
        ReplayFault::Bound => owned(alloc, b"bound reached"),
        ReplayFault::NoMemory => owned(alloc, b"no memory"),
        ReplayFault::Line { number, why } => undone_line(alloc, *number, why),
        ReplayFault::CutOff { number, front } => cut_off_line(alloc, *number, front.as_slice()),
    }
}

/// How many lines were left out, before the first is told.
fn counted_lines(alloc: Global, count: u64) -> Result<Vec<u8>, NoMemory>
    ensures { IfOk result (λ text. text.items ≡ counted_lines count) }
{
    if count == 1 {
        return Ok(owned(alloc, b"1 line: ")?);
    }
    let mut digits = Buffer::new();
    let mut text = Vec::new(alloc);
    text.extend_from_slice(digits.format(count).as_bytes())?;
    text.extend_from_slice(b" lines, first ")?;
    Ok(text)
}

/// What is told of lines that were left out, so many, of which this is the first:
/// `left out 1 line: line 4: ` and why, or `left out 12 lines, first line 4: ` and why. It is in new
/// memory and without a line end. `NoMemory` where a request for memory was refused.
pub fn left_out_text(alloc: Global, count: u64, first: &LeftOut) -> Result<Vec<u8>, NoMemory>
    ensures { IfOk result (λ text. text.items ≡ left_out_text count first.now) }
{
    let lines = counted_lines(alloc, count)?;
    let line = undone_line(alloc, first.number, &first.why)?;
    let mut text = Vec::new(alloc);
    text.extend_from_slice(b"left out ")?;
    text.extend_from_slice(lines.as_slice())?;
    text.extend_from_slice(line.as_slice())?;
    Ok(text)
}

/// What is told of a cut line that was dropped: `left out line n: cut off: ` and its front, in which
/// `?` stands for each control character. It is in new memory and without a line end. `NoMemory`
/// where a request for memory was refused.
pub fn dropped_text(alloc: Global, cut: &CutFront) -> Result<Vec<u8>, NoMemory>
    ensures { IfOk result (λ text. text.items ≡ dropped_text cut.now) }
{
    let line = cut_off_line(alloc, cut.number, cut.front.as_slice())?;
    let mut text = Vec::new(alloc);
    text.extend_from_slice(b"left out ")?;
    text.extend_from_slice(line.as_slice())?;
    Ok(text)
}
