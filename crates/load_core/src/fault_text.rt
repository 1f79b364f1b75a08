//! The faults of a loading, as they are told to people.
ghost use Rattle.std.specs.Prelude.{◌≡◌, IfOk};
ghost use Rattle.reply_core.specs.Texts.{fault_text};
ghost use Rattle.load_core.specs.FaultTexts.{without_last, undone_text, of_line, load_fault_text};

use crate::fault::{LoadFault, Undone};
use base_core::{Broken, NoMemory};
use itoa::Buffer;
use lexer_core::Code;
use reply_core::{Gathered, ReplyBuffer, reply_text, write_fault};
use std::alloc::Global;

/// The text of a line's fault, with its line feed.
fn fault_line(alloc: Global, code: Code, offset: usize) -> Result<Vec<u8>, NoMemory>
    ensures { IfOk result (λ text. text.items ≡ fault_text code offset) }
{
    let mut buffer = ReplyBuffer::new(alloc)?;
    let mut gathered = Gathered::new(alloc);
    match write_fault(&mut buffer, code, offset, &mut gathered) {
        Ok(()) => Ok(gathered.text),
        Err(Broken) => Err(NoMemory),
    }
}

/// The bytes without the last.
fn without_last(text: &[u8]) -> &[u8]
    ensures { result.now ≡ without_last text.now }
{
    &text[..text.len().saturating_sub(1)]
}

/// `line n: ` and what is told of that line.
pub(crate) fn of_line(alloc: Global, number: u64, said: &[u8]) -> Result<Vec<u8>, NoMemory>
    ensures { IfOk result (λ text. text.items ≡ of_line number said.now) }
{
    let mut digits = Buffer::new();
    let mut text = Vec::new(alloc);
    text.extend_from_slice(b"line ")?;
    text.extend_from_slice(digits.format(number).as_bytes())?;
    text.extend_from_slice(b": ")?;
    text.extend_from_slice(said)?;
    Ok(text)
}

/// `line n: ` and why that line says no change that is done.
pub(crate) fn undone_line(alloc: Global, number: u64, why: &Undone) -> Result<Vec<u8>, NoMemory>
    ensures { IfOk result (λ text. text.items ≡ of_line number (undone_text why.now)) }
{
    match why {
        Undone::Fault { code, offset } => {
            let line = fault_line(alloc, *code, *offset)?;
            of_line(alloc, number, without_last(line.as_slice()))
        }
        Undone::Unread => of_line(alloc, number, b"refused: no memory"),
        Undone::NoChange => of_line(alloc, number, b"no change"),
        Undone::Answer(reply) => {
            let line = reply_text(alloc, reply)?;
            of_line(alloc, number, without_last(line.as_slice()))
        }
    }
}

/// These bytes in new memory.
pub(crate) fn owned(alloc: Global, bytes: &[u8]) -> Result<Vec<u8>, NoMemory>
    ensures { IfOk result (λ text. text.items ≡ bytes.now) }
{
    let mut text = Vec::new(alloc);
    text.extend_from_slice(bytes)?;
    Ok(text)
}

/// What is told of a fault, in new memory and without a line end: of a line `line n: `, and then
/// what a session would be told of it, or `no change` or `cut off`; else `read fault`,
/// `bound reached` or `no memory`. `NoMemory` where a request for memory was refused.
pub fn load_fault_text(alloc: Global, fault: &LoadFault) -> Result<Vec<u8>, NoMemory>
    ensures { IfOk result (λ text. text.items ≡ load_fault_text fault.now) }
{
    match fault {
        LoadFault::Read => owned(alloc, b"read fault"),
        LoadFault::Bound => owned(alloc, b"bound reached"),
        LoadFault::NoMemory => owned(alloc, b"no memory"),
        LoadFault::Line { number, why } => undone_line(alloc, *number, why),
        LoadFault::CutOff { number } => of_line(alloc, *number, b"cut off"),
    }
}
