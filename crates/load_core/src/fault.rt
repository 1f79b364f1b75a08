//! Why a line was not carried out, and why nothing was loaded.

use lexer_core::Code;
use system_core::Reply;

/// Why a line says no change that is done.
#[derive(Drop)]
pub enum Undone {
    /// It has this fault, at this byte.
    Fault { code: Code, offset: usize },
    /// It could not be read: out of memory.
    Unread,
    /// What it says is no change.
    NoChange,
    /// It says a change, and this is the reply: a denial or a refusal.
    Answer(Reply),
}

/// Why nothing was loaded.
#[derive(Drop)]
pub enum LoadFault {
    /// The reader failed.
    Read,
    /// 2^32 bytes were read, and the end had not come.
    Bound,
    /// There was no memory for what has to be there before the first read.
    NoMemory,
    /// The line of this number, from 1, says no change that is done.
    Line { number: u64, why: Undone },
    /// The last line, of this number from 1, has no line feed: it was cut off.
    CutOff { number: u64 },
}
