//! Where in a client's text a fault stands.
ghost use Rattle.std.specs.Prelude.{◌+◌, ◌<◌, ◌≤◌, ◌^◌, length};
ghost use Rattle.conversation_core.specs.Telling.{IsAskedPlace, IsFaultPlace};

use asking_core::Asked;
use parameters_core::{character, position};

/// The character of the text at which clients show a fault at this byte of the line of a statement, which
/// begins at the byte `start` of the text.
pub(crate) fn fault_place(text: &[u8], start: usize, statement: &[u8], offset: usize) -> Option<u32>
    requires short { length text.now < 2 ^ 31 }
    requires within { start + length statement.now ≤ length text.now }
    ensures { IsFaultPlace text.now start statement.now offset result }
{
    let byte = position(statement, offset);
    Some(character(text, start + byte))
}

/// The same of a line that was asked, if it is at fault.
pub(crate) fn asked_place(text: &[u8], start: usize, statement: &[u8], asked: &Asked) -> Option<u32>
    requires short { length text.now < 2 ^ 31 }
    requires within { start + length statement.now ≤ length text.now }
    ensures { IsAskedPlace text.now start statement.now asked.now result }
{
    match asked {
        Asked::Faulty { offset, .. } => fault_place(text, start, statement, *offset),
        _ => None,
    }
}
