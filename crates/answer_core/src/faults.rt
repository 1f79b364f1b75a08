//! What is written of a statement that was not carried out for a reason of its own.
ghost use Rattle.std.specs.Prelude.{◌≡◌, ◌<◌, ◌^◌, None, false, length};
ghost use Rattle.base_core.specs.Streams.{MayWriteText};
ghost use Rattle.answer_core.specs.Messages.{error_message, fault_error, fault_message, unread_message};

use crate::messages::{write_problem, write_problem_at};
use crate::sql_state::SqlState;
use crate::told::unended;
use base_core::{Broken, Sink};
use lexer_core::Code;
use messages_core::{ServerMessage, Severity, write_message};
use reply_core::{ReplyBuffer, push_fault};

/// Writes an error of the session's own: how grave it is, its code, and what it says. It takes no
/// memory. `Broken` exactly where the writer has failed, and then a front was written.
pub fn write_error<W: Sink>(
    severity: Severity,
    state: SqlState,
    message: &[u8],
    writer: &mut W,
) -> Result<(), Broken>
    requires works { W.failed writer.old ≡ false }
    requires short { length message.now < 2 ^ 30 }
    ensures { MayWriteText W.failed W.taken (error_message severity state message.now None)
        result writer.old writer.new }
{
    write_problem(severity, state, message, writer)
}

/// Writes an error with this line of a fault, which may tell its place.
fn write_fault_line<W: Sink>(
    state: SqlState,
    line: &[u8],
    position: Option<u32>,
    writer: &mut W,
) -> Result<(), Broken>
    requires works { W.failed writer.old ≡ false }
    requires short { length line.now < 2 ^ 30 }
    ensures { MayWriteText W.failed W.taken (fault_error (Some state) line.now position)
        result writer.old writer.new }
{
    match position {
        Some(place) => write_problem_at(Severity::Error, state, unended(line), place, writer),
        None => write_problem(Severity::Error, state, unended(line), writer),
    }
}

/// Writes what is wrong with a statement that is not read: the code, the byte of it that the line tells,
/// and the character of it that clients show, counted from 1, if that is known. A statement without a
/// token is no error: it is told as empty. The buffer may have any text; what it has then means nothing.
/// It takes no memory. `Broken` exactly where the writer has failed, and then a front was written.
pub fn write_fault<W: Sink>(
    buffer: &mut ReplyBuffer,
    code: Code,
    offset: usize,
    position: Option<u32>,
    writer: &mut W,
) -> Result<(), Broken>
    requires { W.failed writer.old ≡ false }
    ensures { MayWriteText W.failed W.taken (fault_message code offset position)
        result writer.old writer.new }
{
    let Some(state) = SqlState::of_fault(code) else {
        return write_message(&ServerMessage::EmptyQueryResponse, writer);
    };
    buffer.clear();
    push_fault(buffer, code, offset);
    write_fault_line(state, buffer.as_slice(), position, writer)
}

/// Writes `refused: no memory` as an error, for a statement that could not be read: out of memory. It
/// takes no memory itself. `Broken` exactly where the writer has failed, and then a front was written.
pub fn write_unread<W: Sink>(writer: &mut W) -> Result<(), Broken>
    requires { W.failed writer.old ≡ false }
    ensures { MayWriteText W.failed W.taken unread_message result writer.old writer.new }
{
    write_problem(
        Severity::Error,
        SqlState::OutOfMemory,
        b"refused: no memory",
        writer,
    )
}
