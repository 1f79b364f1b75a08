//! What is written of a reply, of a fault, and of a line that was not read.
ghost use Rattle.std.specs.Prelude.{◌≡◌, false};
ghost use Rattle.base_core.specs.Streams.{MayWrite, MayWriteText};
ghost use Rattle.reply_core.specs.Texts.{fault_text, list_text, reply_text, unread_text};
ghost use Rattle.reply_core.specs.Telling.{TellsReply, TellsRecords};

use crate::buffer::ReplyBuffer;
use crate::records::{write_checkpoints, write_rows};
use crate::wording::{push_done, push_fault, push_head};
use base_core::{Broken, Gate, Moment, Sink, write_all};
use export_core::{ExportFault, Ticket};
use lexer_core::Code;
use system_core::Reply;

const UNREAD: &[u8] = b"refused: no memory\n";

pub(crate) const CUT: &[u8] = b"export cut: no memory\n";

/// Writes the records of an export, as far as there is memory.
// By itself, so that no other reply takes the room for it.
#[inline(never)]
pub(crate) fn write_ticket<W: Sink, G: Gate>(
    mut ticket: Ticket,
    writer: &mut W,
    gate: &G,
) -> Result<(), Broken>
    requires { W.failed writer.old ≡ false }
    ensures { MayWrite W.failed W.taken (TellsRecords (Reply.Export ticket))
        result writer.old writer.new }
{
    match ticket.write_to(writer, gate) {
        Ok(()) => Ok(()),
        Err(ExportFault::NoMemory) => write_all(writer, CUT),
        Err(ExportFault::Write) => Err(Broken),
    }
}

/// Writes the records of an export, and of any other reply nothing.
fn write_records<W: Sink, G: Gate>(reply: Reply, writer: &mut W, gate: &G) -> Result<(), Broken>
    requires { W.failed writer.old ≡ false }
    ensures { MayWrite W.failed W.taken (TellsRecords reply) result writer.old writer.new }
{
    let Reply::Export(ticket) = reply else {
        return Ok(());
    };
    write_ticket(ticket, writer, gate)
}

/// Writes the records of a list, and of any other reply nothing.
fn write_list<W: Sink>(
    buffer: &mut ReplyBuffer,
    reply: &Reply,
    writer: &mut W,
) -> Result<(), Broken>
    requires { W.failed writer.old ≡ false }
    ensures { MayWriteText W.failed W.taken (list_text reply.now) result writer.old writer.new }
{
    match reply {
        Reply::Rows { rows, .. } => write_rows(writer, rows.as_slice()),
        Reply::Listed { entries, .. } => write_checkpoints(buffer, writer, entries.as_slice()),
        _ => Ok(()),
    }
}

/// Writes the text of a reply. It takes no memory.
pub fn write_text<W: Sink>(
    buffer: &mut ReplyBuffer,
    reply: &Reply,
    writer: &mut W,
) -> Result<(), Broken>
    requires { W.failed writer.old ≡ false }
    ensures { MayWriteText W.failed W.taken (reply_text reply.now) result writer.old writer.new }
{
    buffer.clear();
    push_head(buffer, reply);
    write_all(writer, buffer.as_slice())?;
    write_list(buffer, reply, writer)
}

/// Writes the text of a reply, and behind that of an export its records, before each of which the
/// gate is called. The buffer may have any text; what it has then means nothing.
///
/// Only an export's records take memory: where there is none for the next, `export cut: no memory`
/// is written in its place. `Broken` exactly where the writer has failed, and then a front was
/// written.
pub fn write_reply<W: Sink, G: Gate>(
    buffer: &mut ReplyBuffer,
    reply: Reply,
    writer: &mut W,
    gate: &G,
) -> Result<(), Broken>
    requires { W.failed writer.old ≡ false }
    ensures { MayWrite W.failed W.taken (TellsReply reply) result writer.old writer.new }
{
    write_text(buffer, &reply, writer)?;
    write_records(reply, writer, gate)
}

/// Writes the text of a change that made this moment, as [`write_reply`] does of [`Reply::Done`],
/// which is large to hand on. It takes no memory. `Broken` exactly where the writer has failed, and
/// then a front was written.
// Inlined, as each INSERT is answered by it.
#[inline(always)]
pub fn write_done<W: Sink>(
    buffer: &mut ReplyBuffer,
    at: Moment,
    writer: &mut W,
) -> Result<(), Broken>
    requires { W.failed writer.old ≡ false }
    ensures { MayWrite W.failed W.taken (TellsReply (Reply.Done at)) result writer.old writer.new }
{
    buffer.clear();
    push_done(buffer, at);
    write_all(writer, buffer.as_slice())
}

/// Writes the text of a fault at this byte of its line. The buffer may have any text; what it has
/// then means nothing. It takes no memory. `Broken` exactly where the writer has failed, and then a
/// front was written.
pub fn write_fault<W: Sink>(
    buffer: &mut ReplyBuffer,
    code: Code,
    offset: usize,
    writer: &mut W,
) -> Result<(), Broken>
    requires { W.failed writer.old ≡ false }
    ensures { MayWriteText W.failed W.taken (fault_text code offset) result writer.old writer.new }
{
    buffer.clear();
    push_fault(buffer, code, offset);
    write_all(writer, buffer.as_slice())
}

/// Writes `refused: no memory`, for a line that could not be read: out of memory. It takes no
/// memory itself. `Broken` exactly where the writer has failed, and then a front was written.
pub fn write_unread<W: Sink>(writer: &mut W) -> Result<(), Broken>
    requires { W.failed writer.old ≡ false }
    ensures { MayWriteText W.failed W.taken unread_text result writer.old writer.new }
{
    write_all(writer, UNREAD)
}
