//! Replies that are answered in messages.
ghost use Rattle.std.specs.Prelude.{◌≡◌, ◌+◌, false, true, IfOk, MatchResult, OnErr};
ghost use Rattle.base_core.specs.Streams.{Writes, WritesFrontOf};
ghost use Rattle.answer_core.specs.Answers.{IsBelow};
ghost use Rattle.answer_core.specs.Replies.{BeginsAnswer, IsReplyAnswer, reply_rows, row_count};

use crate::formats::Formats;
use crate::items::Items;
use crate::messages::write_single;
use crate::records::Records;
use crate::tag::Tag;
use crate::unsent::{Frame, Portal, Progress, Remainder, Unsent, go_on_listed};
use base_core::{Broken, Sink};
use reply_core::ReplyBuffer;
use system_core::Reply;

/// What a client asks for: a statement of this kind, its rows in these formats, and at most so many of
/// them, or all.
#[derive(Drop)]
pub struct Request {
    pub tag: Tag,
    pub formats: Formats,
    pub most: Option<usize>,
}

/// Writes the first of the answer to a reply: all of it, or the first 64 rows of a longer list; of an
/// export nothing yet. Gives how far the answer has come: no more rows are then to come than the reply has.
/// The buffer may have any text; what it has then means nothing.
///
/// It takes no memory. `Broken` exactly where the writer has failed, and then a front was written.
pub fn begin_answer<W: Sink>(
    buffer: &mut ReplyBuffer,
    reply: Reply,
    request: Request,
    writer: &mut W,
) -> Result<Progress, Broken>
    requires { W.failed writer.old ≡ false }
    ensures failed { MatchResult result (λ _. W.failed writer.new ≡ false)
        (λ _. W.failed writer.new ≡ true) }
    ensures ok { IfOk result (λ progress. Writes (BeginsAnswer request reply progress)
        (W.taken writer.old) (W.taken writer.new)) }
    ensures progress { IfOk result (IsBelow (1 + row_count (reply_rows request reply))) }
    ensures err { OnErr result (WritesFrontOf (IsReplyAnswer request reply)
        (W.taken writer.old) (W.taken writer.new)) }
{
    let Request { tag, formats, most } = request;
    write_single(buffer, tag, &reply, writer)?;
    match reply {
        Reply::Rows { at, rows } => {
            let frame = Frame { tag, at, formats };
            go_on_listed(buffer, Items::Rows(rows), 0, frame, most, writer)
        }
        Reply::Listed { at, entries } => {
            let frame = Frame { tag, at, formats };
            go_on_listed(buffer, Items::Checkpoints(entries), 0, frame, most, writer)
        }
        Reply::Export(ticket) => {
            let at = ticket.at();
            let records = Records {
                ticket,
                ahead: None,
            };
            let remainder = Remainder::Export { records, sent: 0 };
            let frame = Frame { tag, at, formats };
            let portal = Portal { remainder, frame };
            Ok(Progress::Part(Unsent { portal, most }))
        }
        // An arm of its own, since the last one may have nothing to drop.
        Reply::Described { columns, .. } => {
            drop(columns);
            Ok(Progress::Whole)
        }
        _ => Ok(Progress::Whole),
    }
}
