//! The messages of an answer, but for its rows: none takes memory.
ghost use Rattle.std.specs.Prelude.{◌≡◌, ◌<◌, ◌^◌, ◌++◌, None, Some, false, length};
ghost use Rattle.base_core.specs.Streams.{MayWriteText};
ghost use Rattle.reply_core.specs.Texts.{head_text};
ghost use Rattle.answer_core.specs.Codes.{lack_state};
ghost use Rattle.answer_core.specs.Messages.{closing, command_complete, cut_error, error_message, lack_message, line_notice, moment_status, notice, portal_suspended, reply_messages};

use crate::sql_state::SqlState;
use crate::tag::Tag;
use crate::told::unended;
use base_core::{Broken, Lack, Moment, Sink};
use itoa::Buffer;
use messages_core::{Bytes, Notice, ServerMessage, Severity, write_message};
use reply_core::{ReplyBuffer, push_head};
use system_core::Reply;

/// What an error or a notice tells that is about no place.
fn notice<'a>(severity: Severity, state: SqlState, message: &'a [u8]) -> Notice<'a>
    ensures { result ≡ notice severity state message.now None }
{
    Notice {
        severity,
        code: Bytes::new(state.text()),
        message: Bytes::new(message),
        position: None,
    }
}

/// Writes an error that is about no place.
pub(crate) fn write_problem<W: Sink>(
    severity: Severity,
    state: SqlState,
    message: &[u8],
    writer: &mut W,
) -> Result<(), Broken>
    requires works { W.failed writer.old ≡ false }
    requires short { length message.now < 2 ^ 30 }
    ensures { MayWriteText W.failed W.taken (error_message severity state message.now None)
        result writer.old writer.new }
{
    write_message(
        &ServerMessage::ErrorResponse(notice(severity, state, message)),
        writer,
    )
}

/// Writes an error that is about this character of the statement.
pub(crate) fn write_problem_at<W: Sink>(
    severity: Severity,
    state: SqlState,
    message: &[u8],
    place: u32,
    writer: &mut W,
) -> Result<(), Broken>
    requires works { W.failed writer.old ≡ false }
    requires short { length message.now < 2 ^ 30 }
    ensures { MayWriteText W.failed W.taken (error_message severity state message.now (Some place))
        result writer.old writer.new }
{
    let error = Notice {
        severity,
        code: Bytes::new(state.text()),
        message: Bytes::new(message),
        position: Some(place),
    };
    write_message(&ServerMessage::ErrorResponse(error), writer)
}

/// Writes the moment.
fn write_moment<W: Sink>(at: Moment, writer: &mut W) -> Result<(), Broken>
    requires { W.failed writer.old ≡ false }
    ensures { MayWriteText W.failed W.taken (moment_status at.0) result writer.old writer.new }
{
    let mut digits = Buffer::new();
    let name = Bytes::new(b"sysr.moment");
    let value = Bytes::new(digits.format(at.0).as_bytes());
    write_message(&ServerMessage::ParameterStatus { name, value }, writer)
}

/// Writes the tag of a statement, behind so many rows.
fn write_complete<W: Sink>(
    buffer: &mut ReplyBuffer,
    tag: Tag,
    count: u64,
    writer: &mut W,
) -> Result<(), Broken>
    requires { W.failed writer.old ≡ false }
    ensures { MayWriteText W.failed W.taken (command_complete tag count)
        result writer.old writer.new }
{
    buffer.clear();
    tag.push(buffer, count);
    write_message(
        &ServerMessage::CommandComplete(Bytes::new(buffer.as_slice())),
        writer,
    )
}

/// Writes what ends the answer to a statement that was carried out.
pub(crate) fn write_closing<W: Sink>(
    buffer: &mut ReplyBuffer,
    tag: Tag,
    count: u64,
    at: Moment,
    writer: &mut W,
) -> Result<(), Broken>
    requires { W.failed writer.old ≡ false }
    ensures { MayWriteText W.failed W.taken (closing tag count at.0) result writer.old writer.new }
{
    write_moment(at, writer)?;
    write_complete(buffer, tag, count, writer)
}

/// Writes that more rows are left than were asked for.
pub(crate) fn write_suspended<W: Sink>(writer: &mut W) -> Result<(), Broken>
    requires { W.failed writer.old ≡ false }
    ensures { MayWriteText W.failed W.taken portal_suspended result writer.old writer.new }
{
    write_message(&ServerMessage::PortalSuspended, writer)
}

/// Writes that the rest of an export is cut.
pub(crate) fn write_cut<W: Sink>(writer: &mut W) -> Result<(), Broken>
    requires { W.failed writer.old ≡ false }
    ensures { MayWriteText W.failed W.taken cut_error result writer.old writer.new }
{
    write_problem(
        Severity::Error,
        SqlState::OutOfMemory,
        b"export cut: no memory",
        writer,
    )
}

/// Writes the line of a reply as a notice.
fn write_line_notice<W: Sink>(
    buffer: &mut ReplyBuffer,
    reply: &Reply,
    writer: &mut W,
) -> Result<(), Broken>
    requires { W.failed writer.old ≡ false }
    ensures { MayWriteText W.failed W.taken (line_notice (head_text reply.now))
        result writer.old writer.new }
{
    buffer.clear();
    push_head(buffer, reply);
    let line = unended(buffer.as_slice());
    let told = notice(Severity::Notice, SqlState::SuccessfulCompletion, line);
    write_message(&ServerMessage::NoticeResponse(told), writer)
}

/// Writes the line of a reply as a notice, and what ends the answer.
fn write_begun<W: Sink>(
    buffer: &mut ReplyBuffer,
    tag: Tag,
    reply: &Reply,
    at: Moment,
    writer: &mut W,
) -> Result<(), Broken>
    requires { W.failed writer.old ≡ false }
    ensures { MayWriteText W.failed W.taken
        (line_notice (head_text reply.now) ++ closing tag 0 at.0) result writer.old writer.new }
{
    write_line_notice(buffer, reply, writer)?;
    write_closing(buffer, tag, 0, at, writer)
}

/// Writes the line of a reply as an error, by what it lacks.
fn write_lack<W: Sink>(
    buffer: &mut ReplyBuffer,
    reply: &Reply,
    lack: &Lack,
    writer: &mut W,
) -> Result<(), Broken>
    requires { W.failed writer.old ≡ false }
    ensures { MayWriteText W.failed W.taken
        (lack_message (lack_state lack.now) (head_text reply.now)) result writer.old writer.new }
{
    buffer.clear();
    push_head(buffer, reply);
    let line = unended(buffer.as_slice());
    write_problem(Severity::Error, SqlState::of_lack(lack), line, writer)
}

/// Writes the messages of a reply without rows, and of one with rows nothing.
pub(crate) fn write_single<W: Sink>(
    buffer: &mut ReplyBuffer,
    tag: Tag,
    reply: &Reply,
    writer: &mut W,
) -> Result<(), Broken>
    requires { W.failed writer.old ≡ false }
    ensures { MayWriteText W.failed W.taken (reply_messages tag reply.now)
        result writer.old writer.new }
{
    match reply {
        Reply::Done { at } => write_closing(buffer, tag, 0, *at, writer),
        Reply::Begun { at, .. } => write_begun(buffer, tag, reply, *at, writer),
        Reply::Denied { lack, .. } => write_lack(buffer, reply, lack, writer),
        Reply::Refused { lack, .. } => write_lack(buffer, reply, lack, writer),
        _ => Ok(()),
    }
}
