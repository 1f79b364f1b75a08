//! Messages that hang on no reply of the core.
ghost use Rattle.std.specs.Prelude.{◌≡◌, ◌<◌, ◌^◌, None, false, length};
ghost use Rattle.base_core.specs.Streams.{MayWriteText};
ghost use Rattle.messages_core.specs.Columns.{table_columns};
ghost use Rattle.messages_core.specs.Rows.{row_description};
ghost use Rattle.messages_core.specs.Server.{server_spelling};
ghost use Rattle.messages_core.specs.declared.server.ServerMessage.TheVariants as servers;
ghost use Rattle.answer_core.specs.Messages.{error_message};
ghost use Rattle.sending_core.specs.Plain.{plain_text};
ghost use Rattle.sending_core.specs.Problems.{problem_state, problem_text};

use crate::commands::{write_command_column, write_command_row, write_command_tag, write_tag};
use crate::few::Few;
use crate::problem::Problem;
use crate::welcome::write_welcome;
use answer_core::{
    Formats, write_checkpoint_columns, write_error, write_export_columns, write_fault, write_unread,
};
use base_core::{Broken, Column, Sink};
use lexer_core::Code;
use messages_core::{
    Bytes, Format, ServerMessage, Severity, Status, refuse_encryption, write_columns,
    write_message, write_parameter_description,
};
use reply_core::ReplyBuffer;
use utility_core::Command;

/// A message, or a fixed run of messages, that is told by what it has here.
#[derive(Drop)]
pub enum Plain {
    /// The byte that answers a request for encryption: there is none.
    NoEncryption,
    /// That the client is to log in by SCRAM-SHA-256.
    LoginWanted,
    /// The server's first message of a login.
    Challenge(Few<u8>),
    /// The server's last message of a login.
    Signature(Few<u8>),
    /// That the client is logged in, the settings, a key that cancels nothing, and that the session is
    /// idle.
    Welcome,
    ParseComplete,
    BindComplete,
    CloseComplete,
    NoData,
    EmptyQuery,
    /// ReadyForQuery.
    Ready(Status),
    /// The types of a statement's parameters.
    Types(Few<u32>),
    /// The columns of a table, each in the format of its place.
    Columns {
        columns: Few<Column>,
        formats: Formats,
    },
    /// The columns of CHECKPOINTS.
    CheckpointColumns(Formats),
    /// The column of EXPORT.
    ExportColumns(Formats),
    /// The column of the row that a command answers; nothing, where it answers none.
    CommandColumn(Command, Format),
    /// That row; nothing, where there is none.
    CommandRow(Command, Format),
    /// The tag of a command; nothing, where it is not carried out.
    CommandTag(Command),
    /// The tag of a COMMIT that ends a failed block.
    RolledBack,
    /// What is wrong with a statement that is not read, by its byte and the character that clients show.
    Fault {
        code: Code,
        offset: usize,
        position: Option<u32>,
    },
    /// That a statement could not be read: out of memory.
    Unread,
    /// An error of the session's own.
    Error {
        severity: Severity,
        problem: Problem,
    },
}

/// Writes the server's first message of a login.
fn write_challenge<W: Sink>(text: &[u8], writer: &mut W) -> Result<(), Broken>
    requires works { W.failed writer.old ≡ false }
    requires short { length text.now < 2 ^ 16 }
    ensures { MayWriteText W.failed W.taken
        (server_spelling (servers.AuthenticationSaslContinue text.now)) result writer.old writer.new }
{
    write_message(
        &ServerMessage::AuthenticationSaslContinue(Bytes::new(text)),
        writer,
    )
}

/// Writes the server's last message of a login.
fn write_signature<W: Sink>(text: &[u8], writer: &mut W) -> Result<(), Broken>
    requires works { W.failed writer.old ≡ false }
    requires short { length text.now < 2 ^ 16 }
    ensures { MayWriteText W.failed W.taken
        (server_spelling (servers.AuthenticationSaslFinal text.now)) result writer.old writer.new }
{
    write_message(
        &ServerMessage::AuthenticationSaslFinal(Bytes::new(text)),
        writer,
    )
}

/// Writes the columns of a table.
fn write_table<W: Sink>(
    columns: &Few<Column>,
    formats: &Formats,
    writer: &mut W,
) -> Result<(), Broken>
    requires { W.failed writer.old ≡ false }
    ensures { MayWriteText W.failed W.taken
        (row_description (table_columns columns.now formats.now)) result writer.old writer.new }
{
    write_columns(columns.as_slice(), formats.as_slice(), writer)
}

/// Writes an error of the session's own.
fn write_problem<W: Sink>(
    severity: Severity,
    problem: Problem,
    writer: &mut W,
) -> Result<(), Broken>
    requires { W.failed writer.old ≡ false }
    ensures { MayWriteText W.failed W.taken
        (error_message severity (problem_state problem) (problem_text problem) None)
        result writer.old writer.new }
{
    write_error(severity, problem.state(), problem.text().as_bytes(), writer)
}

/// Writes the message. It takes no memory. The buffer may have any text; what it has then means nothing.
/// `Broken` exactly where the writer has failed, and then a front was written.
pub fn write_plain<W: Sink>(
    buffer: &mut ReplyBuffer,
    plain: &Plain,
    writer: &mut W,
) -> Result<(), Broken>
    requires { W.failed writer.old ≡ false }
    ensures { MayWriteText W.failed W.taken (plain_text plain.now) result writer.old writer.new }
{
    match plain {
        Plain::NoEncryption => refuse_encryption(writer),
        Plain::LoginWanted => write_message(&ServerMessage::AuthenticationSasl, writer),
        Plain::Challenge(text) => write_challenge(text.as_slice(), writer),
        Plain::Signature(text) => write_signature(text.as_slice(), writer),
        Plain::Welcome => write_welcome(writer),
        Plain::ParseComplete => write_message(&ServerMessage::ParseComplete, writer),
        Plain::BindComplete => write_message(&ServerMessage::BindComplete, writer),
        Plain::CloseComplete => write_message(&ServerMessage::CloseComplete, writer),
        Plain::NoData => write_message(&ServerMessage::NoData, writer),
        Plain::EmptyQuery => write_message(&ServerMessage::EmptyQueryResponse, writer),
        Plain::Ready(status) => write_message(&ServerMessage::ReadyForQuery(*status), writer),
        Plain::Types(types) => write_parameter_description(types.as_slice(), writer),
        Plain::Columns { columns, formats } => write_table(columns, formats, writer),
        Plain::CheckpointColumns(formats) => write_checkpoint_columns(formats, writer),
        Plain::ExportColumns(formats) => write_export_columns(formats, writer),
        Plain::CommandColumn(command, f) => write_command_column(*command, *f, writer),
        Plain::CommandRow(command, f) => write_command_row(*command, *f, writer),
        Plain::CommandTag(command) => write_command_tag(*command, writer),
        Plain::RolledBack => write_tag(b"ROLLBACK", writer),
        Plain::Fault {
            code,
            offset,
            position,
        } => write_fault(buffer, *code, *offset, *position, writer),
        Plain::Unread => write_unread(writer),
        Plain::Error { severity, problem } => write_problem(*severity, *problem, writer),
    }
}
