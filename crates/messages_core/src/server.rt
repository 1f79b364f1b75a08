//! Messages that servers send.
ghost use Rattle.std.specs.Prelude.{◌≡◌, ◌+◌, ◌<◌, ◌^◌, ◌∷◌, ◌++◌, false, length, Some, None};
ghost use Rattle.base_core.specs.Streams.{MayWriteText};
ghost use Rattle.messages_core.specs.Fields.{int32, sized, string};
ghost use Rattle.messages_core.specs.Server.{no_encryption, notice_body, texts_body, server_body, server_spelling, severity_text, status_byte};

use crate::bytes::Bytes;
use crate::writing::write_plain;
use base_core::{Broken, Sink, write_all};
use itoa::Buffer;

/// Whether a transaction is open.
#[derive(Clone, Copy, Debug, PartialEq, Eq)]
pub enum Status {
    /// None is.
    Idle,
    /// One is.
    InTransaction,
    /// One is, in which a statement has failed.
    InFailedTransaction,
}

/// How grave a notice is.
#[derive(Clone, Copy, Debug, PartialEq, Eq)]
pub enum Severity {
    /// The statement was not carried out.
    Error,
    /// And the session ends.
    Fatal,
    /// Nothing failed.
    Notice,
}

/// What an error or a notice tells.
#[derive(Drop)]
pub struct Notice<'a> {
    pub severity: Severity,
    /// The code of SQLSTATE.
    pub code: Bytes<'a>,
    pub message: Bytes<'a>,
    /// The character of the statement that it is about, counted from 1.
    pub position: Option<u32>,
}

/// A message of a server, but for rows and their descriptions.
#[derive(Drop)]
pub enum ServerMessage<'a> {
    AuthenticationOk,
    /// That the client is to log in by SCRAM-SHA-256.
    AuthenticationSasl,
    AuthenticationSaslContinue(Bytes<'a>),
    AuthenticationSaslFinal(Bytes<'a>),
    BackendKeyData { process: u32, secret: u32 },
    BindComplete,
    CloseComplete,
    CommandComplete(Bytes<'a>),
    EmptyQueryResponse,
    ErrorResponse(Notice<'a>),
    NoData,
    NoticeResponse(Notice<'a>),
    ParameterStatus { name: Bytes<'a>, value: Bytes<'a> },
    ParseComplete,
    PortalSuspended,
    ReadyForQuery(Status),
}

/// What ends a text.
const ZERO: &[u8] = b"\0";

/// The mechanisms of SASL that a client may choose from, and the empty text that ends them.
const MECHANISMS: &[u8] = b"SCRAM-SHA-256\0\0";

impl Status {
    fn byte(self) -> u8
        ensures { result ≡ status_byte self }
    {
        match self {
            Status::Idle => b'I',
            Status::InTransaction => b'T',
            Status::InFailedTransaction => b'E',
        }
    }
}

impl Severity {
    fn text(self) -> &'static [u8]
        ensures { result.now ≡ severity_text self }
    {
        match self {
            Severity::Error => b"ERROR",
            Severity::Fatal => b"FATAL",
            Severity::Notice => b"NOTICE",
        }
    }
}

/// Writes an error or a notice that is about no place.
fn write_texts<'a, W: Sink>(
    byte: u8,
    severity: &'a [u8],
    code: &'a [u8],
    message: &'a [u8],
    writer: &mut W,
) -> Result<(), Broken>
    requires works { W.failed writer.old ≡ false }
    requires short { length (texts_body severity.now code.now message.now None) + 6 < 2 ^ 31 }
    ensures { MayWriteText W.failed W.taken (byte ∷ sized (texts_body severity.now code.now
        message.now None)) result writer.old writer.new }
{
    let fields = [
        b"S".as_slice(),
        severity,
        b"\0V",
        severity,
        b"\0C",
        code,
        b"\0M",
        message,
        b"\0\0",
    ];
    write_plain(byte, &fields, writer)
}

/// Writes an error or a notice that is about a place.
fn write_texts_at<'a, W: Sink>(
    byte: u8,
    severity: &'a [u8],
    code: &'a [u8],
    message: &'a [u8],
    position: &'a [u8],
    writer: &mut W,
) -> Result<(), Broken>
    requires works { W.failed writer.old ≡ false }
    requires short { length (texts_body severity.now code.now message.now
        (Some position.now)) + 6 < 2 ^ 31 }
    ensures { MayWriteText W.failed W.taken (byte ∷ sized (texts_body severity.now code.now
        message.now (Some position.now))) result writer.old writer.new }
{
    let fields = [
        b"S".as_slice(),
        severity,
        b"\0V",
        severity,
        b"\0C",
        code,
        b"\0M",
        message,
        b"\0P",
        position,
        b"\0\0",
    ];
    write_plain(byte, &fields, writer)
}

/// Writes an error or a notice.
fn write_notice<W: Sink>(byte: u8, notice: &Notice<'_>, writer: &mut W) -> Result<(), Broken>
    requires works { W.failed writer.old ≡ false }
    requires short { length (notice_body notice.now) + 6 < 2 ^ 31 }
    ensures { MayWriteText W.failed W.taken (byte ∷ sized (notice_body notice.now))
        result writer.old writer.new }
{
    let severity = notice.severity.text();
    let (code, message) = (notice.code.as_slice(), notice.message.as_slice());
    let Some(position) = notice.position else {
        return write_texts(byte, severity, code, message, writer);
    };
    let mut digits = Buffer::new();
    let position = digits.format(position).as_bytes();
    write_texts_at(byte, severity, code, message, position, writer)
}

/// Writes a message of a login: the number that says which, and its text.
fn write_login<W: Sink>(number: u32, text: &[u8], writer: &mut W) -> Result<(), Broken>
    requires works { W.failed writer.old ≡ false }
    requires short { length (int32 number ++ text.now) + 6 < 2 ^ 31 }
    ensures { MayWriteText W.failed W.taken (82 ∷ sized (int32 number ++ text.now))
        result writer.old writer.new }
{
    let number = number.to_be_bytes();
    write_plain(b'R', &[number.as_slice(), text], writer)
}

/// Writes ParameterStatus.
fn write_parameter<'a, W: Sink>(
    name: &'a [u8],
    value: &'a [u8],
    writer: &mut W,
) -> Result<(), Broken>
    requires works { W.failed writer.old ≡ false }
    requires short { length (string name.now ++ string value.now) + 6 < 2 ^ 31 }
    ensures { MayWriteText W.failed W.taken (83 ∷ sized (string name.now ++ string value.now))
        result writer.old writer.new }
{
    write_plain(b'S', &[name, ZERO, value, ZERO], writer)
}

/// Writes a message. It takes no memory. `Broken` exactly where the writer has failed, and then a front
/// was written.
pub fn write_message<W: Sink>(message: &ServerMessage<'_>, writer: &mut W) -> Result<(), Broken>
    requires works { W.failed writer.old ≡ false }
    requires short { length (server_body message.now) + 6 < 2 ^ 31 }
    ensures { MayWriteText W.failed W.taken (server_spelling message.now)
        result writer.old writer.new }
{
    match message {
        ServerMessage::AuthenticationOk => write_all(writer, b"R\0\0\0\x08\0\0\0\0"),
        ServerMessage::AuthenticationSasl => write_login(10, MECHANISMS, writer),
        ServerMessage::AuthenticationSaslContinue(text) => {
            write_login(11, text.as_slice(), writer)
        }
        ServerMessage::AuthenticationSaslFinal(text) => write_login(12, text.as_slice(), writer),
        ServerMessage::BackendKeyData { process, secret } => {
            let (process, secret) = (process.to_be_bytes(), secret.to_be_bytes());
            write_plain(b'K', &[process.as_slice(), secret.as_slice()], writer)
        }
        ServerMessage::BindComplete => write_all(writer, b"2\0\0\0\x04"),
        ServerMessage::CloseComplete => write_all(writer, b"3\0\0\0\x04"),
        ServerMessage::CommandComplete(tag) => {
            write_plain(b'C', &[tag.as_slice(), ZERO], writer)
        }
        ServerMessage::EmptyQueryResponse => write_all(writer, b"I\0\0\0\x04"),
        ServerMessage::ErrorResponse(notice) => write_notice(b'E', notice, writer),
        ServerMessage::NoData => write_all(writer, b"n\0\0\0\x04"),
        ServerMessage::NoticeResponse(notice) => write_notice(b'N', notice, writer),
        ServerMessage::ParameterStatus { name, value } => {
            write_parameter(name.as_slice(), value.as_slice(), writer)
        }
        ServerMessage::ParseComplete => write_all(writer, b"1\0\0\0\x04"),
        ServerMessage::PortalSuspended => write_all(writer, b"s\0\0\0\x04"),
        ServerMessage::ReadyForQuery(status) => {
            write_all(writer, &[b'Z', 0, 0, 0, 5, status.byte()])
        }
    }
}

/// Answers a request for encryption: there is none. It takes no memory.
pub fn refuse_encryption<W: Sink>(writer: &mut W) -> Result<(), Broken>
    requires { W.failed writer.old ≡ false }
    ensures { MayWriteText W.failed W.taken no_encryption result writer.old writer.new }
{
    write_all(writer, b"N")
}
