//! What clients send first.
ghost use Rattle.std.specs.Prelude.{◌≡◌, ◌+◌, ◌<◌, ◌≤◌, ◌^◌, length, option_map, IfOk, IfErr};
ghost use Rattle.std.specs.Int.{w32};
ghost use Rattle.messages_core.specs.Bodies.{cancel_in};
ghost use Rattle.messages_core.specs.Start.{start_code, fields_of, start_body, IsStart};
ghost use Rattle.messages_core.specs.StartReading.{AreWrong, IsWrongStart, IsStartReading};

use crate::bytes::Bytes;
use crate::fields::int32_at;
use crate::frames::{Cut, body_at};
use crate::parameters::{Parameters, parameters_in};
use crate::reading::Reading;

/// What a client sends first, without a type.
#[derive(Drop)]
pub enum StartMessage<'a> {
    /// Whether the connection may be encrypted by TLS.
    SslRequest,
    /// Whether it may be encrypted by GSSAPI.
    GssEncRequest,
    /// What another session is doing is to be given up. It is named as the server has told it.
    CancelRequest { process: u32, secret: u32 },
    /// A session in protocol 3.0 begins.
    Startup(Parameters<'a>),
}

/// Why bytes begin no session.
#[derive(Clone, Copy, Debug, PartialEq, Eq)]
pub enum StartFault {
    /// The length is less than that of itself and a number, or greater than it may be.
    Length,
    /// The number is that of no message, and no version of the protocol that is spoken here.
    Code(u32),
    /// The body is not what the fields of its message say.
    Body,
}

/// The least bytes of a body: its number.
const CODE_BYTES: usize = 4;

const SSL_REQUEST: u32 = 80_877_103;

const GSS_ENC_REQUEST: u32 = 80_877_104;

const CANCEL_REQUEST: u32 = 80_877_102;

const PROTOCOL_3_0: u32 = 196_608;

#[tactic(auto, unfolding(crate::specs::Bodies::cancel_in))]
fn cancel_in(fields: &[u8]) -> Option<(u32, u32)>
    ensures { result ≡ cancel_in fields.now }
{
    let (process, behind) = int32_at(fields)?;
    let (secret, rest) = int32_at(behind)?;
    if !rest.is_empty() {
        return None;
    }
    Some((process, secret))
}

/// The message of this number with these fields.
fn message_of(code: u32, fields: &[u8]) -> Result<StartMessage<'_>, StartFault>
    ensures ok { IfOk result (λ start. IsStart start × (code ≡ start_code start)
        × (fields.now ≡ fields_of start)) }
    ensures err { IfErr result (AreWrong code fields.now) }
{
    match code {
        SSL_REQUEST if fields.is_empty() => Ok(StartMessage::SslRequest),
        GSS_ENC_REQUEST if fields.is_empty() => Ok(StartMessage::GssEncRequest),
        CANCEL_REQUEST => {
            let Some((process, secret)) = cancel_in(fields) else {
                return Err(StartFault::Body);
            };
            Ok(StartMessage::CancelRequest { process, secret })
        }
        PROTOCOL_3_0 => {
            let Some(parameters) = parameters_in(fields) else {
                return Err(StartFault::Body);
            };
            Ok(StartMessage::Startup(parameters))
        }
        SSL_REQUEST | GSS_ENC_REQUEST => Err(StartFault::Body),
        _ => Err(StartFault::Code(code)),
    }
}

/// The message of this body.
fn start_in(body: &[u8]) -> Result<StartMessage<'_>, StartFault>
    requires { 4 ≤ length body.now }
    ensures ok { IfOk result (λ start. IsStart start × (body.now ≡ start_body start)) }
    ensures err { IfErr result (IsWrongStart body.now) }
{
    let Some((code, fields)) = int32_at(body) else {
        unreachable!();
    };
    message_of(code, fields)
}

/// Reads what a client sends first, of a body of at most so many bytes. It waits for nothing and takes
/// no memory: the message lies where the bytes do.
pub fn read_start(bytes: &[u8], most: usize) -> Reading<'_, StartMessage<'_>, StartFault>
    requires least { 4 ≤ most }
    requires most { most + 4 < 2 ^ 31 }
    ensures { IsStartReading most bytes.now result }
{
    match body_at(bytes, CODE_BYTES, most) {
        Cut::Part => Reading::Part,
        Cut::Faulty => Reading::Faulty(StartFault::Length),
        Cut::Whole { body, rest } => match start_in(body.as_slice()) {
            Ok(message) => Reading::Whole { message, rest },
            Err(fault) => Reading::Faulty(fault),
        },
    }
}
