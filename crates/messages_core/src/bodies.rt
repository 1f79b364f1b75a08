//! Messages of clients, read from whole bodies.
ghost use Rattle.std.specs.Prelude.{◌≡◌, option_map};
ghost use Rattle.messages_core.specs.Bodies.{bind_in, execute_in, if_empty, message_in, named_in, parse_in, target_at, query_in};

use crate::bytes::Bytes;
use crate::client::{Bind, ClientMessage, Parse, Target};
use crate::fields::{int32_at, text_at};
use crate::kinds::Kind;
use crate::lists::{int16s_at, int32s_at, values_at};

#[tactic(auto, unfolding(crate::specs::Bodies::query_in))]
fn query_in(body: &[u8]) -> Option<Bytes<'_>>
    ensures { result ≡ query_in body.now }
{
    let (text, rest) = text_at(body)?;
    if !rest.is_empty() {
        return None;
    }
    Some(Bytes::new(text))
}

fn target_at(bytes: &[u8]) -> Option<(Target, &[u8])>
    ensures { option_map (λ x. (x.0, x.1.now)) result ≡ target_at bytes.now }
{
    match bytes {
        [b'S', rest @ ..] => Some((Target::Statement, rest)),
        [b'P', rest @ ..] => Some((Target::Portal, rest)),
        _ => None,
    }
}

#[tactic(auto, unfolding(crate::specs::Bodies::named_in))]
fn named_in(body: &[u8]) -> Option<(Target, Bytes<'_>)>
    ensures { result ≡ named_in body.now }
{
    let (target, behind) = target_at(body)?;
    let (name, rest) = text_at(behind)?;
    if !rest.is_empty() {
        return None;
    }
    Some((target, Bytes::new(name)))
}

#[tactic(auto, unfolding(crate::specs::Bodies::execute_in))]
fn execute_in(body: &[u8]) -> Option<(Bytes<'_>, u32)>
    ensures { result ≡ execute_in body.now }
{
    let (portal, behind) = text_at(body)?;
    let (most, rest) = int32_at(behind)?;
    if !rest.is_empty() {
        return None;
    }
    Some((Bytes::new(portal), most))
}

#[tactic(auto, unfolding(crate::specs::Bodies::parse_in))]
fn parse_in(body: &[u8]) -> Option<Parse<'_>>
    ensures { result ≡ parse_in body.now }
{
    let (name, behind) = text_at(body)?;
    let (text, behind) = text_at(behind)?;
    let (types, rest) = int32s_at(behind)?;
    if !rest.is_empty() {
        return None;
    }
    let (name, text) = (Bytes::new(name), Bytes::new(text));
    Some(Parse { name, text, types })
}

#[tactic(auto, unfolding(crate::specs::Bodies::bind_in))]
fn bind_in(body: &[u8]) -> Option<Bind<'_>>
    ensures { result ≡ bind_in body.now }
{
    let (portal, behind) = text_at(body)?;
    let (statement, behind) = text_at(behind)?;
    let (formats, behind) = int16s_at(behind)?;
    let (values, behind) = values_at(behind)?;
    let (result_formats, rest) = int16s_at(behind)?;
    if !rest.is_empty() {
        return None;
    }
    Some(Bind {
        portal: Bytes::new(portal),
        statement: Bytes::new(statement),
        formats,
        values,
        result_formats,
    })
}

/// This message, where the body is empty.
fn if_empty<'a>(message: ClientMessage<'a>, body: &[u8]) -> Option<ClientMessage<'a>>
    ensures { result ≡ if_empty message.entry body.now }
{
    if !body.is_empty() {
        return None;
    }
    Some(message)
}

/// The message of this type with this body.
pub fn message_in(kind: Kind, body: &[u8]) -> Option<ClientMessage<'_>>
    ensures { result ≡ message_in kind body.now }
{
    match kind {
        Kind::Bind => Some(ClientMessage::Bind(bind_in(body)?)),
        Kind::Close => {
            let (target, name) = named_in(body)?;
            Some(ClientMessage::Close { target, name })
        }
        Kind::Describe => {
            let (target, name) = named_in(body)?;
            Some(ClientMessage::Describe { target, name })
        }
        Kind::Execute => {
            let (portal, most) = execute_in(body)?;
            Some(ClientMessage::Execute { portal, most })
        }
        Kind::Flush => if_empty(ClientMessage::Flush, body),
        Kind::Parse => Some(ClientMessage::Parse(parse_in(body)?)),
        Kind::Password => Some(ClientMessage::Password(Bytes::new(body))),
        Kind::Query => Some(ClientMessage::Query(query_in(body)?)),
        Kind::Sync => if_empty(ClientMessage::Sync, body),
        Kind::Terminate => if_empty(ClientMessage::Terminate, body),
    }
}
