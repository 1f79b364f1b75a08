//! What a client says first in a login by SASL.
ghost use Rattle.std.specs.Prelude.{◌≡◌, IfSome, IfNone};
ghost use Rattle.messages_core.specs.Sasl.{SaysInitialResponse, IsNoInitialResponse};
ghost use Rattle.messages_core.specs.Bodies.{initial_response_in};

use crate::bytes::Bytes;
use crate::fields::{text_at, value_or_null_at};

/// The body of a message by which a client begins a login by SASL.
#[derive(Drop)]
pub struct InitialResponse<'a> {
    /// The name of the mechanism that the client has chosen.
    pub mechanism: Bytes<'a>,
    /// Its first message, where it sends one.
    pub response: Option<Bytes<'a>>,
}

#[tactic(auto, unfolding(crate::specs::Bodies::initial_response_in))]
fn initial_response_in(body: &[u8]) -> Option<InitialResponse<'_>>
    ensures { result ≡ initial_response_in body.now }
{
    let (mechanism, behind) = text_at(body)?;
    let (response, rest) = value_or_null_at(behind)?;
    if !rest.is_empty() {
        return None;
    }
    let mechanism = Bytes::new(mechanism);
    let response = match response {
        Some(response) => Some(Bytes::new(response)),
        None => None,
    };
    Some(InitialResponse {
        mechanism,
        response,
    })
}

impl<'a> InitialResponse<'a> {
    /// Reads the body of a `p`. None comes exactly where it is of no such message.
    pub fn read(body: &'a [u8]) -> Option<InitialResponse<'a>>
        ensures some { IfSome result (SaysInitialResponse body.now) }
        ensures none { IfNone result (IsNoInitialResponse body.now) }
    {
        initial_response_in(body)
    }
}
