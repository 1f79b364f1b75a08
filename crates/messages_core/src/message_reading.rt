//! What clients send once they have begun.
ghost use Rattle.std.specs.Prelude.{◌+◌, ◌<◌, ◌^◌};
ghost use Rattle.messages_core.specs.MessageReading.{IsMessageReading};

use crate::bodies::message_in;
use crate::client::{ClientMessage, MessageFault};
use crate::frames::{Cut, body_at};
use crate::kinds::Kind;
use crate::reading::Reading;

/// Reads what a client sends once it has begun, of a body of at most so many bytes. It waits for
/// nothing and takes no memory: the message lies where the bytes do.
pub fn read_message(bytes: &[u8], most: usize) -> Reading<'_, ClientMessage<'_>, MessageFault>
    requires { most + 4 < 2 ^ 31 }
    ensures { IsMessageReading most bytes.now result }
{
    let [byte, behind @ ..] = bytes else {
        return Reading::Part;
    };
    let Some(kind) = Kind::of(*byte) else {
        return Reading::Faulty(MessageFault::Type(*byte));
    };
    match body_at(behind, 0, most) {
        Cut::Part => Reading::Part,
        Cut::Faulty => Reading::Faulty(MessageFault::Length),
        Cut::Whole { body, rest } => match message_in(kind, body.as_slice()) {
            Some(message) => Reading::Whole { message, rest },
            None => Reading::Faulty(MessageFault::Body),
        },
    }
}
