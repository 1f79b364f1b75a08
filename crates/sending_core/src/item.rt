//! What is sent one after another.
ghost use Rattle.std.specs.Prelude.{◌≡◌, false, true, IfOk, MatchResult, OnErr};
ghost use Rattle.base_core.specs.Streams.{Writes, WritesFrontOf};
ghost use Rattle.answer_core.specs.Answers.{Continues};
ghost use Rattle.sending_core.specs.Owing.{calls_of, IsTold, place_of, TakesFewer, Tells};

use crate::plain::{Plain, write_plain};
use answer_core::{Progress, Request, Unsent, begin_answer};
use base_core::{Broken, Gate, Sink};
use reply_core::ReplyBuffer;
use system_core::Reply;

/// Something that a session has to send. An answer may be of a portal, which has a place among those of the
/// session.
#[derive(Drop)]
pub enum Item {
    Plain(Plain),
    /// The answer to a reply of the core, of which nothing was sent yet.
    Answer {
        request: Request,
        reply: Reply,
        portal: Option<usize>,
    },
    /// The rest of an answer.
    Rest {
        unsent: Unsent,
        portal: Option<usize>,
    },
}

impl Item {
    /// The place of the portal whose rows it answers.
    pub(crate) fn place(&self) -> Option<usize>
        ensures { result ≡ place_of self.now }
    {
        match self {
            Item::Plain(_) => None,
            Item::Answer { portal, .. } => *portal,
            Item::Rest { portal, .. } => *portal,
        }
    }
}

/// Writes an item, or some of it: all of a plain one, and of an answer what [`begin_answer`] or
/// [`Unsent::go_on`] writes. Gives how far it has come.
pub(crate) fn write_item<W: Sink, G: Gate>(
    item: Item,
    buffer: &mut ReplyBuffer,
    writer: &mut W,
    gate: &G,
) -> Result<Progress, Broken>
    requires { W.failed writer.old ≡ false }
    ensures failed { MatchResult result (λ _. W.failed writer.new ≡ false)
        (λ _. W.failed writer.new ≡ true) }
    ensures ok { IfOk result (λ progress. Writes (Continues (Tells item) progress)
        (W.taken writer.old) (W.taken writer.new)) }
    ensures progress { IfOk result (TakesFewer (calls_of item)) }
    ensures err { OnErr result (WritesFrontOf (IsTold item)
        (W.taken writer.old) (W.taken writer.new)) }
{
    match item {
        Item::Plain(plain) => {
            write_plain(buffer, &plain, writer)?;
            Ok(Progress::Whole)
        }
        Item::Answer { request, reply, .. } => begin_answer(buffer, reply, request, writer),
        Item::Rest { unsent, .. } => unsent.go_on(buffer, writer, gate),
    }
}
