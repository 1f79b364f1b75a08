//! What is told of a statement that is not prepared, or not described.
ghost use Rattle.std.specs.Prelude.{◌≡◌, ◌<◌, ◌++◌, [], ◌∷◌, length};
ghost use Rattle.sending_core.specs.Queue.{capacity};
ghost use Rattle.conversation_core.specs.Extending.{fault_item, fault_items};
ghost use Rattle.conversation_core.specs.State.{behind_problem};

use crate::conversation::Conversation;
use answer_core::{Formats, Request, Tag};
use messages_core::{Format, Severity};
use preparing_core::PrepareFault;
use sending_core::{Item, Plain};

/// What is told of such a fault. The place is that of a fault of the line.
fn fault_item(fault: PrepareFault, place: Option<u32>) -> Item
    ensures { result ≡ fault_item fault place }
{
    match fault {
        PrepareFault::Problem(problem) => Item::Plain(Plain::Error {
            severity: Severity::Error,
            problem,
        }),
        PrepareFault::Faulty { code, offset } => Item::Plain(Plain::Fault {
            code,
            offset,
            position: place,
        }),
        PrepareFault::Unread => Item::Plain(Plain::Unread),
        PrepareFault::Denied(reply) => Item::Answer {
            request: Request {
                tag: Tag::Select,
                formats: Formats::all(Format::Text, 0),
                most: None,
            },
            reply,
            portal: None,
        },
    }
}

impl Conversation {
    /// Has this sent behind all else. At most one item may wait before it.
    pub(crate) fn respond(&mut self, item: Item)
        requires { length self.old.sending.items < 2 }
        ensures items { self.new.sending.items ≡ self.old.sending.items ++ item ∷ [] }
        ensures capacity { capacity self.new.sending ≡ capacity self.old.sending }
        ensures state { self.new.state ≡ self.old.state }
    {
        let _ = self.sending.push(item);
    }

    /// Tells such a fault, behind which what follows is passed over up to the next Sync. At most one item may
    /// wait before it.
    pub(crate) fn refuse_by(&mut self, fault: PrepareFault, place: Option<u32>)
        requires { length self.old.sending.items < 2 }
        ensures items { self.new.sending.items ≡ self.old.sending.items ++ fault_items fault place }
        ensures capacity { capacity self.new.sending ≡ capacity self.old.sending }
        ensures state { self.new.state ≡ behind_problem self.old.state }
    {
        self.respond(fault_item(fault, place));
        self.skip();
    }
}
