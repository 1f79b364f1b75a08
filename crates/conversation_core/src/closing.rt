//! Close and Sync.
ghost use Rattle.std.specs.Prelude.{◌≡◌, []};
ghost use Rattle.conversation_core.specs.Messages.{behind_sync};
ghost use Rattle.conversation_core.specs.State.{closed_at, portal_place, without_statement};
ghost use Rattle.conversation_core.specs.Telling.{plain};
ghost use Rattle.sending_core.specs.Queue.{capacity};
ghost use Rattle.sending_core.specs.declared.plain.Plain.TheVariants as plains;

use crate::conversation::Conversation;
use crate::statements::remove_statement;
use messages_core::Status;
use sending_core::Plain;

impl Conversation {
    /// Closes the portal of this name, if there is one, and tells so.
    pub(crate) fn close_portal(&mut self, name: &[u8])
        requires { self.old.sending.items ≡ [] }
        ensures items { self.new.sending.items ≡ plain plains.CloseComplete }
        ensures capacity { capacity self.new.sending ≡ capacity self.old.sending }
        ensures state { self.new.state
            ≡ closed_at (portal_place name.now self.old.state.portals) self.old.state }
    {
        if let Some(place) = self.place_of(name) {
            self.put_portal(place, None);
        }
        self.send(Plain::CloseComplete);
    }

    /// Drops the prepared statement of this name, if there is one, and tells so.
    pub(crate) fn close_statement(&mut self, name: &[u8])
        requires { self.old.sending.items ≡ [] }
        ensures items { self.new.sending.items ≡ plain plains.CloseComplete }
        ensures capacity { capacity self.new.sending ≡ capacity self.old.sending }
        ensures state { self.new.state ≡ record (self.old.state) {
          statements = without_statement name.now self.old.state.statements;
        } }
    {
        remove_statement(&mut self.statements, name);
        self.send(Plain::CloseComplete);
    }

    /// Answers a Sync.
    pub(crate) fn sync(&mut self)
        requires { self.old.sending.items ≡ [] }
        ensures items { self.new.sending.items ≡ plain (plains.Ready self.old.state.block) }
        ensures capacity { capacity self.new.sending ≡ capacity self.old.sending }
        ensures state { self.new.state ≡ behind_sync self.old.state.block self.old.state }
    {
        let block = self.block;
        if block == Status::Idle {
            self.close_portals();
        }
        self.is_skipping = false;
        self.send(Plain::Ready(block));
    }
}
