//! The records of an export, of which it can be asked whether any is to come.
ghost use Rattle.std.specs.Prelude.{◌≡◌, ◌↔◌, [], true, drop, slice_get, IfOk, IsOk, None, OnOk, OnErr};
ghost use Rattle.answer_core.specs.Remaining.{records_left};

use base_core::{NoMemory, Sequence};
use export_core::Ticket;

/// The records of an export that are to come.
#[derive(Drop)]
pub struct Records {
    pub ticket: Ticket,
    /// One that was taken from the ticket and not yet given.
    pub ahead: Option<Sequence<u8>>,
}

/// The next record of a ticket.
fn next_of(ticket: &mut Ticket) -> Result<Option<Sequence<u8>>, NoMemory>
    ensures line { IfOk result (λ line. line ≡ slice_get ticket.old.to_come 0) }
    ensures ok { OnOk result (ticket.new.to_come ≡ drop 1 ticket.old.to_come) }
    ensures err { OnErr result (ticket.new.to_come ≡ ticket.old.to_come) }
    ensures end { ticket.old.to_come ≡ [] → IsOk result }
{
    match ticket.next_record()? {
        Some(line) => Ok(Some(Sequence::from_vec(line))),
        None => Ok(None),
    }
}

impl Records {
    /// The next record, with its line feed, which then counts as given. None exactly at the end. On
    /// `NoMemory` the same record comes next.
    pub(crate) fn next(&mut self) -> Result<Option<Sequence<u8>>, NoMemory>
        ensures line { IfOk result (λ line. line ≡ slice_get (records_left self.old) 0) }
        ensures ok { OnOk result (records_left self.new ≡ drop 1 (records_left self.old)) }
        ensures taken { OnOk result (self.new.ahead ≡ None) }
        ensures err { OnErr result (records_left self.new ≡ records_left self.old) }
        ensures end { records_left self.old ≡ [] → IsOk result }
    {
        match self.ahead.take() {
            Some(line) => Ok(Some(line)),
            None => next_of(&mut self.ticket),
        }
    }

    /// Whether no record is to come. All that were to come still are.
    pub(crate) fn is_over(&mut self) -> Result<bool, NoMemory>
        ensures over { IfOk result (λ over. (over ≡ true) ↔ (records_left self.old ≡ [])) }
        ensures same { records_left self.new ≡ records_left self.old }
        ensures end { records_left self.old ≡ [] → IsOk result }
    {
        let next = self.next()?;
        let over = next.is_none();
        self.ahead = next;
        Ok(over)
    }
}
