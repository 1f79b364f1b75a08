//! What a GRANT would make.
ghost use Rattle.std.specs.Prelude.{◌≡◌, ◌+◌, length, IfOk};
ghost use Rattle.grants_core.specs.History.{grants_of};
ghost use Rattle.system_core.specs.Journal.{change_of, rights_at, tables_at};

use crate::machine::event::Entry;
use crate::machine::system::System;
use base_core::NoMemory;
use grants_core::Grant;

impl System {
    /// The single grants that an entry would make as the next change, in the order of their numbers: none,
    /// but of a GRANT. It goes over what it makes. `NoMemory` where a request for memory was refused.
    pub fn grants_of(&self, entry: &Entry) -> Result<Vec<Grant>, NoMemory>
        ensures { let journal = self.now.journal in
            IfOk result (λ grants. grants.items
            ≡ grants_of (rights_at journal).made (length journal + 1)
            (change_of (tables_at journal) entry.now.user entry.now.statement)) }
    {
        self.ledger.grants_of(entry.user, &entry.statement)
    }
}
