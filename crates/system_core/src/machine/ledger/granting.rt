//! What a GRANT would make.
ghost use Rattle.std.specs.Prelude.{◌≡◌, ◌+◌, length, IfOk};
ghost use Rattle.grants_core.specs.History.{grants_of};
ghost use Rattle.system_core.specs.Journal.{change_of, rights_at, tables_at};

use crate::machine::atoms::atoms_of;
use crate::machine::ledger::Ledger;
use base_core::{Moment, NoMemory, User};
use grants_core::{Authority, Grant, single_grants};
use monitor_core::columns_of;
use reader_core::Statement;

impl Ledger {
    /// The single grants that a statement would make as the next change: none, but of GRANT.
    pub fn grants_of(&self, user: User, statement: &Statement) -> Result<Vec<Grant>, NoMemory>
        ensures { let journal = self.now.journal in
            IfOk result (λ grants. grants.items
            ≡ grants_of (rights_at journal).made (length journal + 1)
            (change_of (tables_at journal) user statement.now)) }
    {
        match statement {
            Statement::Grant {
                privileges,
                table,
                users,
                option,
            } => {
                let columns = columns_of(&self.tables, *table);
                let atoms = atoms_of(self.alloc, *table, columns, privileges)?;
                let first = self.rights.made();
                let at = Moment(self.journal.len() as u64 + 1);
                let whom = users.as_slice();
                single_grants(self.alloc, first, at, &user, &atoms, whom, *option)
            }
            Statement::CreateTable { .. }
            | Statement::Insert { .. }
            | Statement::Select { .. }
            | Statement::Delete { .. }
            | Statement::Update { .. }
            | Statement::Revoke { .. }
            | Statement::RevokeOption { .. }
            | Statement::Checkpoint
            | Statement::Checkpoints
            | Statement::Export { .. } => Ok(Vec::new(self.alloc)),
        }
    }
}
