//! What the types of statements keep.
ghost use Rattle.std.specs.Prelude.{All};
ghost use Rattle.reader_core.specs.Forming.{IsWellFormed, IsSelection, IsWellFormedPrivilege};
ghost use Rattle.dump_core.specs.Laws.{AreWellFormed};

use base_core::{Distinct, Name};
use reader_core::{MAX_ITEMS, Privilege, Statement};
use system_core::Entry;

fn selection(list: &Option<Distinct<Name, MAX_ITEMS>>)
    ensures { IsSelection list.now }
{
    if let Some(names) = list {
        let _ = names.as_slice();
    }
}

fn privilege(privilege: &Privilege)
    ensures { IsWellFormedPrivilege privilege.now }
{
    match privilege {
        Privilege::Select(list) => selection(list),
        Privilege::Update(list) => selection(list),
        Privilege::Insert => {}
        Privilege::Delete => {}
    }
}

fn privileges(items: &[Privilege])
    ensures { All IsWellFormedPrivilege items.now }
{
    for item in items {
        privilege(item);
    }
}

fn statement(statement: &Statement)
    ensures { IsWellFormed statement.now }
{
    match statement {
        Statement::CreateTable { table: _, columns } => {
            let _ = columns.as_slice();
        }
        Statement::Insert { table: _, values } => {
            let _ = values.as_slice();
        }
        Statement::Select {
            list,
            table: _,
            filter,
        } => {
            selection(list);
            let _ = filter.as_slice();
        }
        Statement::Delete { table: _, filter } => {
            let _ = filter.as_slice();
        }
        Statement::Update {
            table: _,
            sets,
            filter,
        } => {
            let _ = sets.as_slice();
            let _ = filter.as_slice();
        }
        Statement::Grant {
            privileges: given,
            table: _,
            users,
            option: _,
        } => {
            privileges(given.as_slice());
            let _ = users.as_slice();
        }
        Statement::Revoke {
            privileges: taken,
            table: _,
            users,
        } => {
            privileges(taken.as_slice());
            let _ = users.as_slice();
        }
        Statement::RevokeOption {
            privileges: taken,
            table: _,
            users,
        } => {
            privileges(taken.as_slice());
            let _ = users.as_slice();
        }
        Statement::Checkpoint => {}
        Statement::Checkpoints => {}
        Statement::Export { number, only: _ } => {
            let _ = number.get();
        }
    }
}

/// Does nothing: the statements of entries are well formed, as their types keep them.
pub(crate) fn entries_are_well_formed(entries: &[Entry])
    ensures { AreWellFormed entries.now }
{
    for entry in entries {
        statement(&entry.statement);
    }
}
