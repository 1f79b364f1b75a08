//! The journal as changes of rights.
ghost use Rattle.std.specs.Prelude.{◌≡◌, ◌≤◌, length, map, IfOk};
ghost use Rattle.base_core.specs.declared.name.Name.{Name};
ghost use Rattle.monitor_core.specs.Verdict.{columns_of, atoms_at};
ghost use Rattle.system_core.specs.Journal.{change_of};
ghost use Rattle.system_core.specs.Carrying.{most_columns};

use crate::machine::atoms::atoms_of;
use crate::machine::event::Entry;
use base_core::{Atom, Name, NoMemory, Sequence, User};
use grants_core::Change;
use monitor_core::columns_of;
use reader_core::{Privileges, Statement};
use std::alloc::Global;
use tables_core::Tables;

fn atoms_at(
    alloc: Global,
    tables: &Tables,
    table: Name,
    privileges: &Privileges,
) -> Result<Sequence<Atom>, NoMemory>
    requires { length (columns_of tables.now.tables table) ≤ most_columns }
    ensures { IfOk result (λ atoms. atoms ≡ atoms_at tables.now.tables table privileges.now) }
{
    let atoms = atoms_of(alloc, table, columns_of(tables, table), privileges)?;
    Ok(Sequence::from_vec(atoms))
}

fn copied(alloc: Global, users: &[User]) -> Result<Sequence<User>, NoMemory>
    ensures { IfOk result (λ copy. copy ≡ users.now) }
{
    let users = Vec::from_slice(alloc, users)?;
    Ok(Sequence::from_vec(users))
}

/// What an entry changes of rights, at these tables.
fn change_of(alloc: Global, tables: &Tables, entry: &Entry) -> Result<Change, NoMemory>
    requires { (name : Name) → length (columns_of tables.now.tables name) ≤ most_columns }
    ensures { IfOk result
        (λ change. change ≡ change_of tables.now.tables entry.now.user entry.now.statement) }
{
    match &entry.statement {
        Statement::CreateTable { table, columns: _ } => Ok(Change::Create {
            table: *table,
            owner: entry.user,
        }),
        Statement::Grant {
            privileges,
            table,
            users,
            option,
        } => Ok(Change::Grant {
            by: entry.user,
            atoms: atoms_at(alloc, tables, *table, privileges)?,
            whom: copied(alloc, users.as_slice())?,
            option: *option,
        }),
        Statement::Revoke {
            privileges,
            table,
            users,
        } => Ok(Change::Revoke {
            by: entry.user,
            atoms: atoms_at(alloc, tables, *table, privileges)?,
            whom: copied(alloc, users.as_slice())?,
        }),
        Statement::RevokeOption {
            privileges,
            table,
            users,
        } => Ok(Change::RevokeOption {
            by: entry.user,
            atoms: atoms_at(alloc, tables, *table, privileges)?,
            whom: copied(alloc, users.as_slice())?,
        }),
        Statement::Insert { .. }
        | Statement::Select { .. }
        | Statement::Delete { .. }
        | Statement::Update { .. }
        | Statement::Checkpoint
        | Statement::Checkpoints
        | Statement::Export { .. } => Ok(Change::Other),
    }
}

/// What each of the entries changes of rights, at these tables. `NoMemory` where a request for
/// memory was refused.
pub fn changes_of(
    alloc: Global,
    tables: &Tables,
    journal: &[Entry],
) -> Result<Vec<Change>, NoMemory>
    requires { (name : Name) → length (columns_of tables.now.tables name) ≤ most_columns }
    ensures { IfOk result (λ changes. changes.items
        ≡ map (λ e. change_of tables.now.tables e.user e.statement) journal.now) }
{
    let mut changes = Vec::new(alloc);
    for entry in journal {
        changes.push(change_of(alloc, tables, entry)?)?;
    }
    Ok(changes)
}
