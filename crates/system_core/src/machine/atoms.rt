//! The atoms that privileges on a table are.
ghost use Rattle.std.specs.Prelude.{◌≡◌, ◌≤◌, ◌+◌, ◌∷◌, ◌++◌, [], length, map, OnOk, IfOk};
ghost use Rattle.monitor_core.specs.Atoms.{columns_given, of_column, atoms_of_one, atoms_of};
ghost use Rattle.base_core.specs.Privileges.{of_table};
ghost use Rattle.system_core.specs.Carrying.{most_columns};

use base_core::{Atom, Column, Distinct, Kind, Name, Named, NoMemory};
use monitor_core::ByColumn;
use reader_core::{MAX_ITEMS, Privilege, Privileges};
use std::alloc::Global;

// Appends the privilege of each of the columns.
fn push_columns<T: Named>(
    atoms: &mut Vec<Atom>,
    table: Name,
    by: ByColumn,
    items: &[T],
) -> Result<(), NoMemory>
    ensures { OnOk result (atoms.new.items
        ≡ atoms.old.items ++ map (λ item. of_column by table (T.name_of item)) items.now) }
{
    for item in items {
        atoms.push(by.of_column(table, item.name()))?;
    }
    Ok(())
}

// Appends the privilege of each column listed, or with no list of each of these.
fn push_listed(
    atoms: &mut Vec<Atom>,
    table: Name,
    columns: &[Column],
    by: ByColumn,
    list: &Option<Distinct<Name, MAX_ITEMS>>,
) -> Result<(), NoMemory>
    requires { length columns.now ≤ most_columns }
    ensures atoms { OnOk result (atoms.new.items
        ≡ atoms.old.items ++ map (of_column by table) (columns_given columns.now list.now)) }
    ensures few { OnOk result (length atoms.new.items ≤ length atoms.old.items + most_columns) }
{
    match list {
        None => push_columns(atoms, table, by, columns),
        Some(names) => push_columns(atoms, table, by, names.as_slice()),
    }
}

fn push_one(atoms: &mut Vec<Atom>, table: Name, kind: Kind) -> Result<(), NoMemory>
    ensures { OnOk result (atoms.new.items ≡ atoms.old.items ++ of_table table kind ∷ []) }
{
    atoms.push(Atom { table, kind })?;
    Ok(())
}

// Appends the atoms of one privilege on a table with these columns.
fn push_atoms(
    atoms: &mut Vec<Atom>,
    table: Name,
    columns: &[Column],
    privilege: &Privilege,
) -> Result<(), NoMemory>
    requires { length columns.now ≤ most_columns }
    ensures atoms { OnOk result (atoms.new.items
        ≡ atoms.old.items ++ atoms_of_one table columns.now privilege.now) }
    ensures few { OnOk result (length atoms.new.items ≤ length atoms.old.items + most_columns) }
{
    match privilege {
        Privilege::Select(list) => push_listed(atoms, table, columns, ByColumn::Select, list),
        Privilege::Insert => push_one(atoms, table, Kind::Insert),
        Privilege::Delete => push_one(atoms, table, Kind::Delete),
        Privilege::Update(list) => push_listed(atoms, table, columns, ByColumn::Update, list),
    }
}

/// The atoms of privileges on a table with these columns, in the order written. `NoMemory` where a
/// request for memory was refused.
pub fn atoms_of(
    alloc: Global,
    table: Name,
    columns: &[Column],
    privileges: &Privileges,
) -> Result<Vec<Atom>, NoMemory>
    requires { length columns.now ≤ most_columns }
    ensures atoms { IfOk result (λ atoms. atoms.items ≡ atoms_of table columns.now privileges.now) }
    ensures few { IfOk result (λ atoms. length atoms.items ≤ 128) }
{
    let mut atoms = Vec::new(alloc);
    let privileges = privileges.as_slice();
    for privilege in privileges {
        push_atoms(&mut atoms, table, columns, privilege)?;
    }
    Ok(atoms)
}
