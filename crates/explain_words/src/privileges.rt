//! Privileges as atoms, and as they are written.
ghost use Rattle.std.specs.Prelude.{◌≡◌, ◌++◌, ◌∷◌, [], map, IfOk, OnOk};
ghost use Rattle.base_core.specs.Privileges.{of_table};
ghost use Rattle.monitor_core.specs.Atoms.{of_column};
ghost use Rattle.explain_words.specs.Atoms.{all_atoms};

use crate::prose::Prose;
use base_core::{Atom, Column, Kind, Name, Named, NoMemory};
use monitor_core::{ByColumn, columns_of};
use std::alloc::Global;
use tables_core::Tables;

/// Appends the privilege of each of the columns.
pub fn push_columns<T: Named>(
    atoms: &mut Vec<Atom>,
    table: Name,
    by: ByColumn,
    items: &[T],
) -> Result<(), NoMemory>
    ensures { OnOk result (atoms.new.items
        ≡ atoms.old.items ++ map (λ item. of_column by table (T.name_of item)) items.now) }
{
    for item in items {
        atoms.reserve(1)?;
        atoms.push_reserved(by.of_column(table, item.name()));
    }
    Ok(())
}

/// Appends an atom.
pub fn push_atom(atoms: &mut Vec<Atom>, atom: &Atom) -> Result<(), NoMemory>
    ensures { OnOk result (atoms.new.items ≡ atoms.old.items ++ atom.now ∷ []) }
{
    let Atom { table, kind } = *atom;
    atoms.reserve(1)?;
    atoms.push_reserved(Atom { table, kind });
    Ok(())
}

/// Appends an atom that has no column.
pub fn push_one(atoms: &mut Vec<Atom>, table: Name, kind: Kind) -> Result<(), NoMemory>
    ensures { OnOk result (atoms.new.items ≡ atoms.old.items ++ of_table table kind ∷ []) }
{
    atoms.reserve(1)?;
    atoms.push_reserved(Atom { table, kind });
    Ok(())
}

/// All atoms of a table with these columns: SELECT of each, INSERT, DELETE, and UPDATE of each.
pub fn atoms_of_table(alloc: Global, table: Name, columns: &[Column]) -> Result<Vec<Atom>, NoMemory>
    ensures { IfOk result (λ atoms. atoms.items ≡ all_atoms table columns.now) }
{
    let mut atoms = Vec::new(alloc);
    push_columns(&mut atoms, table, ByColumn::Select, columns)?;
    push_one(&mut atoms, table, Kind::Insert)?;
    push_one(&mut atoms, table, Kind::Delete)?;
    push_columns(&mut atoms, table, ByColumn::Update, columns)?;
    Ok(atoms)
}

/// The word of a kind.
pub fn word_of(kind: &Kind) -> &'static [u8] {
    match kind {
        Kind::Select(_) => b"SELECT",
        Kind::Insert => b"INSERT",
        Kind::Delete => b"DELETE",
        Kind::Update(_) => b"UPDATE",
    }
}

/// Whether two kinds differ in their columns alone.
pub fn have_one_word(one: &Kind, other: &Kind) -> bool {
    word_of(one) == word_of(other)
}

/// Whether the atoms, all of one word, are of the word of this kind.
pub fn are_of_word(atoms: &[Atom], kind: &Kind) -> bool {
    match atoms.first() {
        Some(first) => have_one_word(&first.kind, kind),
        None => false,
    }
}

fn column_of(kind: &Kind) -> Option<Name> {
    match kind {
        Kind::Select(column) | Kind::Update(column) => Some(*column),
        Kind::Insert | Kind::Delete => None,
    }
}

/// A kind as replies name it: `SELECT(wage)`.
pub fn put_kind(text: &mut Prose, kind: &Kind) {
    text.put(word_of(kind));
    if let Some(column) = column_of(kind) {
        text.put_all(&[b"(", column.as_bytes(), b")"]);
    }
}

/// The columns of kinds of one word, with commas between them.
fn put_columns(text: &mut Prose, atoms: &[Atom]) {
    for at in 0..atoms.len() {
        if at > 0 {
            text.put(b", ");
        }
        if let Some(column) = column_of(&atoms[at].kind) {
            text.put_name(&column);
        }
    }
}

/// Atoms of one word as a statement names them: `SELECT (name, wage)`, or `SELECT` alone where
/// these are all of the table's columns.
pub fn put_privilege(text: &mut Prose, tables: &Tables, atoms: &[Atom]) {
    let Some(first) = atoms.first() else {
        return;
    };
    text.put(word_of(&first.kind));
    if column_of(&first.kind).is_none() || atoms.len() == columns_of(tables, first.table).len() {
        return;
    }
    text.put(b" (");
    put_columns(text, atoms);
    text.put(b")");
}
