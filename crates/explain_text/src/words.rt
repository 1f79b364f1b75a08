//! The words of a question: users, tables and privileges.
ghost use Rattle.std.specs.Prelude.{◌≡◌, ◌∷◌, [], Some, map, IfOk};
ghost use Rattle.base_core.specs.Privileges.{of_table};
ghost use Rattle.base_core.specs.Words.{name_of};
ghost use Rattle.monitor_core.specs.Atoms.{atoms_of_one, columns_given, of_column};
ghost use Rattle.monitor_core.specs.Verdict.{columns_of};
ghost use Rattle.reply_core.specs.Texts.{joined};
ghost use Rattle.explain_text.specs.Asking.{NameAtoms, NamesTable, granting_sentence};

use crate::fault::Unanswered;
use base_core::{Atom, Column, Distinct, Kind, Name, Named, NoMemory, User, column_index};
use explain_words::{push_columns, push_one};
use lexer_core::ReadFault;
use monitor_core::{ByColumn, columns_of};
use reader_core::{MAX_ITEMS, Privilege, Statement, read};
use std::alloc::Global;
use tables_core::Tables;

/// The user whom a word names.
pub fn user_of(word: &str) -> Result<User, Unanswered>
    ensures { IfOk result (λ user. name_of word.now ≡ Some user.0) }
{
    match Name::read(word.as_bytes()) {
        Some(name) => Ok(User(name)),
        None => Err(Unanswered::NoUser),
    }
}

/// The name of a table that stands.
pub fn table_of(tables: &Tables, word: &str) -> Result<Name, Unanswered>
    ensures { IfOk result (NamesTable tables.now.tables word.now) }
{
    let Some(table) = Name::read(word.as_bytes()) else {
        return Err(Unanswered::NoTableName);
    };
    match tables.owner(table) {
        Some(_) => Ok(table),
        None => Err(Unanswered::NoTable(table)),
    }
}

/// The parts one after another.
fn joined(alloc: Global, parts: &[&[u8]]) -> Result<Vec<u8>, NoMemory>
    ensures { IfOk result (λ text. text.items ≡ joined (map (λ part. part.now) parts.now)) }
{
    let mut text = Vec::new(alloc);
    for part in parts {
        text.extend_from_slice(part)?;
    }
    Ok(text)
}

/// A sentence of the language that grants the privilege, on the table and to a user of its name.
fn granting_sentence(alloc: Global, privilege: &str, table: &Name) -> Result<Vec<u8>, NoMemory>
    ensures { IfOk result (λ line. line.items ≡ granting_sentence privilege.now table.now) }
{
    let (words, table) = (privilege.as_bytes(), table.as_bytes());
    joined(alloc, &[b"GRANT ", words, b" ON ", table, b" TO ", table])
}

/// The first of the names that is no column, if one is not.
fn missing(columns: &[Column], names: &[Name]) -> Option<Name> {
    for name in names {
        if column_index(columns, *name).is_none() {
            return Some(*name);
        }
    }
    None
}

/// The privilege of each of the columns.
fn column_atoms<T: Named>(
    alloc: Global,
    table: Name,
    by: ByColumn,
    columns: &[T],
) -> Result<Vec<Atom>, NoMemory>
    ensures { IfOk result (λ atoms. atoms.items
        ≡ map (λ column. of_column by table (T.name_of column)) columns.now) }
{
    let mut atoms = Vec::new(alloc);
    push_columns(&mut atoms, table, by, columns)?;
    Ok(atoms)
}

/// The privilege of each column listed, or with no list of each of the table's.
fn listed_atoms(
    alloc: Global,
    table: Name,
    columns: &[Column],
    by: ByColumn,
    list: &Option<Distinct<Name, MAX_ITEMS>>,
) -> Result<Vec<Atom>, Unanswered>
    ensures { IfOk result (λ atoms. atoms.items
        ≡ map (of_column by table) (columns_given columns.now list.now)) }
{
    let Some(names) = list else {
        return Ok(column_atoms(alloc, table, by, columns)?);
    };
    let names = names.as_slice();
    if let Some(column) = missing(columns, names) {
        return Err(Unanswered::NoColumn { table, column });
    }
    Ok(column_atoms(alloc, table, by, names)?)
}

/// A privilege that has no column.
fn one_atom(alloc: Global, table: Name, kind: Kind) -> Result<Vec<Atom>, NoMemory>
    ensures { IfOk result (λ atoms. atoms.items ≡ of_table table kind ∷ []) }
{
    let mut atoms = Vec::new(alloc);
    push_one(&mut atoms, table, kind)?;
    Ok(atoms)
}

/// The atoms of a privilege on a table with these columns, as GRANT takes them.
fn atoms_of_one(
    alloc: Global,
    table: Name,
    columns: &[Column],
    privilege: &Privilege,
) -> Result<Vec<Atom>, Unanswered>
    ensures { IfOk result
        (λ atoms. atoms.items ≡ atoms_of_one table columns.now privilege.now) }
{
    match privilege {
        Privilege::Select(list) => listed_atoms(alloc, table, columns, ByColumn::Select, list),
        Privilege::Insert => Ok(one_atom(alloc, table, Kind::Insert)?),
        Privilege::Delete => Ok(one_atom(alloc, table, Kind::Delete)?),
        Privilege::Update(list) => listed_atoms(alloc, table, columns, ByColumn::Update, list),
    }
}

/// The atoms that the words name on the table, which stands: those of one privilege, read as the
/// language reads it in GRANT.
pub fn atoms_named(
    alloc: Global,
    tables: &Tables,
    table: Name,
    words: &str,
) -> Result<Vec<Atom>, Unanswered>
    ensures { IfOk result
        (λ atoms. NameAtoms tables.now.tables table words.now atoms.items) }
{
    let line = granting_sentence(alloc, words, &table)?;
    let statement = match read(alloc, &line) {
        Ok(statement) => statement,
        Err(ReadFault::NoMemory) => return Err(Unanswered::NoMemory),
        Err(ReadFault::At { .. }) => return Err(Unanswered::NoPrivilege),
    };
    let Statement::Grant { privileges, .. } = &statement else {
        return Err(Unanswered::NoPrivilege);
    };
    let [privilege] = privileges.as_slice() else {
        return Err(Unanswered::NoPrivilege);
    };
    atoms_of_one(alloc, table, columns_of(tables, table), privilege)
}
