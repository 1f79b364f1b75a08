//! Rights in force as records.
ghost use Rattle.std.specs.Prelude.{◌≡◌, ◌++◌, ◌∷◌, [], ℕ, map, filter, IfOk, OnOk};
ghost use Rattle.export_core.specs.Record.{IsBetween, record_line, text_in};
ghost use Rattle.explain_records.specs.Cells.{cell_text};
ghost use Rattle.explain_records.specs.Telling.{lines, numbered_records};
ghost use Rattle.explain_records.specs.Records.{owner_record, owner_records_by};
ghost use Rattle.explain_records.specs.Records.{is_of_one, right_record, rights_answer, who_answer};

use crate::cell::{Cell, Word};
use crate::writing::{below, finished};
use base_core::{Atom, Moment, Name, NoMemory, User};
use csv::Writer;
use explain_core::History;
use export_core::record::put_line;
use grants_core::{Change, Grant};
use std::alloc::Global;

const HEAD: &[u8] = b"table,user,privilege,option,since,by\n";

/// The fields of a right behind its table.
pub fn right_of(grant: &Grant) -> [Cell; 5]
    ensures { grant.now.atom.table ∷ map cell_text result ≡ right_record grant.now }
{
    [
        Cell::Name(grant.grantee.0),
        Cell::Kind(grant.atom.kind),
        Cell::Flag(grant.option),
        Cell::Number(grant.moment.0),
        Cell::Name(grant.grantor.0),
    ]
}

fn put_right(writer: &mut Writer<Vec<u8>>, grant: &Grant) -> Result<(), NoMemory>
    requires { IsBetween writer.old }
    ensures text { OnOk result (text_in writer.new
        ≡ text_in writer.old ++ record_line (right_record grant.now)) }
    ensures between { OnOk result (IsBetween writer.new) }
{
    put_line(writer, grant.atom.table.as_bytes(), &right_of(grant))
}

fn put_rights(writer: &mut Writer<Vec<u8>>, grants: &[Grant]) -> Result<(), NoMemory>
    requires { IsBetween writer.old }
    ensures text { OnOk result (text_in writer.new
        ≡ text_in writer.old ++ lines (map right_record grants.now)) }
    ensures between { OnOk result (IsBetween writer.new) }
{
    for grant in grants {
        put_right(writer, grant)?;
    }
    Ok(())
}

/// The right of an owner: he may do everything, and grant it on.
fn put_owner(
    writer: &mut Writer<Vec<u8>>,
    table: &Name,
    owner: &User,
    since: u64,
) -> Result<(), NoMemory>
    requires { IsBetween writer.old }
    ensures text { OnOk result (text_in writer.new
        ≡ text_in writer.old ++ record_line (owner_record table.now owner.now since)) }
    ensures between { OnOk result (IsBetween writer.new) }
{
    let cells = [
        Cell::Name(owner.0),
        Cell::Word(Word::Owner),
        Cell::Flag(true),
        Cell::Number(since),
        Cell::Nothing,
    ];
    put_line(writer, table.as_bytes(), &cells)
}

/// The right of the owner whose table the change of this moment creates, if it creates one.
fn put_owner_by(writer: &mut Writer<Vec<u8>>, at: u64, change: &Change) -> Result<(), NoMemory>
    requires { IsBetween writer.old }
    ensures text { OnOk result (text_in writer.new
        ≡ text_in writer.old ++ lines (owner_records_by at change.now)) }
    ensures between { OnOk result (IsBetween writer.new) }
{
    match change {
        Change::Create { table, owner } => put_owner(writer, table, owner, at),
        Change::Grant { .. }
        | Change::Revoke { .. }
        | Change::RevokeOption { .. }
        | Change::Other => Ok(()),
    }
}

fn put_owners(writer: &mut Writer<Vec<u8>>, changes: &[Change]) -> Result<(), NoMemory>
    requires { IsBetween writer.old }
    ensures text { OnOk result (text_in writer.new
        ≡ text_in writer.old ++ lines (numbered_records owner_records_by 1 changes.now)) }
    ensures between { OnOk result (IsBetween writer.new) }
{
    let mut at = 0;
    for change in changes {
        at += 1;
        put_owner_by(writer, at, change)?;
    }
    Ok(())
}

/// The rights of owners, and then those that these grants give.
fn put_all(
    writer: &mut Writer<Vec<u8>>,
    changes: &[Change],
    grants: &[Grant],
) -> Result<(), NoMemory>
    requires { IsBetween writer.old }
    ensures text { OnOk result (text_in writer.new ≡ text_in writer.old ++ lines
        (numbered_records owner_records_by 1 changes.now ++ map right_record grants.now)) }
{
    put_owners(writer, changes)?;
    put_rights(writer, grants)
}

/// Every right in force: those of the owners, and then the grants. `NoMemory` where a request for memory was
/// refused.
pub fn rights_records(alloc: Global, history: &History) -> Result<Vec<u8>, NoMemory>
    ensures { IfOk result (λ text. text.items ≡ rights_answer history.now) }
{
    let grants = history.in_force(alloc)?;
    let mut writer = below(alloc, HEAD)?;
    let written = put_all(&mut writer, history.changes(), &grants);
    finished(writer, written)
}

/// Whether a grant is of one of the atoms.
fn is_of_one(atoms: &[Atom], grant: &Grant) -> bool
    ensures { result ≡ is_of_one atoms.now grant.now }
{
    atoms.contains(&grant.atom)
}

/// Those of the grants that are of one of the atoms.
fn put_rights_of(
    writer: &mut Writer<Vec<u8>>,
    grants: &[Grant],
    atoms: &[Atom],
) -> Result<(), NoMemory>
    requires { IsBetween writer.old }
    ensures text { OnOk result (text_in writer.new ≡ text_in writer.old ++ lines
        (map right_record (filter (is_of_one atoms.now) grants.now))) }
    ensures between { OnOk result (IsBetween writer.new) }
{
    for grant in grants {
        if is_of_one(atoms, grant) {
            put_right(writer, grant)?;
        }
    }
    Ok(())
}

/// The grants in force of these atoms. `NoMemory` where a request for memory was refused.
pub fn holders_records(
    alloc: Global,
    history: &History,
    atoms: &[Atom],
) -> Result<Vec<u8>, NoMemory>
    ensures { IfOk result (λ text. text.items ≡ who_answer history.now atoms.now) }
{
    let grants = history.in_force(alloc)?;
    let mut writer = below(alloc, HEAD)?;
    let written = put_rights_of(&mut writer, &grants, atoms);
    finished(writer, written)
}
