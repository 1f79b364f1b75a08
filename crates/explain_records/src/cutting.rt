//! What would take privileges from a user, as records.
ghost use Rattle.std.specs.Prelude.{◌≡◌, ◌++◌, ◌∷◌, [], List, map, IfOk, OnOk};
ghost use Rattle.export_core.specs.Record.{IsBetween, record_line, text_in};
ghost use Rattle.explain_records.specs.Telling.{Fields, TellEach, lines};
ghost use Rattle.explain_records.specs.Cuttings.{IsCutAnswer, TellsCut, cut_record};

use crate::cell::Cell;
use crate::writing::{below, finished};
use base_core::{Atom, NoMemory, User};
use csv::Writer;
use explain_core::History;
use export_core::record::put_line;
use std::alloc::Global;

const HEAD: &[u8] = b"by,table,privilege,user\n";

/// Writes a revocation of the atom from one user.
fn put_cut(
    writer: &mut Writer<Vec<u8>>,
    by: &User,
    atom: &Atom,
    whom: &User,
) -> Result<(), NoMemory>
    requires { IsBetween writer.old }
    ensures text { OnOk result (text_in writer.new
        ≡ text_in writer.old ++ record_line (cut_record by.now atom.now whom.now)) }
    ensures between { OnOk result (IsBetween writer.new) }
{
    let cells = [
        Cell::Name(atom.table),
        Cell::Kind(atom.kind),
        Cell::Name(whom.0),
    ];
    put_line(writer, by.0.as_bytes(), &cells)
}

/// Writes a revocation of the atom from these users.
fn put_cuts(
    writer: &mut Writer<Vec<u8>>,
    by: &User,
    atom: &Atom,
    whom: &[User],
) -> Result<(), NoMemory>
    requires { IsBetween writer.old }
    ensures text { OnOk result (text_in writer.new
        ≡ text_in writer.old ++ lines (map (cut_record by.now atom.now) whom.now)) }
    ensures between { OnOk result (IsBetween writer.new) }
{
    for user in whom {
        put_cut(writer, by, atom, user)?;
    }
    Ok(())
}

/// Writes what would take the atom from the user.
fn put_cut_of(
    alloc: Global,
    writer: &mut Writer<Vec<u8>>,
    history: &History,
    user: &User,
    atom: &Atom,
) -> Result<(), NoMemory>
    requires { IsBetween writer.old }
    ensures text { OnOk result ((records : List Fields)
        × TellsCut history.now user.now atom.now records
        × (text_in writer.new ≡ text_in writer.old ++ lines records)) }
    ensures between { OnOk result (IsBetween writer.new) }
{
    match history.cut(alloc, user, atom)? {
        Some(cut) => put_cuts(writer, &cut.by, atom, &cut.whom),
        None => Ok(()),
    }
}

/// Writes what would take each of the atoms from the user.
fn put_all_cuts(
    alloc: Global,
    writer: &mut Writer<Vec<u8>>,
    history: &History,
    user: &User,
    atoms: &[Atom],
) -> Result<(), NoMemory>
    requires { IsBetween writer.old }
    ensures { OnOk result ((records : List Fields)
        × TellEach (TellsCut history.now user.now) atoms.now records
        × (text_in writer.new ≡ text_in writer.old ++ lines records)) }
{
    for atom in atoms {
        put_cut_of(alloc, writer, history, user, atom)?;
    }
    Ok(())
}

/// What would take the atoms from the user: for each of them a revocation, user by user. `NoMemory` where a request
/// for memory was refused.
pub fn cut_records(
    alloc: Global,
    history: &History,
    user: &User,
    atoms: &[Atom],
) -> Result<Vec<u8>, NoMemory>
    ensures { IfOk result (λ text. IsCutAnswer history.now user.now atoms.now text.items) }
{
    let mut writer = below(alloc, HEAD)?;
    let written = put_all_cuts(alloc, &mut writer, history, user, atoms);
    finished(writer, written)
}
