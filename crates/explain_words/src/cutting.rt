//! Revocations that would take a privilege from a user.

use crate::past::Past;
use crate::privileges::{push_atom, put_privilege};
use crate::prose::Prose;
use base_core::{Atom, Name, NoMemory, User};
use explain_core::Cut;
use reader_core::MAX_USERS;
use std::alloc::Global;
use tables_core::Tables;

/// A cut, and the atoms that it takes.
#[derive(Drop)]
pub struct Cuts {
    cut: Cut,
    atoms: Vec<Atom>,
}

fn same_cut(one: &Cut, other: &Cut) -> bool {
    one.by == other.by && one.whom == other.whom
}

/// Adds an atom to those that are taken by the same cut, or as a further one.
fn add_cut(alloc: Global, cuts: &mut Vec<Cuts>, atom: &Atom, cut: Cut) -> Result<(), NoMemory> {
    for at in 0..cuts.len() {
        if same_cut(&cuts[at].cut, &cut) {
            return push_atom(&mut cuts[at].atoms, atom);
        }
    }
    let mut atoms = Vec::new(alloc);
    push_atom(&mut atoms, atom)?;
    cuts.reserve(1)?;
    cuts.push_reserved(Cuts { cut, atoms });
    Ok(())
}

/// What takes the atoms from the user. Those that he does not hold need nothing, and nothing takes
/// them from an owner.
fn cuts_of(
    alloc: Global,
    past: &Past<'_>,
    user: &User,
    atoms: &[Atom],
) -> Result<Vec<Cuts>, NoMemory> {
    let mut cuts = Vec::new(alloc);
    for atom in atoms {
        if let Some(cut) = past.history.cut(alloc, user, atom)? {
            add_cut(alloc, &mut cuts, atom, cut)?;
        }
    }
    Ok(cuts)
}

fn put_users(text: &mut Prose, users: &[User]) {
    let mut between: &[u8] = b" ";
    for user in users {
        text.put_all(&[between, user.0.as_bytes()]);
        between = b", ";
    }
}

/// A line that takes the atoms from so many users as a line may name.
fn put_line(text: &mut Prose, tables: &Tables, cuts: &Cuts, table: &Name, users: &[User]) {
    text.put_all(&[cuts.cut.by.0.as_bytes(), b": REVOKE "]);
    put_privilege(text, tables, &cuts.atoms);
    text.put_all(&[b" ON ", table.as_bytes(), b" FROM"]);
    put_users(text, users);
    text.put(b"\n");
}

fn put_lines(text: &mut Prose, tables: &Tables, cuts: &Cuts, table: &Name) {
    for users in cuts.cut.whom.chunks(MAX_USERS) {
        put_line(text, tables, cuts, table, users);
    }
}

/// That the user owns the table.
fn owner_remark(alloc: Global, user: &User, table: &Name) -> Result<Vec<u8>, NoMemory> {
    let mut text = Prose::new(alloc);
    text.put_all(&[user.0.as_bytes(), b" owns ", table.as_bytes()]);
    text.put(b": nothing takes it from an owner");
    text.finish()
}

/// That the user holds none of the atoms.
fn lack_remark(
    alloc: Global,
    tables: &Tables,
    user: &User,
    table: &Name,
    atoms: &[Atom],
) -> Result<Vec<u8>, NoMemory> {
    let mut text = Prose::new(alloc);
    text.put_all(&[user.0.as_bytes(), b" does not hold "]);
    put_privilege(&mut text, tables, atoms);
    text.put_all(&[b" on ", table.as_bytes(), b": there is nothing to take"]);
    text.finish()
}

/// Appends the lines of a script that take the atoms on the table from the user.
pub fn put_cuts(
    text: &mut Prose,
    alloc: Global,
    past: &Past<'_>,
    user: &User,
    table: &Name,
    atoms: &[Atom],
) -> Result<(), NoMemory> {
    let cuts = cuts_of(alloc, past, user, atoms)?;
    for one in &cuts {
        put_lines(text, past.tables, one, table);
    }
    Ok(())
}

/// Whether the user holds one of the atoms.
fn holds_any(past: &Past<'_>, user: &User, atoms: &[Atom]) -> bool {
    atoms.iter().any(|atom| past.history.holds(user, atom))
}

/// Why nothing takes the atoms on the table from the user, in a sentence without a line end; nothing, if something does.
pub fn uncut_remark(
    alloc: Global,
    past: &Past<'_>,
    user: &User,
    table: &Name,
    atoms: &[Atom],
) -> Result<Option<Vec<u8>>, NoMemory> {
    if past.tables.owner(*table) == Some(*user) {
        Ok(Some(owner_remark(alloc, user, table)?))
    } else if holds_any(past, user, atoms) {
        Ok(None)
    } else {
        Ok(Some(lack_remark(alloc, past.tables, user, table, atoms)?))
    }
}
