//! Who holds which privileges on a table.

use crate::lives::put_chain;
use crate::past::{Owned, Past};
use crate::privileges::{are_of_word, push_atom, put_privilege};
use crate::prose::Prose;
use crate::rows::Rows;
use crate::teller::Teller;
use base_core::{Atom, Name, NoMemory, User};
use explain_records::Held;
use grants_core::{Grant, Holding, Key};
use indexmap::IndexMap;
use std::alloc::Global;

/// For each user and privilege the number of the first grant in force by which he holds it, in the order of these.
type Holders = IndexMap<Holding, u64>;

/// Notes a grant in force.
fn note(holders: &mut Holders, grant: &Grant) -> Result<(), NoMemory> {
    let Atom { table, kind } = grant.atom;
    let holding = Holding {
        user: grant.grantee,
        privilege: Key(Atom { table, kind }),
    };
    if holders.get(&holding).is_none() {
        holders.insert(holding, grant.number)?;
    }
    Ok(())
}

/// Who holds the privileges on the table, but for its owner.
fn holders_of(
    alloc: Global,
    past: &Past<'_>,
    table: &Name,
    owner: &User,
) -> Result<Holders, NoMemory> {
    let mut holders = IndexMap::new(alloc);
    for life in past.history.lives() {
        let grant = &life.grant;
        if life.fell.is_none() && grant.atom.table == *table && grant.grantee != *owner {
            note(&mut holders, grant)?;
        }
    }
    Ok(holders)
}

/// Atoms of one word that the same users hold by the same chains.
#[derive(Drop)]
struct Group {
    atoms: Vec<Atom>,
    rows: Rows,
}

/// A row for who holds it: `  cy, with option   ann -@25-> cy`.
fn push_holder(teller: &mut Teller<'_>, user: &User, option: bool, number: u64) {
    let mut left = teller.indented(2);
    left.put_name(&user.0);
    if option {
        left.put(b", with option");
    }
    let mut right = teller.indented(0);
    let chain = right.found(teller.past.chain_to(teller.alloc, number));
    put_chain(&mut right, &chain);
    teller.rows.push(left, right);
}

/// The rows of an atom's holders.
fn push_holders(teller: &mut Teller<'_>, holders: &Holders, held: &Held, atom: &Atom) {
    for (holding, number) in holders.iter() {
        if holding.privilege.0 == *atom {
            let option = held.has_with_option(&holding.user, atom);
            push_holder(teller, &holding.user, option, *number);
        }
    }
}

/// Adds an atom to the group of its word that has the same rows, or as a further group.
fn add_atom(
    alloc: Global,
    groups: &mut Vec<Group>,
    atom: &Atom,
    rows: Rows,
) -> Result<(), NoMemory> {
    for at in 0..groups.len() {
        if are_of_word(&groups[at].atoms, &atom.kind) && groups[at].rows.same(&rows) {
            return push_atom(&mut groups[at].atoms, atom);
        }
    }
    let mut atoms = Vec::new(alloc);
    push_atom(&mut atoms, atom)?;
    groups.reserve(1)?;
    groups.push_reserved(Group { atoms, rows });
    Ok(())
}

fn groups_of(
    teller: &mut Teller<'_>,
    holders: &Holders,
    held: &Held,
    atoms: &[Atom],
) -> Result<Vec<Group>, NoMemory> {
    let mut groups = Vec::new(teller.alloc);
    for atom in atoms {
        push_holders(teller, holders, held, atom);
        let rows = teller.take_rows();
        add_atom(teller.alloc, &mut groups, atom, rows)?;
    }
    Ok(groups)
}

/// The line above a group, `SELECT on pay @27`, or that nobody but the owner holds it.
fn push_head(teller: &mut Teller<'_>, table: &Name, owned: &Owned, group: &Group) {
    let mut left = teller.indented(0);
    put_privilege(&mut left, teller.past.tables, &group.atoms);
    left.put_all(&[b" on ", table.as_bytes(), b" "]);
    left.put_moment(teller.past.now());
    if group.rows.is_empty() {
        left.put_all(&[b": nobody but ", owned.owner.0.as_bytes()]);
    }
    teller.rows.push_alone(left);
}

/// The rows of a group, under its head.
fn push_group(teller: &mut Teller<'_>, table: &Name, owned: &Owned, group: Group) {
    push_head(teller, table, owned, &group);
    let Group { rows, .. } = group;
    teller.rows.append(rows);
}

fn push_groups(teller: &mut Teller<'_>, table: &Name, owned: &Owned, groups: Vec<Group>) {
    for group in groups {
        push_group(teller, table, owned, group);
    }
}

/// Those who hold the atoms on the table by grants, together by atoms.
fn grouped(
    teller: &mut Teller<'_>,
    table: &Name,
    owned: &Owned,
    atoms: &[Atom],
) -> Result<Vec<Group>, NoMemory> {
    let holders = holders_of(teller.alloc, &teller.past, table, &owned.owner)?;
    let held = Held::read(teller.alloc, teller.past.history)?;
    groups_of(teller, &holders, &held, atoms)
}

/// The owner's row, and behind it those of each group.
fn push_all(teller: &mut Teller<'_>, table: &Name, owned: &Owned, atoms: &[Atom]) {
    let groups = grouped(teller, table, owned, atoms);
    let groups = teller.rows.found(groups);
    teller.push_owner(0, table, owned);
    push_groups(teller, table, owned, groups);
}

/// Appends who holds the atoms on the table: its owner, and for each privilege who holds it by
/// which chain.
pub fn put_holders(
    text: &mut Prose,
    alloc: Global,
    past: &Past<'_>,
    table: &Name,
    atoms: &[Atom],
) -> Result<(), NoMemory> {
    let Some(owned) = past.owned(table) else {
        return Ok(());
    };
    let mut teller = Teller::new(alloc, *past)?;
    push_all(&mut teller, table, &owned, atoms);
    teller.rows.write(text);
    Ok(())
}
