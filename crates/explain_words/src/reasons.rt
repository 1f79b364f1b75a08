//! Why a user holds a privilege, or does not, for people.

use crate::past::{Owned, Past};
use crate::privileges::{push_atom, put_privilege};
use crate::prose::Prose;
use crate::rows::Rows;
use crate::teller::Teller;
use base_core::{Atom, Name, NoMemory, User};
use explain_core::{Life, Why};
use grants_core::Grant;
use std::alloc::Global;

/// What is told of one atom, and of all others of which the same is told.
#[derive(Drop)]
struct Part {
    holds: bool,
    /// Whether he may grant it on.
    option: bool,
    /// Whether it was ever granted to him.
    given: bool,
    atoms: Vec<Atom>,
    rows: Rows,
}

impl Part {
    fn is_as(&self, other: &Part) -> bool {
        self.holds == other.holds
            && self.option == other.option
            && self.given == other.given
            && self.rows.same(&other.rows)
    }

    /// The line above its rows: `eve lacks SELECT on pay @27`.
    fn put_head(&self, text: &mut Prose, past: &Past<'_>, user: &User, table: &Name) {
        text.put_name(&user.0);
        text.put(if self.holds {
            b" holds ".as_slice()
        } else {
            b" lacks ".as_slice()
        });
        put_privilege(text, past.tables, &self.atoms);
        text.put_all(&[b" on ", table.as_bytes(), b" "]);
        text.put_moment(past.now());
        if self.option {
            text.put(b", with option");
        }
        if !self.given {
            text.put(b": nobody ever granted it to ");
            text.put_name(&user.0);
        }
    }

    fn head(&self, teller: &Teller<'_>, user: &User, table: &Name) -> Prose {
        let mut left = teller.indented(0);
        self.put_head(&mut left, &teller.past, user, table);
        left
    }
}

/// The lives of the grants of an atom.
pub fn lives_of(alloc: Global, past: &Past<'_>, atom: &Atom) -> Result<Vec<Life>, NoMemory> {
    let mut lives = Vec::new(alloc);
    for life in past.history.lives() {
        if life.grant.atom == *atom {
            lives.reserve(1)?;
            lives.push_reserved(*life);
        }
    }
    Ok(lives)
}

fn one_atom(alloc: Global, atom: &Atom) -> Result<Vec<Atom>, NoMemory> {
    let mut atoms = Vec::new(alloc);
    push_atom(&mut atoms, atom)?;
    Ok(atoms)
}

/// What is told of an atom that the user holds by this chain, where these grants of it were made to
/// him, and whether he may grant it on.
fn held_part(
    teller: &mut Teller<'_>,
    atoms: Vec<Atom>,
    option: bool,
    table: &Name,
    owned: &Owned,
    chain: &[Grant],
    given: &[Life],
) -> Part {
    teller.push_owner(2, table, owned);
    teller.push_chain(chain);
    if let Some(last) = chain.last() {
        teller.push_further(given, last.number);
    }
    Part {
        holds: true,
        option,
        given: true,
        atoms,
        rows: teller.take_rows(),
    }
}

/// What is told of an atom that the user lacks, where these grants of it were made to him. The lives
/// are all of it.
fn lost_part(teller: &mut Teller<'_>, atoms: Vec<Atom>, lives: &[Life], given: &[Life]) -> Part {
    teller.push_losses(lives, given);
    Part {
        holds: false,
        option: false,
        given: !given.is_empty(),
        atoms,
        rows: teller.take_rows(),
    }
}

/// The lives that are told besides: of an atom that the user holds those of grants to him, and of one
/// that he lacks all.
fn lives_beside(
    teller: &Teller<'_>,
    user: &User,
    atom: &Atom,
    why: &Why,
) -> Result<Vec<Life>, NoMemory> {
    match why {
        Why::Lacks { .. } => lives_of(teller.alloc, &teller.past, atom),
        _ => teller.past.history.given_to(teller.alloc, user, atom),
    }
}

/// What is told of an atom, if the user does not own its table.
fn part_of(
    teller: &mut Teller<'_>,
    user: &User,
    atom: &Atom,
    owned: &Owned,
) -> Result<Part, NoMemory> {
    let why = teller.past.history.why(teller.alloc, user, atom)?;
    let atoms = one_atom(teller.alloc, atom);
    let atoms = teller.rows.found(atoms);
    let lives = lives_beside(teller, user, atom, &why);
    let lives = teller.rows.found(lives);
    let option = teller.past.history.may_grant(user, atom);
    Ok(match &why {
        Why::Owns { .. } => held_part(teller, atoms, option, &atom.table, owned, &[], &lives),
        Why::Holds { chain } => held_part(teller, atoms, option, &atom.table, owned, chain, &lives),
        Why::Lacks { given } => lost_part(teller, atoms, &lives, given),
    })
}

/// Adds a part, or its atom to the part of which the same is told.
fn add_part(parts: &mut Vec<Part>, part: Part) -> Result<(), NoMemory> {
    match parts.iter().position(|other| other.is_as(&part)) {
        Some(at) => {
            let Part { atoms, .. } = part;
            for atom in &atoms {
                parts[at].atoms.reserve(1)?;
                parts[at].atoms.push_reserved(*atom);
            }
        }
        None => {
            parts.reserve(1)?;
            parts.push_reserved(part);
        }
    }
    Ok(())
}

/// What is told of the atoms, those together of which the same is told.
fn parts_of(
    teller: &mut Teller<'_>,
    user: &User,
    atoms: &[Atom],
    owned: &Owned,
) -> Result<Vec<Part>, NoMemory> {
    let mut parts = Vec::new(teller.alloc);
    for atom in atoms {
        let part = part_of(teller, user, atom, owned)?;
        add_part(&mut parts, part)?;
    }
    Ok(parts)
}

/// The rows of a part, under its head.
fn push_part(teller: &mut Teller<'_>, user: &User, table: &Name, part: Part) {
    let head = part.head(teller, user, table);
    teller.rows.push_alone(head);
    let Part { rows, .. } = part;
    teller.rows.append(rows);
}

fn push_parts(teller: &mut Teller<'_>, user: &User, table: &Name, parts: Vec<Part>) {
    for part in parts {
        push_part(teller, user, table, part);
    }
}

/// The rows that tell why the user holds the atoms, or does not.
fn push_reasons(teller: &mut Teller<'_>, user: &User, table: &Name, atoms: &[Atom], owned: &Owned) {
    if owned.owner == *user {
        return teller.push_owner(0, table, owned);
    }
    let parts = parts_of(teller, user, atoms, owned);
    let parts = teller.rows.found(parts);
    push_parts(teller, user, table, parts)
}

/// Appends why the user holds the atoms of one privilege on the table, or why he does not.
pub fn put_reasons_of(
    text: &mut Prose,
    alloc: Global,
    past: &Past<'_>,
    user: &User,
    table: &Name,
    atoms: &[Atom],
) -> Result<(), NoMemory> {
    let Some(owned) = past.owned(table) else {
        return Ok(());
    };
    let mut teller = Teller::new(alloc, *past)?;
    push_reasons(&mut teller, user, table, atoms, &owned);
    teller.rows.write(text);
    Ok(())
}
