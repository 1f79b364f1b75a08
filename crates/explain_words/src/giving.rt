//! Whom a user could give privileges to, for people.
ghost use Rattle.grants_core.specs.Lawful.{AreLawful};
ghost use Rattle.explain_core.specs.Lives.{lives_of};
ghost use Rattle.explain_records.specs.Held.{AreHeld};

use crate::past::Past;
use crate::privileges::{are_of_word, push_atom, put_privilege};
use crate::prose::Prose;
use crate::rows::Rows;
use crate::teller::Teller;
use base_core::{Atom, Name, NoMemory, User};
use explain_core::History;
use explain_records::{Gain, Held, gain_of, may_grant, users_named};
use std::alloc::Global;

/// Atoms of one word of which the same is told.
#[derive(Drop)]
struct Part {
    may_grant: bool,
    atoms: Vec<Atom>,
    rows: Rows,
}

impl Part {
    /// The line above its rows: `ann may grant SELECT on pay @13`.
    fn put_head(&self, text: &mut Prose, past: &Past<'_>, by: &User, table: &Name) {
        text.put_name(&by.0);
        text.put(if self.may_grant {
            b" may grant ".as_slice()
        } else {
            b" may not grant ".as_slice()
        });
        put_privilege(text, past.tables, &self.atoms);
        text.put_all(&[b" on ", table.as_bytes(), b" "]);
        text.put_moment(past.now());
    }

    fn head(&self, teller: &Teller<'_>, by: &User, table: &Name) -> Prose {
        let mut left = teller.indented(0);
        self.put_head(&mut left, &teller.past, by, table);
        left
    }
}

/// That a grant would give a user something.
fn push_gain(teller: &mut Teller<'_>, user: &User, gain: Gain) {
    let mut left = teller.indented(2);
    left.put_all(&[b"to ", user.0.as_bytes()]);
    left.put(match gain {
        Gain::Privilege => b", who lacks it".as_slice(),
        Gain::OptionAlone => b", who has it without option".as_slice(),
    });
    teller.rows.push_alone(left);
}

/// Who could give, by what history, and to whom: to all of these.
#[derive(Clone, Copy)]
struct Giver<'a> {
    history: &'a History,
    held: &'a Held,
    users: &'a [User],
    by: User,
}

/// What a grant of the atom would give each of the users but him.
fn push_gains(teller: &mut Teller<'_>, giver: &Giver<'_>, atom: &Atom)
    requires lawful { AreLawful giver.now.history.now }
    requires held { AreHeld (lives_of giver.now.history.now) giver.now.held.now }
{
    for user in giver.users {
        if *user != giver.by {
            if let Some(gain) = gain_of(giver.history, giver.held, user, atom) {
                push_gain(teller, user, gain);
            }
        }
    }
}

/// What is told of an atom.
fn part_of(teller: &mut Teller<'_>, giver: &Giver<'_>, atom: &Atom) -> Result<Part, NoMemory>
    requires lawful { AreLawful giver.now.history.now }
    requires held { AreHeld (lives_of giver.now.history.now) giver.now.held.now }
{
    let mut atoms = Vec::new(teller.alloc);
    push_atom(&mut atoms, atom)?;
    let may_grant = may_grant(giver.history, giver.held, &giver.by, atom);
    if may_grant {
        push_gains(teller, giver, atom);
    }
    let rows = teller.take_rows();
    Ok(Part {
        may_grant,
        atoms,
        rows,
    })
}

/// Adds what is told of an atom to that of others of which the same is told, or by itself.
fn add_part(parts: &mut Vec<Part>, part: Part, atom: &Atom) -> Result<(), NoMemory> {
    for at in 0..parts.len() {
        let is_same = parts[at].may_grant == part.may_grant && parts[at].rows.same(&part.rows);
        if is_same && are_of_word(&parts[at].atoms, &atom.kind) {
            return push_atom(&mut parts[at].atoms, atom);
        }
    }
    parts.reserve(1)?;
    parts.push_reserved(part);
    Ok(())
}

/// What is told of the atoms.
fn parts_of(
    teller: &mut Teller<'_>,
    giver: &Giver<'_>,
    atoms: &[Atom],
) -> Result<Vec<Part>, NoMemory>
    requires lawful { AreLawful giver.now.history.now }
    requires held { AreHeld (lives_of giver.now.history.now) giver.now.held.now }
{
    let mut parts = Vec::new(teller.alloc);
    for atom in atoms {
        let part = part_of(teller, giver, atom)?;
        add_part(&mut parts, part, atom)?;
    }
    Ok(parts)
}

fn push_parts(teller: &mut Teller<'_>, by: &User, table: &Name, parts: Vec<Part>) {
    for part in parts {
        let head = part.head(teller, by, table);
        teller.rows.push_alone(head);
        let Part { rows, .. } = part;
        teller.rows.append(rows);
    }
}

/// Appends whom the user could give the atoms on the table to, and what that would give them.
pub fn put_givings(
    text: &mut Prose,
    alloc: Global,
    past: &Past<'_>,
    by: &User,
    table: &Name,
    atoms: &[Atom],
) -> Result<(), NoMemory> {
    let users = users_named(alloc, past.history.changes())?;
    let held = Held::read(alloc, past.history)?;
    let giver = Giver {
        history: past.history,
        held: &held,
        users: &users.listed,
        by: *by,
    };
    let mut teller = Teller::new(alloc, *past)?;
    let parts = parts_of(&mut teller, &giver, atoms);
    let parts = teller.rows.found(parts);
    push_parts(&mut teller, by, table, parts);
    teller.rows.write(text);
    Ok(())
}
