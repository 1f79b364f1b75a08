//! What a change that is only supposed would take, and from whom.
ghost use Rattle.std.specs.Prelude.{◌<◌, ◌≤◌, length};

use crate::folds::{Fold, folds_of};
use crate::lives::{put_arrow, put_chain, put_option};
use crate::past::Past;
use crate::privileges::{are_of_word, atoms_of_table, push_atom, put_privilege};
use crate::prose::Prose;
use crate::quoting::Quotes;
use crate::teller::Teller;
use base_core::{Atom, Moment, Name, NoMemory, User};
use explain_core::{Life, Taking};
use explain_records::{Outcome, Outcomes};
use grants_core::{Holding, Key};
use indexmap::IndexMap;
use monitor_core::columns_of;
use std::alloc::Global;

/// Atoms of one word of which the same is left to a user.
#[derive(Drop)]
struct Left {
    atoms: Vec<Atom>,
    /// Whether he keeps them.
    keeps: bool,
    /// By what he does.
    by: Prose,
}

/// How a grant is taken.
fn put_taking(text: &mut Prose, past: &Past<'_>, life: &Life, at: Moment) {
    text.put(match past.history.taking(life, at) {
        Taking::Revoked => b"revoked: ".as_slice(),
        Taking::Fell => b"falls: ".as_slice(),
        Taking::OptionRevoked => b"option revoked: ".as_slice(),
    });
}

/// Whether the atoms of the fold are all that the change of the moment names.
fn is_all_named(past: &Past<'_>, fold: &Fold, at: Moment) -> bool {
    let named = past.atoms_named_at(at);
    named.len() == fold.atoms.len() && named.iter().all(|atom| fold.atoms.contains(atom))
}

/// Whether the second fold is of the statement of the first, and differs in its user alone.
fn are_alike(past: &Past<'_>, one: &Fold, other: &Fold) -> bool {
    one.life.grant.moment == other.life.grant.moment
        && one.life.fell == other.life.fell
        && one.life.option_end == other.life.option_end
        && past.is_struck(&one.life) == past.is_struck(&other.life)
        && one.atoms == other.atoms
}

/// How many folds, from the first on, are alike.
fn alike_ahead(past: &Past<'_>, folds: &[Fold]) -> usize
    requires { 0 < length folds.now }
    ensures some { 0 < result }
    ensures most { result ≤ length folds.now }
{
    for count in 1..folds.len() {
        if !are_alike(past, &folds[0], &folds[count]) {
            return count;
        }
    }
    folds.len()
}

/// The grantees of folds, each with a comma before it.
fn put_more_grantees(text: &mut Prose, folds: &[Fold]) {
    for fold in folds {
        text.put_all(&[b", ", fold.life.grant.grantee.0.as_bytes()]);
    }
}

/// `falls: @13 bob -> cy, di, with option`, of a fold and of others that are alike. The privilege is
/// told where it is not all that the change names.
fn put_taken(text: &mut Prose, past: &Past<'_>, first: &Fold, others: &[Fold], at: Moment) {
    put_taking(text, past, &first.life, at);
    put_arrow(text, &first.life.grant);
    put_more_grantees(text, others);
    if !is_all_named(past, first, at) {
        text.put(b", ");
        put_privilege(text, past.tables, &first.atoms);
    }
    if first.life.fell == Some(at) {
        put_option(text, &first.life);
    }
}

/// The row of folds that are alike, with the line that granted them.
fn push_taken(teller: &mut Teller<'_>, folds: &[Fold], at: Moment) {
    let Some((first, others)) = folds.split_first() else {
        return;
    };
    let mut left = teller.indented(2);
    put_taken(&mut left, &teller.past, first, others, at);
    teller.push_quoted(left, first.life.grant.moment);
}

fn push_all_taken(teller: &mut Teller<'_>, lives: &[Life], at: Moment) {
    let folds = teller.rows.found(folds_of(teller.alloc, lives));
    let mut rest = folds.as_slice();
    while !rest.is_empty() {
        let (front, behind) = rest.split_at(alike_ahead(&teller.past, rest));
        push_taken(teller, front, at);
        rest = behind;
    }
}

/// By what a user keeps a privilege.
fn put_kept(text: &mut Prose, teller: &Teller<'_>, outcome: Outcome, is_owner: bool) {
    if is_owner {
        return text.put(b" as its owner");
    }
    if let Some(number) = outcome.kept {
        text.put(b" by ");
        let chain = text.found(teller.past.chain_to(teller.alloc, number));
        put_chain(text, &chain);
    }
    if outcome.lost_option && !outcome.has_option {
        text.put(b", but could not grant it on");
    }
}

/// Adds an atom to those of which the same is left, or by itself.
fn add_left(
    alloc: Global,
    lefts: &mut Vec<Left>,
    atom: &Atom,
    keeps: bool,
    by: Prose,
) -> Result<(), NoMemory> {
    for at in 0..lefts.len() {
        let is_same = lefts[at].keeps == keeps && lefts[at].by.same(&by);
        if is_same && are_of_word(&lefts[at].atoms, &atom.kind) {
            return push_atom(&mut lefts[at].atoms, atom);
        }
    }
    let mut atoms = Vec::new(alloc);
    push_atom(&mut atoms, atom)?;
    lefts.reserve(1)?;
    lefts.push_reserved(Left { atoms, keeps, by });
    Ok(())
}

/// What is left to a user of the atoms.
fn lefts_of(
    teller: &Teller<'_>,
    outcomes: &Outcomes,
    user: &User,
    atoms: &[Atom],
) -> Result<Vec<Left>, NoMemory> {
    let mut lefts = Vec::new(teller.alloc);
    for atom in atoms {
        let holding = Holding {
            user: *user,
            privilege: Key(*atom),
        };
        if let Some(outcome) = outcomes.of_holding(&holding) {
            let is_owner = teller.past.history.owns(user, atom);
            let keeps = is_owner || outcome.kept.is_some();
            let mut by = teller.indented(0);
            if keeps {
                put_kept(&mut by, teller, outcome, is_owner);
            }
            add_left(teller.alloc, &mut lefts, atom, keeps, by)?;
        }
    }
    Ok(lefts)
}

/// `  bob would lose SELECT on pay`, for each privilege of his of which a grant is taken.
fn push_lefts(teller: &mut Teller<'_>, user: &User, table: &Name, lefts: &[Left]) {
    for one in lefts {
        let mut left = teller.indented(2);
        left.put_name(&user.0);
        left.put(if one.keeps {
            b" would keep ".as_slice()
        } else {
            b" would lose ".as_slice()
        });
        put_privilege(&mut left, teller.past.tables, &one.atoms);
        left.put_all(&[b" on ", table.as_bytes()]);
        left.append(&one.by);
        teller.rows.push_alone(left);
    }
}

/// The users whose grants are taken, each once.
fn users_of(alloc: Global, outcomes: &Outcomes) -> Result<Vec<User>, NoMemory> {
    let mut seen: IndexMap<Name, ()> = IndexMap::new(alloc);
    let mut users = Vec::new(alloc);
    for (holding, _) in outcomes.of.iter() {
        if seen.get(&holding.user.0).is_none() {
            seen.insert(holding.user.0, ())?;
            users.reserve(1)?;
            users.push_reserved(holding.user);
        }
    }
    Ok(users)
}

/// What is left to each user whose grants on the table are taken.
fn push_outcomes(teller: &mut Teller<'_>, outcomes: &Outcomes, table: &Name) {
    let columns = columns_of(teller.past.tables, *table);
    let atoms = teller
        .rows
        .found(atoms_of_table(teller.alloc, *table, columns));
    let users = teller.rows.found(users_of(teller.alloc, outcomes));
    for user in &users {
        let lefts = lefts_of(teller, outcomes, user, &atoms);
        let lefts = teller.rows.found(lefts);
        push_lefts(teller, user, table, &lefts);
    }
}

/// The last change, which is only supposed.
fn put_supposed(text: &mut Prose, quotes: &mut Quotes, past: &Past<'_>) {
    let at = past.now();
    text.put_moment(at);
    text.put(b" would be ");
    quotes.put_statement(text, past, at);
}

fn push_supposed(teller: &mut Teller<'_>) {
    let mut left = teller.indented(0);
    put_supposed(&mut left, &mut teller.quotes, &teller.past);
    teller.rows.push_alone(left);
}

fn push_nothing_taken(teller: &mut Teller<'_>) {
    let mut left = teller.indented(2);
    left.put(b"it takes nothing from anybody");
    teller.rows.push_alone(left);
}

/// What the change of the moment takes: these, of one table.
fn push_consequences(teller: &mut Teller<'_>, lives: &[Life], at: Moment) {
    let Some(first) = lives.first() else {
        return push_nothing_taken(teller);
    };
    push_all_taken(teller, lives, at);
    match Outcomes::read(teller.alloc, teller.past.history, at) {
        Ok(outcomes) => push_outcomes(teller, &outcomes, &first.grant.atom.table),
        Err(NoMemory) => teller.rows.note(true),
    }
}

/// Pushes all that is told of the last change.
fn push_all(teller: &mut Teller<'_>) {
    let at = teller.past.now();
    push_supposed(teller);
    let lives = teller.past.history.taken_at(teller.alloc, at);
    let lives = teller.rows.found(lives);
    push_consequences(teller, &lives, at);
}

/// Appends what the last change takes, which is only supposed: the grants that it revokes, those
/// that fall with them, and who loses what, or keeps it by which chain.
pub fn put_consequences(text: &mut Prose, alloc: Global, past: &Past<'_>) -> Result<(), NoMemory> {
    let mut teller = Teller::new(alloc, *past)?;
    push_all(&mut teller);
    teller.rows.write(text);
    Ok(())
}
