//! Grants that one statement made of several columns, told together.

use crate::privileges::have_one_word;
use base_core::{Atom, Moment, NoMemory};
use explain_core::Life;
use std::alloc::Global;

/// Grants of one statement to one user, of one word and with one fate: the first, and the atoms of
/// all.
#[derive(Drop)]
pub struct Fold {
    pub life: Life,
    pub atoms: Vec<Atom>,
}

impl Fold {
    /// Whether the life is of them, where it is of their statement.
    fn has(&self, life: &Life) -> bool {
        let (one, other) = (&self.life, life);
        one.grant.grantee == other.grant.grantee
            && one.grant.atom.table == other.grant.atom.table
            && have_one_word(&one.grant.atom.kind, &other.grant.atom.kind)
            && one.fell == other.fell
            && one.option_end == other.option_end
    }
}

/// Adds a life to those that it is of, from this place on, or by itself.
fn add_life(
    alloc: Global,
    folds: &mut Vec<Fold>,
    from: usize,
    life: &Life,
) -> Result<(), NoMemory> {
    for at in from..folds.len() {
        if folds[at].has(life) {
            folds[at].atoms.reserve(1)?;
            folds[at].atoms.push_reserved(life.grant.atom);
            return Ok(());
        }
    }
    let mut atoms = Vec::new(alloc);
    atoms.reserve(1)?;
    atoms.push_reserved(life.grant.atom);
    folds.reserve(1)?;
    folds.push_reserved(Fold { life: *life, atoms });
    Ok(())
}

/// The lives, which come in the order of their moments, those together that differ in their columns
/// alone.
pub fn folds_of(alloc: Global, lives: &[Life]) -> Result<Vec<Fold>, NoMemory> {
    let mut folds: Vec<Fold> = Vec::new(alloc);
    let mut moment = Moment(0);
    let mut from = 0;
    for life in lives {
        if life.grant.moment != moment {
            moment = life.grant.moment;
            from = folds.len();
        }
        add_life(alloc, &mut folds, from, life)?;
    }
    Ok(folds)
}
