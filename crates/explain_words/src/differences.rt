//! What came, fell and changed since a moment, for people.

use crate::folds::{Fold, folds_of};
use crate::lives::{put_arrow, put_option};
use crate::past::Past;
use crate::privileges::put_privilege;
use crate::prose::Prose;
use crate::teller::Teller;
use base_core::{Moment, NoMemory};
use explain_core::Life;
use explain_records::{Difference, difference_of};
use grants_core::Change;
use std::alloc::Global;

/// The lives of the grants of which something became since the moment.
fn changed_since(alloc: Global, past: &Past<'_>, at: Moment) -> Result<Vec<Life>, NoMemory> {
    let mut lives = Vec::new(alloc);
    for life in past.history.lives() {
        if difference_of(life, at).is_some() {
            lives.reserve(1)?;
            lives.push_reserved(*life);
        }
    }
    Ok(lives)
}

/// The moment at which a right came, fell or lost its option.
fn moment_of(life: &Life, difference: Difference) -> Option<Moment> {
    match difference {
        Difference::Came => Some(life.grant.moment),
        Difference::Fell => life.fell,
        Difference::LostOption => life.option_end,
    }
}

fn difference_words(past: &Past<'_>, life: &Life, difference: Difference) -> &'static [u8] {
    match difference {
        Difference::Came => b"came: ",
        Difference::Fell if past.is_struck(life) => b"revoked: ",
        Difference::Fell => b"fell: ",
        Difference::LostOption => b"option revoked: ",
    }
}

/// `came: @12 ann -> cy, SELECT on pay, with option`.
fn put_difference(text: &mut Prose, past: &Past<'_>, fold: &Fold, difference: Difference) {
    text.put(difference_words(past, &fold.life, difference));
    put_arrow(text, &fold.life.grant);
    text.put(b", ");
    put_privilege(text, past.tables, &fold.atoms);
    text.put_all(&[b" on ", fold.life.grant.atom.table.as_bytes()]);
    put_option(text, &fold.life);
}

/// What became of grants, with the line by which it did.
fn push_difference(teller: &mut Teller<'_>, fold: &Fold, at: Moment) {
    let Some(difference) = difference_of(&fold.life, at) else {
        return;
    };
    let mut left = teller.indented(0);
    put_difference(&mut left, &teller.past, fold, difference);
    match moment_of(&fold.life, difference) {
        Some(when) => teller.push_quoted(left, when),
        None => teller.rows.push_alone(left),
    }
}

/// That a table came, whose owner holds all on it.
fn push_owner(teller: &mut Teller<'_>, change: &Change, now: Moment) {
    if let Change::Create { table, owner } = change {
        let mut left = teller.indented(0);
        left.put_all(&[b"came: ", owner.0.as_bytes(), b" owns ", table.as_bytes()]);
        teller.push_quoted(left, now);
    }
}

/// The tables that came since the moment.
fn push_owners(teller: &mut Teller<'_>, changes: &[Change], at: Moment) {
    for place in 0..changes.len() {
        let now = Moment(place as u64 + 1);
        if at.0 < now.0 {
            push_owner(teller, &changes[place], now);
        }
    }
}

fn push_differences(teller: &mut Teller<'_>, folds: &[Fold], at: Moment) {
    for fold in folds {
        push_difference(teller, fold, at);
    }
}

/// Appends what came, fell and lost its option since the moment: a line for each, those of one statement together that
/// differ in their columns alone.
pub fn put_differences(
    text: &mut Prose,
    alloc: Global,
    past: &Past<'_>,
    at: Moment,
) -> Result<(), NoMemory> {
    let mut teller = Teller::new(alloc, *past)?;
    push_owners(&mut teller, past.history.changes(), at);
    let lives = teller.rows.found(changed_since(alloc, past, at));
    let folds = teller.rows.found(folds_of(alloc, &lives));
    push_differences(&mut teller, &folds, at);
    teller.rows.write(text);
    Ok(())
}
