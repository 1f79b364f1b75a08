//! Every grant that fell.

use crate::folds::{Fold, folds_of};
use crate::lives::{put_arrow, put_option};
use crate::past::Past;
use crate::privileges::put_privilege;
use crate::prose::Prose;
use crate::quoting::Quotes;
use base_core::NoMemory;
use explain_core::Life;
use std::alloc::Global;

/// The lives of the grants that fell.
fn fallen(alloc: Global, past: &Past<'_>) -> Result<Vec<Life>, NoMemory> {
    let mut lives = Vec::new(alloc);
    for life in past.history.lives() {
        if life.fell.is_some() {
            lives.reserve(1)?;
            lives.push_reserved(*life);
        }
    }
    Ok(lives)
}

/// The line of a grant that fell: `@15 di -> eve, SELECT on pay, fell @23 by line 25: ..`.
fn put_fallen(text: &mut Prose, quotes: &mut Quotes, past: &Past<'_>, fold: &Fold) {
    let Some(at) = fold.life.fell else {
        return;
    };
    put_arrow(text, &fold.life.grant);
    text.put(b", ");
    put_privilege(text, past.tables, &fold.atoms);
    text.put_all(&[b" on ", fold.life.grant.atom.table.as_bytes()]);
    put_option(text, &fold.life);
    text.put(if past.is_struck(&fold.life) {
        b", revoked ".as_slice()
    } else {
        b", fell ".as_slice()
    });
    text.put_moment(at);
    text.put(b" by ");
    text.append(&quotes.of(past, at));
    text.put(b"\n");
}

/// Appends a line for each grant that fell, those of one statement together that differ in their
/// columns alone.
pub fn put_all_fallen(text: &mut Prose, alloc: Global, past: &Past<'_>) -> Result<(), NoMemory> {
    let mut quotes = Quotes::new(alloc)?;
    let lives = text.found(fallen(alloc, past));
    let folds = text.found(folds_of(alloc, &lives));
    for fold in &folds {
        put_fallen(text, &mut quotes, past, fold);
    }
    Ok(())
}
