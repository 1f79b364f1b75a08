//! Grants and chains of them, as they are told.

use crate::prose::Prose;
use explain_core::Life;
use grants_core::Grant;

/// The longest chain that is told whole in one line.
const MOST_LINKS: usize = 8;

/// How many of its first links, and of its last, are told of a longer one.
const ENDS: usize = 4;

/// When a grant was made, by whom, and to whom: `@12 ann -> bob`.
pub fn put_arrow(text: &mut Prose, grant: &Grant) {
    text.put_moment(grant.moment);
    text.put(b" ");
    text.put_name(&grant.grantor.0);
    text.put(b" -> ");
    text.put_name(&grant.grantee.0);
}

/// That a grant has the option, if it has, or until when it had it.
pub fn put_option(text: &mut Prose, life: &Life) {
    if !life.grant.option {
        return;
    }
    text.put(b", with option");
    match life.option_end {
        Some(end) if life.fell != Some(end) => {
            text.put(b" until ");
            text.put_moment(end)
        }
        _ => {}
    }
}

/// A grant with its option: `@12 ann -> bob, with option`.
pub fn put_life(text: &mut Prose, life: &Life) {
    put_arrow(text, &life.grant);
    put_option(text, life);
}

/// A further link of a chain: ` -@26-> eve`.
fn put_link(text: &mut Prose, grant: &Grant) {
    text.put(b" -");
    text.put_moment(grant.moment);
    text.put(b"-> ");
    text.put_name(&grant.grantee.0);
}

fn put_links(text: &mut Prose, links: &[Grant]) {
    for grant in links {
        put_link(text, grant);
    }
}

/// A chain in one line: `ann -@25-> cy -@26-> eve`. The middle of a long one is left out.
pub fn put_chain(text: &mut Prose, chain: &[Grant]) {
    let Some(first) = chain.first() else {
        return;
    };
    text.put_name(&first.grantor.0);
    if chain.len() <= MOST_LINKS {
        return put_links(text, chain);
    }
    put_links(text, &chain[..ENDS]);
    text.put(b" .. ");
    text.put_number((chain.len() - 2 * ENDS) as u64);
    text.put(b" more ..");
    put_links(text, &chain[chain.len() - ENDS..]);
}
