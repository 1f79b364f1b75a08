//! Rights that are held, and by which chain.

use crate::lives::put_life;
use crate::past::Owned;
use crate::rows::{Shown, shown_at};
use crate::teller::Teller;
use base_core::{Name, NoMemory};
use explain_core::Life;
use grants_core::Grant;
use std::alloc::Global;

/// Those of the grants that are in force, but for the one of this number.
fn further_of(alloc: Global, given: &[Life], number: u64) -> Result<Vec<Life>, NoMemory> {
    let mut further = Vec::new(alloc);
    for life in given {
        if life.fell.is_none() && life.grant.number != number {
            further.reserve(1)?;
            further.push_reserved(*life);
        }
    }
    Ok(further)
}

impl<'a> Teller<'a> {
    /// `ann owns pay since @1`, behind so many blanks.
    pub fn push_owner(&mut self, blanks: usize, table: &Name, owned: &Owned) {
        let mut left = self.indented(blanks);
        left.put_name(&owned.owner.0);
        left.put(b" owns ");
        left.put_name(table);
        left.put(b" since ");
        left.put_moment(owned.since);
        self.push_quoted(left, owned.since);
    }

    /// A grant, behind so many blanks.
    fn push_life(&mut self, blanks: usize, life: &Life) {
        let mut left = self.indented(blanks);
        put_life(&mut left, life);
        self.push_quoted(left, life.grant.moment);
    }

    /// The grant of this number, as it stands now.
    fn push_link(&mut self, grant: &Grant) {
        if let Some(life) = self.past.history.lives().get(grant.number as usize) {
            self.push_life(2, life);
        }
    }

    /// The grants of a chain, from the owner down.
    pub fn push_chain(&mut self, chain: &[Grant]) {
        for at in 0..chain.len() {
            match shown_at(at, chain.len()) {
                Shown::Item => self.push_link(&chain[at]),
                Shown::More(count) => self.rows.push_more(2, count),
                Shown::Nothing => {}
            }
        }
    }

    fn push_besides(&mut self) {
        let mut left = self.indented(2);
        left.put(b"and besides by");
        self.rows.push_alone(left);
    }

    /// The other grants in force of the same to him, than the one of this number.
    pub fn push_further(&mut self, given: &[Life], number: u64) {
        let further = self.rows.found(further_of(self.alloc, given, number));
        if !further.is_empty() {
            self.push_besides();
        }
        for at in 0..further.len() {
            match shown_at(at, further.len()) {
                Shown::Item => self.push_life(2, &further[at]),
                Shown::More(count) => self.rows.push_more(2, count),
                Shown::Nothing => {}
            }
        }
    }
}
