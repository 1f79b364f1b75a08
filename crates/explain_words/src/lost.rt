//! Rights that were lost, and how.

use crate::lives::{put_arrow, put_life, put_option};
use crate::past::Past;
use crate::prose::Prose;
use crate::rows::{Shown, shown_at};
use crate::teller::Teller;
use base_core::Moment;
use explain_core::{Alternative, Life, Missing, alternatives};

/// What a grant was missing, as a sentence has it.
fn put_missing(text: &mut Prose, missing: Missing) {
    match missing {
        Missing::Itself => text.put(b"it fell by the same REVOKE"),
        Missing::Option => text.put(b"it has no option"),
        Missing::OptionSince(end) => {
            text.put(b"its option was gone since ");
            text.put_moment(end);
        }
        Missing::OptionNow => text.put(b"its option fell by the same REVOKE"),
    }
}

/// Why a grant did not keep the other one.
fn put_reasons(text: &mut Prose, other: &Alternative) {
    match other.missing {
        Some(missing) => {
            put_missing(text, missing);
            if other.is_late {
                text.put(b", and is not earlier");
            }
        }
        None => text.put(b"it is not earlier"),
    }
}

/// That a grant did not keep another one, and why.
fn put_other(text: &mut Prose, other: &Alternative) {
    put_arrow(text, &other.life.grant);
    text.put(b" did not keep ");
    text.put_moment(other.unkept);
    text.put(b": ");
    put_reasons(text, other);
}

/// A grant that has fallen at the moment.
fn put_end(text: &mut Prose, past: &Past<'_>, life: &Life, at: Moment) {
    put_arrow(text, &life.grant);
    put_option(text, life);
    text.put(if past.is_struck(life) {
        b", revoked ".as_slice()
    } else {
        b", fell ".as_slice()
    });
    text.put_moment(at);
}

impl<'a> Teller<'a> {
    /// That a grant did not keep another one, and why.
    fn push_other(&mut self, other: &Alternative) {
        let mut left = self.indented(4);
        put_other(&mut left, other);
        self.rows.push_alone(left);
    }

    fn push_all_others(&mut self, others: &[Alternative]) {
        for index in 0..others.len() {
            match shown_at(index, others.len()) {
                Shown::Item => self.push_other(&others[index]),
                Shown::More(count) => self.rows.push_more(4, count),
                Shown::Nothing => {}
            }
        }
    }

    /// The grant that the REVOKE names, or whose option it names.
    fn push_named(&mut self, life: &Life, at: Moment) {
        let mut left = self.indented(4);
        if self.past.takes_options(at) {
            left.put(b"of the option of ");
            put_arrow(&mut left, &life.grant);
        } else {
            left.put(b"of ");
            put_life(&mut left, life);
        }
        self.push_quoted(left, life.grant.moment);
    }

    /// A grant that fell with the one before.
    fn push_fallen(&mut self, life: &Life) {
        let mut left = self.indented(4);
        left.put(b"so ");
        put_life(&mut left, life);
        left.put(b", fell");
        self.push_quoted(left, life.grant.moment);
    }

    /// What leads from the REVOKE down to a grant at this place of its descent.
    fn push_step(&mut self, descent: &[Life], index: usize, at: Moment) {
        let Some(life) = descent.get(index) else {
            return;
        };
        if index == 0 {
            return self.push_named(life, at);
        }
        if index + 1 < descent.len() {
            return self.push_fallen(life);
        }
        let mut left = self.indented(4);
        left.put(b"so this one fell");
        self.rows.push_alone(left);
    }

    /// The grants that lead from the REVOKE down to the last, if it does not name that.
    fn push_descent(&mut self, descent: &[Life], at: Moment) {
        if descent.len() == 1 {
            return;
        }
        for index in 0..descent.len() {
            match shown_at(index, descent.len()) {
                Shown::Item => self.push_step(descent, index, at),
                Shown::More(count) => self.rows.push_more(4, count),
                Shown::Nothing => {}
            }
        }
    }

    /// A grant that has fallen at the moment, and the REVOKE that it fell by.
    fn push_end(&mut self, life: &Life, at: Moment) {
        let mut left = self.indented(2);
        put_end(&mut left, &self.past, life, at);
        self.push_quoted(left, life.grant.moment);
        let mut left = self.indented(4);
        left.put(b"by this REVOKE");
        self.push_quoted(left, at);
    }

    fn push_descent_and_others(&mut self, lives: &[Life], descent: &[Life], at: Moment) {
        self.push_descent(descent, at);
        let others = self
            .rows
            .found(alternatives(self.alloc, lives, descent, at));
        self.push_all_others(&others);
    }

    /// How a grant fell, and why no other of these lives, which are all of its privilege, kept it.
    fn push_loss(&mut self, lives: &[Life], life: &Life) {
        let Some(at) = life.fell else {
            return;
        };
        self.push_end(life, at);
        let descent = self.past.descent_to(self.alloc, life.grant.number);
        let descent = self.rows.found(descent);
        self.push_descent_and_others(lives, &descent, at);
    }

    /// How each of the grants fell that were made to a user.
    pub fn push_losses(&mut self, lives: &[Life], given: &[Life]) {
        for at in 0..given.len() {
            match shown_at(at, given.len()) {
                Shown::Item => self.push_loss(lives, &given[at]),
                Shown::More(count) => self.rows.push_more(2, count),
                Shown::Nothing => {}
            }
        }
    }
}
