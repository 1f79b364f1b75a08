//! Why a user holds a privilege.
ghost use Rattle.std.specs.Prelude.{◌≡◌, ◌↔◌, ◌&&◌, true, false, not, is_none, is_some, IsTrue, IfOk, MatchOption, Some, None, slice_get};
ghost use Rattle.std.specs.List.{list_any};
ghost use Rattle.grants_core.specs.Owners.{owns};
ghost use Rattle.grants_core.specs.Content.{gives};
ghost use Rattle.grants_core.specs.History.{owners_after, in_force_after};
ghost use Rattle.grants_core.specs.Noted.{may_grant_after};
ghost use Rattle.explain_core.specs.declared.life.Life.{Life as lives};
ghost use Rattle.explain_core.specs.Lives.{lives_of};
ghost use Rattle.explain_core.specs.Chains.{CreatesAt, IsWhy, holds_after};

use crate::history::History;
use crate::life::Life;
use base_core::{Atom, Moment, NoMemory, User};
use grants_core::{Change, Grant};
use std::alloc::Global;

/// Why a user holds a privilege, or why he does not.
#[derive(Drop)]
pub enum Why {
    /// He owns the table, which was created at this moment.
    Owns { since: Moment },
    /// By this chain of grants in force, from the owner down to him.
    Holds { chain: Vec<Grant> },
    /// He does not: each of these, which is every grant of it that was made to him, has fallen.
    Lacks { given: Vec<Life> },
}

/// Whether the change creates the atom's table for the user.
fn creates(change: &Change, user: &User, atom: &Atom) -> bool
    ensures { IsTrue result ↔ (change.now ≡ Change.Create atom.now.table user.now) }
{
    match change {
        Change::Create { table, owner } => *table == atom.table && *owner == *user,
        Change::Grant { .. }
        | Change::Revoke { .. }
        | Change::RevokeOption { .. }
        | Change::Other => false,
    }
}

/// Whether the life's grant is in force, and gives the user the atom with its option.
fn is_optioned(life: &Life, user: &User, atom: &Atom) -> bool
    ensures { result ≡ (is_none life.now.fell
        && (not (is_some life.now.option_end) && gives user.now atom.now life.now.grant)) }
{
    life.fell.is_none() && life.option_end.is_none() && life.grant.gives(user, atom)
}

fn any_optioned(lives: &[Life], user: &User, atom: &Atom) -> bool
    ensures { result ≡ list_any (λ life. is_none life.fell
        && (not (is_some life.option_end) && gives user.now atom.now life.grant)) lives.now }
{
    lives.iter().any(|life| is_optioned(life, user, atom))
}

impl History {
    /// The moment at which the user created the atom's table, if he did.
    fn owned_since(&self, user: &User, atom: &Atom) -> Option<Moment>
        ensures { MatchOption result (owns (owners_after self.now) user.now atom.now ≡ false)
            (λ since. (owns (owners_after self.now) user.now atom.now ≡ true)
            × CreatesAt self.now since user.now atom.now) }
    {
        let mut moment = 0;
        for change in &self.changes {
            moment += 1;
            if creates(change, user, atom) {
                return Some(Moment(moment));
            }
        }
        None
    }

    /// The number of the first grant in force that gives the user the atom.
    fn standing(&self, user: &User, atom: &Atom) -> Option<u64>
        ensures { MatchOption result
            (list_any (gives user.now atom.now) (in_force_after self.now) ≡ false)
            (λ number. (life : lives) × (slice_get (lives_of self.now) number ≡ Some life)
            × (life.fell ≡ None) × (gives user.now atom.now life.grant ≡ true)) }
    {
        for life in &self.lives {
            if life.fell.is_none() && life.grant.gives(user, atom) {
                return Some(life.grant.number);
            }
        }
        None
    }

    /// Whether the user holds the atom: he owns its table, or a grant in force gives it to him.
    pub fn holds(&self, user: &User, atom: &Atom) -> bool
        ensures { result ≡ holds_after self.now user.now atom.now }
    {
        let _ = &self.lives;
        self.owns(user, atom) || self.standing(user, atom).is_some()
    }

    /// Whether the user may grant the atom on: he owns its table, or a grant in force gives it to him with its option.
    pub fn may_grant(&self, user: &User, atom: &Atom) -> bool
        ensures { result ≡ may_grant_after self.now user.now atom.now }
    {
        self.owns(user, atom) || any_optioned(&self.lives, user, atom)
    }

    /// Why the user holds the atom, or why he does not. `NoMemory` where a request for memory was
    /// refused.
    pub fn why(&self, alloc: Global, user: &User, atom: &Atom) -> Result<Why, NoMemory>
        ensures { IfOk result (λ why. IsWhy self.now user.now atom.now why) }
    {
        let _ = &self.lives;
        if let Some(since) = self.owned_since(user, atom) {
            return Ok(Why::Owns { since });
        }
        match self.standing(user, atom) {
            Some(number) => {
                let chain = self.chain(alloc, number)?;
                Ok(Why::Holds { chain })
            }
            None => {
                let given = self.given_to(alloc, user, atom)?;
                Ok(Why::Lacks { given })
            }
        }
    }
}
