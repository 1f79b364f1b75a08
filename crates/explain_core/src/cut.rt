//! What would take a privilege from a user.
ghost use Rattle.std.specs.Prelude.{◌≡◌, ◌≤◌, ◌&&◌, ◌++◌, ◌∷◌, [], true, is_none, IfOk, All, drop, filter, length, take};
ghost use Rattle.std.specs.List.{list_any};
ghost use Rattle.base_core.specs.Privileges.{same_atom};
ghost use Rattle.base_core.specs.Users.{same_user};
ghost use Rattle.grants_core.specs.Content.{gives, has_made, names};
ghost use Rattle.grants_core.specs.History.{in_force_after};
ghost use Rattle.explain_core.specs.Losses.{is_of_atom, holds_without, IsLoss, AreNeeded, AreAllOf};
ghost use Rattle.explain_core.specs.Losses.{IsLossBy, IsLossAlong};
ghost use Rattle.explain_core.specs.Cuts.{IsCut};
ghost use Rattle.explain_core.specs.Listed.{AreSeen};

use crate::history::History;
use crate::life::Life;
use crate::users::{Users, users_of};
use crate::why::Why;
use base_core::{Atom, NoMemory, User};
use grants_core::{Grant, KeptGrants, Owners};
use std::alloc::Global;

/// A revocation: its user, and from whom he revokes.
#[derive(Drop)]
pub struct Cut {
    pub by: User,
    pub whom: Vec<User>,
}

/// The owners, and the grants of one atom in force.
#[derive(Clone, Copy)]
struct Standing<'a> {
    owners: &'a Owners,
    atom: &'a Atom,
    grants: &'a [Grant],
}

/// The users but for those from one place up to another.
fn all_but(alloc: Global, users: &[User], from: usize, to: usize) -> Result<Vec<User>, NoMemory>
    requires some { from ≤ to }
    requires within { to ≤ length users.now }
    ensures { IfOk result
        (λ rest. rest.items ≡ take from users.now ++ drop to users.now) }
{
    let mut rest = Vec::with_capacity(alloc, users.len() - (to - from))?;
    rest.extend_from_slice(&users[..from])?;
    rest.extend_from_slice(&users[to..])?;
    Ok(rest)
}

impl<'a> Standing<'a> {
    /// To whom the grants by this user are, each once.
    fn grantees(&self, alloc: Global, by: &User) -> Result<Vec<User>, NoMemory>
        requires { All (λ g. is_of_atom self.now.atom.now g ≡ true) self.now.grants.now }
        ensures made { IfOk result (λ whom. All
            (λ v. has_made self.now.grants.now by.now v self.now.atom.now ≡ true) whom.items) }
        ensures all { IfOk result (λ whom. AreAllOf by.now self.now.grants.now whom.items) }
    {
        let mut whom = Users::new(alloc);
        for grant in self.grants {
            if grant.grantor == *by {
                let Ok(()) = whom.add(&grant.grantee) else {
                    drop(whom);
                    return Err(NoMemory);
                };
            }
        }
        let Users { listed, seen } = whom;
        drop(seen);
        Ok(listed)
    }

    /// Whether the user, who does not own the table, would hold the atom if this one revoked it
    /// from these.
    fn holds_without(
        &self,
        alloc: Global,
        user: &User,
        by: &User,
        whom: &[User],
    ) -> Result<bool, NoMemory>
        ensures { IfOk result (λ holds. holds ≡ holds_without self.now.owners.now
            self.now.grants.now self.now.atom.now user.now by.now whom.now) }
    {
        let whom = users_of(alloc, whom)?;
        let holds = self.holds_without_these(alloc, user, by, &whom);
        drop(whom);
        holds
    }

    /// The same, by a set of these.
    fn holds_without_these(
        &self,
        alloc: Global,
        user: &User,
        by: &User,
        whom: &Users,
    ) -> Result<bool, NoMemory>
        requires { AreSeen whom.now }
        ensures { IfOk result (λ holds. holds ≡ holds_without self.now.owners.now
            self.now.grants.now self.now.atom.now user.now by.now whom.now.listed.items) }
    {
        let mut kept = KeptGrants::new(alloc);
        for grant in self.grants {
            if !is_named(grant, by, self.atom, whom) {
                let Ok(()) = kept.add(self.owners, grant) else {
                    drop(kept);
                    return Err(NoMemory);
                };
            }
        }
        let holds = gives_any(&kept.grants, user, self.atom);
        drop(kept);
        Ok(holds)
    }

    /// Those of the users from whom this one has to revoke, so that the other loses the atom. Some are left out at
    /// once, from the last on: twice as many as the time before where the rest is enough, and else half as many,
    /// down to a single one, who stays. So it is tried some times for each who stays, and not for each who does not.
    fn needed(
        &self,
        alloc: Global,
        user: &User,
        by: &User,
        whom: Vec<User>,
    ) -> Result<Vec<User>, NoMemory>
        requires { IsLoss self.now.owners.now self.now.grants.now self.now.atom.now user.now by.now
            whom.items }
        ensures loss { IfOk result (λ needed. IsLoss self.now.owners.now self.now.grants.now
            self.now.atom.now user.now by.now needed.items) }
        ensures needed { IfOk result (λ needed. AreNeeded self.now.owners.now
            self.now.grants.now self.now.atom.now user.now by.now needed.items) }
    {
        let mut needed = whom;
        let mut tried = needed.len();
        let mut step = 1;
        while tried > 0 {
            let from = tried.saturating_sub(step);
            let rest = all_but(alloc, &needed, from, tried)?;
            if !self.holds_without(alloc, user, by, &rest)? {
                needed = rest;
                tried = from;
                step = step.saturating_mul(2);
            } else if from + 1 == tried {
                tried = from;
                step = 1;
            } else {
                step = (tried - from) / 2;
            }
        }
        Ok(needed)
    }

    /// A revocation by this user that takes the atom from the other, if one does. One by the
    /// owner does.
    fn cut_by(&self, alloc: Global, user: &User, by: &User) -> Result<Option<Cut>, NoMemory>
        requires { All (λ g. is_of_atom self.now.atom.now g ≡ true) self.now.grants.now }
        ensures { IfOk result (λ cut. IsLossBy self.now.owners.now self.now.grants.now
            self.now.atom.now user.now by.now cut) }
    {
        let whom = self.grantees(alloc, by)?;
        if self.holds_without(alloc, user, by, &whom)? {
            return Ok(None);
        }
        let whom = self.needed(alloc, user, by, whom)?;
        Ok(Some(Cut { by: *by, whom }))
    }

    /// The first that takes it from him, by the grantors of the chain, from the last to the owner.
    fn cut(&self, alloc: Global, user: &User, chain: &[Grant]) -> Result<Option<Cut>, NoMemory>
        requires { All (λ g. is_of_atom self.now.atom.now g ≡ true) self.now.grants.now }
        ensures { IfOk result (λ cut. IsLossAlong self.now.owners.now self.now.grants.now
            self.now.atom.now user.now chain.now cut) }
    {
        for at in (0..chain.len()).rev() {
            if let Some(cut) = self.cut_by(alloc, user, &chain[at].grantor)? {
                return Ok(Some(cut));
            }
        }
        Ok(None)
    }
}

/// Whether the user made the grant, of this atom.
fn is_by(grant: &Grant, by: &User, atom: &Atom) -> bool
    ensures { result ≡ (same_user by.now grant.now.grantor && same_atom atom.now grant.now.atom) }
{
    *by == grant.grantor && *atom == grant.atom
}

/// Whether a revocation of the atom by this user from these names the grant.
fn is_named(grant: &Grant, by: &User, atom: &Atom, whom: &Users) -> bool
    requires { AreSeen whom.now }
    ensures { result ≡ names by.now (atom.now ∷ []) whom.now.listed.items grant.now }
{
    if !is_by(grant, by, atom) {
        return false;
    }
    whom.has(&grant.grantee)
}

/// Whether one of the grants gives the user the atom.
fn gives_any(grants: &[Grant], user: &User, atom: &Atom) -> bool
    ensures { result ≡ list_any (gives user.now atom.now) grants.now }
{
    grants.iter().any(|grant| grant.gives(user, atom))
}

/// Whether the grant stands, and is of the atom.
fn stands_of(life: &Life, atom: &Atom) -> bool
    ensures { result ≡ (is_none life.now.fell && is_of_atom atom.now life.now.grant) }
{
    life.fell.is_none() && life.grant.atom == *atom
}

impl History {
    /// The grants of the atom in force, in order.
    fn standing_of(&self, alloc: Global, atom: &Atom) -> Result<Vec<Grant>, NoMemory>
        ensures { IfOk result (λ grants. grants.items
            ≡ filter (is_of_atom atom.now) (in_force_after self.now)) }
    {
        let mut grants = Vec::new(alloc);
        for life in &self.lives {
            if stands_of(life, atom) {
                grants.push(life.left())?;
            }
        }
        Ok(grants)
    }

    /// A revocation after which the user no longer holds the atom: by the grantor who is nearest to
    /// him of those on whom all his grants rest, and from no one who could be left out. None
    /// exactly if he owns the table or does not hold it. `NoMemory` where a request for memory was
    /// refused.
    pub fn cut(&self, alloc: Global, user: &User, atom: &Atom) -> Result<Option<Cut>, NoMemory>
        ensures { IfOk result (λ cut. IsCut self.now user.now atom.now cut) }
    {
        let Why::Holds { chain } = self.why(alloc, user, atom)? else {
            return Ok(None);
        };
        let grants = self.standing_of(alloc, atom)?;
        let standing = Standing {
            owners: &self.owners,
            atom,
            grants: &grants,
        };
        standing.cut(alloc, user, &chain)
    }
}
