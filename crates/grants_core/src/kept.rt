//! The valid grants so far, and since when each user may grant what on.
ghost use Rattle.std.specs.Prelude.{◌≡◌, [], ◌∷◌, ◌++◌, ◌||◌, OnOk};
ghost use Rattle.grants_core.specs.declared.grant.Grant.{Grant as grants};
ghost use Rattle.grants_core.specs.Valid.{supports, is_supported, kept_with};
ghost use Rattle.grants_core.specs.Kept.{held_before, has_support, IsIndexed};

use crate::grant::Grant;
use crate::key::{Holding, Key};
use crate::owners::Owners;
use base_core::{Atom, Moment, NoMemory, User};
use indexmap::IndexMap;
use std::alloc::Global;

/// For each user and privilege, the earliest moment of a grant that gives it with the option.
type Since = IndexMap<Holding, Moment>;

/// Valid grants, in order, and since when each user may grant what on.
#[derive(Drop)]
pub struct KeptGrants {
    pub grants: Vec<Grant>,
    since: Since,
}

// Whether the user had the privilege with the option before the moment.
fn is_held_before(since: &Since, holding: &Holding, at: Moment) -> bool
    ensures { result ≡ held_before since.now holding.now at }
{
    match since.get(holding) {
        Some(first) => first.0 < at.0,
        None => false,
    }
}

// Notes who may grant what on by the grant.
fn note_holding(since: &mut Since, grant: &Grant) -> Result<(), NoMemory>
    ensures { OnOk result ((g : grants) → has_support since.new g
        ≡ (has_support since.old g || supports grant.now g)) }
{
    let Atom { table, kind } = grant.atom;
    let holding = Holding {
        user: grant.grantee,
        privilege: Key(Atom { table, kind }),
    };
    if grant.option && !is_held_before(since, &holding, grant.moment) {
        since.insert(holding, grant.moment)?;
    }
    Ok(())
}

impl KeptGrants {
    /// No grants. It takes no memory.
    pub fn new(alloc: Global) -> KeptGrants
        ensures grants { result.grants.items ≡ [] }
        ensures indexed { IsIndexed result }
    {
        KeptGrants {
            grants: Vec::new(alloc),
            since: IndexMap::new(alloc),
        }
    }

    // Whether the grant's grantor owns the table, or a kept grant supports it.
    fn supports(&self, owners: &Owners, grant: &Grant) -> bool
        requires { IsIndexed self.now }
        ensures { result ≡ is_supported owners.now self.now.grants.items grant.now }
    {
        let needed = Holding {
            user: grant.grantor,
            privilege: Key(grant.atom),
        };
        owners.owns(&grant.grantor, &grant.atom)
            || is_held_before(&self.since, &needed, grant.moment)
    }

    // Adds the grant.
    fn push(&mut self, grant: &Grant) -> Result<(), NoMemory>
        requires { IsIndexed self.old }
        ensures grants { OnOk result
            (self.new.grants.items ≡ self.old.grants.items ++ grant.now ∷ []) }
        ensures indexed { OnOk result (IsIndexed self.new) }
    {
        note_holding(&mut self.since, grant)?;
        let Atom { table, kind } = grant.atom;
        self.grants.push(Grant {
            number: grant.number,
            moment: grant.moment,
            atom: Atom { table, kind },
            grantor: grant.grantor,
            grantee: grant.grantee,
            option: grant.option,
        })?;
        Ok(())
    }

    /// Adds the grant if its grantor owns the table or one of those kept supports it. `NoMemory`
    /// where a request for memory was refused.
    pub fn add(&mut self, owners: &Owners, grant: &Grant) -> Result<(), NoMemory>
        requires { IsIndexed self.old }
        ensures grants { OnOk result (self.new.grants.items
            ≡ kept_with owners.now self.old.grants.items grant.now) }
        ensures indexed { OnOk result (IsIndexed self.new) }
    {
        if self.supports(owners, grant) {
            self.push(grant)?;
        }
        Ok(())
    }
}
