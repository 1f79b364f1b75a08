//! The log by which a list of changes is audited: the owners, the grants that were made, and when
//! each was last revoked.
ghost use Rattle.std.specs.Prelude.{◌≡◌, ◌++◌, nat_lt, length, OnOk, IfOk};
ghost use Rattle.grants_core.specs.declared.grant.Grant.{Grant as grants};
ghost use Rattle.grants_core.specs.Content.{option_off};
ghost use Rattle.grants_core.specs.History.{owners_with, grants_of};
ghost use Rattle.grants_core.specs.Log.{noted_revocation, last_struck, last_unoptioned, was_struck, was_unoptioned, IsLogOf};

use crate::grant::{Change, Grant};
use crate::grants::append;
use crate::owners::Owners;
use crate::revocations::{Revocations, note_revocation, noted_revocation};
use base_core::{Moment, NoMemory};
use indexmap::IndexMap;
use std::alloc::Global;

// Whether the grant was revoked after it was made.
fn is_revoked(last: &Revocations, grant: &Grant) -> bool
    ensures { result ≡ nat_lt grant.now.moment.0 (noted_revocation last.now grant.now) }
{
    match noted_revocation(last, grant) {
        Some(at) => grant.moment.0 < at.0,
        None => false,
    }
}

/// The owners, each single grant that was made, in order, and the last revocations: of grants, and
/// of their options.
#[derive(Drop)]
pub struct GrantLog {
    pub owners: Owners,
    pub made: Vec<Grant>,
    struck: Revocations,
    unoptioned: Revocations,
}

impl GrantLog {
    // Enters the change of a moment.
    fn enter(&mut self, alloc: Global, moment: Moment, change: &Change) -> Result<(), NoMemory>
        ensures owners { OnOk result (self.new.owners ≡ owners_with self.old.owners change.now) }
        ensures made { OnOk result (self.new.made.items ≡ self.old.made.items
            ++ grants_of (length self.old.made.items) moment.0 change.now) }
        ensures struck { OnOk result ((g : grants) → noted_revocation self.new.struck g
            ≡ last_struck moment.0 change.now g (noted_revocation self.old.struck g)) }
        ensures unoptioned { OnOk result ((g : grants) → noted_revocation self.new.unoptioned g
            ≡ last_unoptioned moment.0 change.now g (noted_revocation self.old.unoptioned g)) }
    {
        match change {
            Change::Create { table, owner } => self.owners.set(*table, *owner)?,
            Change::Grant {
                by,
                atoms,
                whom,
                option,
            } => {
                let (atoms, whom) = (atoms.as_slice(), whom.as_slice());
                let first = self.made.len() as u64;
                let made = &mut self.made;
                append(alloc, made, first, by, atoms, whom, *option, moment)?;
                self.owners.note_granted(atoms);
            }
            Change::Revoke { by, atoms, whom } => {
                let (atoms, whom) = (atoms.as_slice(), whom.as_slice());
                note_revocation(&mut self.struck, by, atoms, whom, moment)?;
            }
            Change::RevokeOption { by, atoms, whom } => {
                let (atoms, whom) = (atoms.as_slice(), whom.as_slice());
                note_revocation(&mut self.unoptioned, by, atoms, whom, moment)?;
            }
            Change::Other => {}
        }
        Ok(())
    }

    /// The log of the changes, of which the m-th is that of moment m. `NoMemory` where a request
    /// for memory was refused.
    pub fn read(alloc: Global, changes: &[Change]) -> Result<GrantLog, NoMemory>
        ensures { IfOk result (λ log. IsLogOf log changes.now) }
    {
        let mut log = GrantLog {
            owners: Owners::new(alloc),
            made: Vec::new(alloc),
            struck: IndexMap::new(alloc),
            unoptioned: IndexMap::new(alloc),
        };
        let mut moment = 0;
        for change in changes {
            moment += 1;
            log.enter(alloc, Moment(moment), change)?;
        }
        Ok(log)
    }

    /// Whether a later revocation names the grant.
    pub fn was_struck(&self, grant: &Grant) -> bool
        ensures { result ≡ was_struck self.now grant.now }
    {
        is_revoked(&self.struck, grant)
    }

    /// What is left of a grant that was not struck: without its option, if that was revoked later.
    pub fn left(&self, grant: &Grant) -> Grant
        ensures { result ≡ option_off (was_unoptioned self.now) grant.now }
    {
        let mut left = *grant;
        left.option &= !is_revoked(&self.unoptioned, grant);
        left
    }
}
