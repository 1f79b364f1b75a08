//! When grants are next revoked.
ghost use Rattle.std.specs.Prelude.{◌≡◌, ◌≤◌, if◌then◌else◌, length, map, IfOk, OnOk};
ghost use Rattle.grants_core.specs.declared.grant.Grant.{Grant as grants};
ghost use Rattle.grants_core.specs.History.{granted};
ghost use Rattle.grants_core.specs.Log.{noted_revocation, last_struck, last_unoptioned};
ghost use Rattle.explain_core.specs.Ends.{end_at, next_ends, AreNoted};

use base_core::{Moment, NoMemory};
use grants_core::{Change, Grant, Revocations, note_revocation, noted_revocation};
use indexmap::IndexMap;
use std::alloc::Global;

/// When a grant is next revoked, and when its option is.
#[derive(Clone, Copy)]
pub struct Ends {
    pub struck: Option<Moment>,
    pub unoptioned: Option<Moment>,
}

/// The next revocations, as one goes over the changes from the last to the first.
#[derive(Drop)]
struct Coming {
    struck: Revocations,
    unoptioned: Revocations,
}

/// The moment that is noted for the grant, if one is: no change is of moment 0.
fn next_of(noted: &Revocations, grant: &Grant) -> Option<Moment>
    ensures { result ≡ end_at (noted_revocation noted.now grant.now) }
{
    match noted_revocation(noted, grant) {
        Some(at) if at.0 != 0 => Some(at),
        _ => None,
    }
}

impl Coming {
    /// Notes the change of a moment.
    fn note(&mut self, at: Moment, change: &Change) -> Result<(), NoMemory>
        ensures struck { OnOk result ((g : grants) → noted_revocation self.new.struck g
            ≡ last_struck at.0 change.now g (noted_revocation self.old.struck g)) }
        ensures unoptioned { OnOk result ((g : grants) → noted_revocation self.new.unoptioned g
            ≡ last_unoptioned at.0 change.now g (noted_revocation self.old.unoptioned g)) }
    {
        match change {
            Change::Revoke { by, atoms, whom } => {
                let (atoms, whom) = (atoms.as_slice(), whom.as_slice());
                note_revocation(&mut self.struck, by, atoms, whom, at)?;
            }
            Change::RevokeOption { by, atoms, whom } => {
                let (atoms, whom) = (atoms.as_slice(), whom.as_slice());
                note_revocation(&mut self.unoptioned, by, atoms, whom, at)?;
            }
            Change::Create { .. } | Change::Grant { .. } | Change::Other => {}
        }
        Ok(())
    }

    /// Goes back to a moment from one after which all changes are noted.
    fn go_back(&mut self, changes: &[Change], to: usize, from: usize) -> Result<(), NoMemory>
        requires in_order { to ≤ from }
        requires within { from ≤ length changes.now }
        requires noted { AreNoted changes.now from self.old }
        ensures { OnOk result (AreNoted changes.now to self.new) }
    {
        for at in (to..from).rev() {
            self.note(Moment(at as u64 + 1), &changes[at])?;
        }
        Ok(())
    }

    /// When the grant is revoked by what was noted.
    fn ends(&self, grant: &Grant) -> Ends
        ensures struck { result.struck ≡ end_at (noted_revocation self.now.struck grant.now) }
        ensures unoptioned { result.unoptioned
            ≡ end_at (noted_revocation self.now.unoptioned grant.now) }
    {
        Ends {
            struck: next_of(&self.struck, grant),
            unoptioned: next_of(&self.unoptioned, grant),
        }
    }
}

impl Coming {
    /// When each of the grants that the changes made is next revoked, where none is noted yet.
    fn all_ends(
        &mut self,
        alloc: Global,
        changes: &[Change],
        made: &[Grant],
    ) -> Result<Vec<Ends>, NoMemory>
        requires noted { AreNoted changes.now (length changes.now) self.old }
        requires made { made.now ≡ granted changes.now }
        ensures { IfOk result (λ ends. ends.items ≡ map (next_ends changes.now) made.now) }
    {
        let mut before = changes.len();
        let mut ends = Vec::new(alloc);
        for at in (0..made.len()).rev() {
            let moment = made[at].moment.0 as usize;
            self.go_back(changes, moment, before)?;
            before = moment;
            ends.push(self.ends(&made[at]))?;
        }
        ends.reverse();
        Ok(ends)
    }
}

/// When each of the grants that the changes made is next revoked. `NoMemory` where a request for
/// memory was refused.
pub fn next_ends(alloc: Global, changes: &[Change], made: &[Grant]) -> Result<Vec<Ends>, NoMemory>
    requires { made.now ≡ granted changes.now }
    ensures { IfOk result (λ ends. ends.items ≡ map (next_ends changes.now) made.now) }
{
    let mut coming = Coming {
        struck: IndexMap::new(alloc),
        unoptioned: IndexMap::new(alloc),
    };
    let ends = coming.all_ends(alloc, changes, made);
    drop(coming);
    ends
}
