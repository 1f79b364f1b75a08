//! The grants that changes make.
ghost use Rattle.std.specs.Prelude.{◌≡◌, ◌++◌, length, IfOk, OnOk};
ghost use Rattle.grants_core.specs.History.{granted, grants_of, owners_after, owners_with};

use base_core::{Moment, NoMemory};
use grants_core::{Change, Grant, Owners, single_grants};
use std::alloc::Global;

/// The owners of the tables that the changes create, and the single grants that they make, in order.
#[derive(Drop)]
pub struct Made {
    pub owners: Owners,
    pub grants: Vec<Grant>,
}

impl Made {
    /// Enters the change of a moment.
    fn enter(&mut self, alloc: Global, at: Moment, change: &Change) -> Result<(), NoMemory>
        ensures owners { OnOk result (self.new.owners ≡ owners_with self.old.owners change.now) }
        ensures grants { OnOk result (self.new.grants.items ≡ self.old.grants.items
            ++ grants_of (length self.old.grants.items) at.0 change.now) }
    {
        match change {
            Change::Create { table, owner } => self.owners.set(*table, *owner)?,
            Change::Grant {
                by,
                atoms,
                whom,
                option,
            } => {
                let first = self.grants.len() as u64;
                let (atoms, whom) = (atoms.as_slice(), whom.as_slice());
                let more = single_grants(alloc, first, at, by, atoms, whom, *option)?;
                self.grants.extend_from_slice(&more)?;
                self.owners.note_granted(atoms);
            }
            Change::Revoke { .. } | Change::RevokeOption { .. } | Change::Other => {}
        }
        Ok(())
    }

    /// What the changes make, of which the m-th is that of moment m. `NoMemory` where a request for
    /// memory was refused.
    pub fn read(alloc: Global, changes: &[Change]) -> Result<Made, NoMemory>
        ensures owners { IfOk result (λ made. made.owners ≡ owners_after changes.now) }
        ensures grants { IfOk result (λ made. made.grants.items ≡ granted changes.now) }
    {
        let mut made = Made {
            owners: Owners::new(alloc),
            grants: Vec::new(alloc),
        };
        let mut moment = 0;
        for change in changes {
            moment += 1;
            let Ok(()) = made.enter(alloc, Moment(moment), change) else {
                drop(made);
                return Err(NoMemory);
            };
        }
        Ok(made)
    }
}
