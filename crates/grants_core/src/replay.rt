//! The plain authority: it keeps the grants in force, and at each revocation replays those that are
//! left.
ghost use Rattle.std.specs.Prelude.{◌≡◌, []};

use crate::authority::Authority;
use crate::grant::Grant;
use crate::grants::{
    any_gives, any_gives_option, any_made, any_optioned, append, count_of, keep_valid,
    remove_named, take_named_options,
};
use crate::owners::Owners;
use base_core::{Atom, Moment, Name, NoMemory, User};
use std::alloc::Global;
use std::marker::Model;

/// Keeps the grants in force, and at each revocation replays those that it does not name. Contracts
/// see owners, grants in force, and how many were ever made.
#[derive(Drop)]
pub struct Replay {
    alloc: Global,
    owners: Owners,
    in_force: Vec<Grant>,
    made: u64,
}

impl Model for Replay {
    ghost use Rattle.grants_core.specs.Content.{Rights};
    ghost use Rattle.grants_core.specs.Numbers.{IsNumbered};

    ghost Value = { Rights };

    ghost view = { λ r. record { owners = r.owners; in_force = r.in_force.items; made = r.made } };

    ghost invariant = { λ r. IsNumbered r.made r.in_force.items };
}

impl Replay {
    /// No tables and no grants. It takes no memory.
    pub fn new(alloc: Global) -> Replay
        ensures { result ≡ record { owners = []; in_force = []; made = 0 } }
    {
        Replay {
            alloc,
            owners: Owners::new(alloc),
            in_force: Vec::new(alloc),
            made: 0,
        }
    }
}

impl Authority for Replay {
    ghost content = { λ r. r };

    fn create(&mut self, table: Name, owner: User) -> Result<(), NoMemory> {
        self.owners.set(table, owner)?;
        Ok(())
    }

    fn grant(
        &mut self,
        by: User,
        atoms: &[Atom],
        whom: &[User],
        option: bool,
        at: Moment,
    ) -> Result<(), NoMemory> {
        let grants = &mut self.in_force;
        append(self.alloc, grants, self.made, &by, atoms, whom, option, at)?;
        self.made += (atoms.len() * whom.len()) as u64;
        self.owners.note_granted(atoms);
        Ok(())
    }

    fn revoke(&mut self, by: User, atoms: &[Atom], whom: &[User]) {
        remove_named(&mut self.in_force, &by, atoms, whom);
        keep_valid(&self.owners, &mut self.in_force);
    }

    fn revoke_option(&mut self, by: User, atoms: &[Atom], whom: &[User]) {
        take_named_options(&mut self.in_force, &by, atoms, whom);
        keep_valid(&self.owners, &mut self.in_force);
    }

    fn owns(&self, user: User, table: Name) -> bool {
        self.owners.owns_table(&user, &table)
    }

    fn holds(&self, user: User, atom: &Atom) -> bool {
        self.owners.owns(&user, atom) || any_gives(&self.in_force, &user, atom)
    }

    fn may_grant(&self, user: User, atom: &Atom) -> bool {
        self.owners.owns(&user, atom) || any_gives_option(&self.in_force, &user, atom)
    }

    fn has_made(&self, by: User, user: User, atom: &Atom) -> bool {
        any_made(&self.in_force, &by, &user, atom)
    }

    fn has_optioned(&self, by: User, user: User, atom: &Atom) -> bool {
        any_optioned(&self.in_force, &by, &user, atom)
    }

    fn room(&self, atom: &Atom, more: u64, limit: u64) -> bool {
        more <= limit && count_of(&self.in_force, atom) as u64 <= limit - more
    }

    fn in_force(&self) -> Result<Vec<Grant>, NoMemory> {
        let mut grants = Vec::new(self.alloc);
        grants.extend_from_slice(&self.in_force)?;
        Ok(grants)
    }

    fn made(&self) -> u64 {
        self.made
    }
}
