//! The tables' owners.
ghost use Rattle.std.specs.Option.{option_copied};
ghost use Rattle.std.specs.Prelude.{◌≡◌, [], ◌∷◌, OnOk, OnErr};
ghost use Rattle.base_core.specs.Privileges.{of_table};
ghost use Rattle.base_core.specs.declared.privilege.Kind.{Kind as kinds};
ghost use Rattle.grants_core.specs.Owners.{owner_of, owns, with_owner, with_granted};

use base_core::{Atom, Name, NoMemory, User};
use indexmap::IndexMap;
use std::alloc::Global;
use std::marker::Model;

/// What is kept of a table: its owner, and whether a grant on it was ever made.
#[derive(Clone, Copy)]
pub struct Owned {
    pub owner: User,
    pub granted: bool,
}

/// The tables' owners, each with whether a grant on the table was ever made, looked up by a hash of
/// the table's name. Contracts see the list of them, in the order in which the tables were first
/// given an owner.
#[derive(Drop)]
pub struct Owners {
    tables: IndexMap<Name, Owned>,
}

impl Model for Owners {
    ghost use Rattle.std.specs.Prelude.{List};
    ghost use Rattle.grants_core.specs.declared.grant.Ownership.{Ownership};
    ghost use Rattle.grants_core.specs.Owned.{ownerships};

    ghost Value = { List Ownership };

    ghost view = { λ o. ownerships o.tables.entries };
}

impl Owners {
    /// No tables. It takes no memory.
    pub fn new(alloc: Global) -> Owners
        ensures { result ≡ [] }
    {
        Owners {
            tables: IndexMap::new(alloc),
        }
    }

    /// Sets a table's owner. A table that has one gets the new one. `NoMemory` where a request for
    /// memory was refused; then nothing has changed.
    pub fn set(&mut self, table: Name, owner: User) -> Result<(), NoMemory>
        ensures ok { OnOk result (self.new ≡ with_owner table owner self.old) }
        ensures err { OnErr result (self.new ≡ self.old) }
    {
        match self.tables.get_mut(&table) {
            Some(owned) => owned.owner = owner,
            None => {
                let granted = false;
                self.tables.insert(table, Owned { owner, granted })?;
            }
        }
        Ok(())
    }

    // Notes that a grant of the atom was made.
    fn note(&mut self, atom: &Atom)
        ensures { self.new ≡ with_granted (atom.now ∷ []) self.old }
    {
        if let Some(owned) = self.tables.get_mut(&atom.table) {
            owned.granted = true;
        }
    }

    /// Notes that a grant of these atoms was made: of those of tables without an owner nothing. It
    /// takes no memory.
    pub fn note_granted(&mut self, atoms: &[Atom])
        ensures { self.new ≡ with_granted atoms.now self.old }
    {
        for atom in atoms {
            self.note(atom);
        }
    }

    /// The table's owner. None where it has none.
    #[tactic(auto, using(crate::proofs::OwnedLemmas::owner_of_entries))]
    pub fn owner_of(&self, table: &Name) -> Option<&User>
        ensures { option_copied result ≡ owner_of self.now table.now }
    {
        Some(&self.tables.get(table)?.owner)
    }

    /// Whether the user owns the table. Nobody owns one that has no owner.
    #[inline(always)]
    #[tactic(auto, unfolding(crate::specs::Owners::owns))]
    pub fn owns_table(&self, user: &User, table: &Name) -> bool
        ensures { (kind : kinds) → result ≡ owns self.now user.now (of_table table.now kind) }
    {
        match self.owner_of(table) {
            Some(owner) => *owner == *user,
            None => false,
        }
    }

    /// Whether the user owns the atom's table.
    pub fn owns(&self, user: &User, atom: &Atom) -> bool
        ensures { result ≡ owns self.now user.now atom.now }
    {
        self.owns_table(user, &atom.table)
    }
}
