//! What keeps the grants in force.
ghost use Rattle.std.specs.Prelude.{◌≡◌, ◌+◌, ◌*◌, ◌^◌, ◌<◌, ◌≤◌, ◌↔◌, true, false, length, All, IsTrue, OnOk, OnErr, IfOk};
ghost use Rattle.base_core.specs.Privileges.{of_table};
ghost use Rattle.base_core.specs.declared.privilege.Kind.{Kind};
ghost use Rattle.grants_core.specs.Numbers.{IsNumbered};
ghost use Rattle.grants_core.specs.Owners.{was_granted, owns};
ghost use Rattle.grants_core.specs.Content.{Rights, after_create, after_grant, after_revoke, after_revoke_option, holds, may_grant, has_made, has_optioned, count_of};

use crate::grant::Grant;
use base_core::{Atom, Moment, Name, NoMemory, User};

/// Keeps the owners of tables and the grants in force.
pub trait Authority {
    // The owners, the grants in force, and how many single grants were ever made.
    ghost content: { Self → Rights };

    /// Sets a table's owner, where no grant on that table was ever made. A table that has an owner
    /// gets the new one. On `NoMemory` nothing has changed.
    fn create(&mut self, table: Name, owner: User) -> Result<(), NoMemory>
        requires { was_granted (content self.old).owners table ≡ false }
        ensures ok { OnOk result (content self.new ≡ after_create (content self.old) table owner) }
        ensures err { OnErr result (content self.new ≡ content self.old) };

    /// Grants each of the atoms to each of the users, with or without the option, at a moment after
    /// that of every grant in force. The user has to be allowed to grant each atom, and at most
    /// 2^63 single grants are ever made. On `NoMemory` nothing has changed.
    fn grant(
        &mut self,
        by: User,
        atoms: &[Atom],
        whom: &[User],
        option: bool,
        at: Moment,
    ) -> Result<(), NoMemory>
        requires may { All
            (λ atom. may_grant (content self.old).owners (content self.old).in_force by atom ≡ true)
            atoms.now }
        requires later { All (λ g. g.moment.0 < at.0) (content self.old).in_force }
        requires room { (content self.old).made + length atoms.now * length whom.now ≤ 2 ^ 63 }
        ensures ok { OnOk result
            (content self.new ≡ after_grant (content self.old) by atoms.now whom.now option at) }
        ensures err { OnErr result (content self.new ≡ content self.old) };

    /// Strikes each grant of the atoms by the one user to the others, with and without the option.
    /// Afterwards exactly those of the others are in force that could have been made without the
    /// struck ones. Where no grant is named, nothing changes.
    fn revoke(&mut self, by: User, atoms: &[Atom], whom: &[User])
        ensures { content self.new ≡ after_revoke (content self.old) by atoms.now whom.now };

    /// Takes the option off each grant of the atoms by the one user to the others; the grants
    /// themselves stay. Afterwards exactly those grants are in force that could have been made
    /// without these options. Where no grant with the option is named, nothing changes.
    fn revoke_option(&mut self, by: User, atoms: &[Atom], whom: &[User])
        ensures { content self.new
            ≡ after_revoke_option (content self.old) by atoms.now whom.now };

    /// Whether the user owns the table.
    fn owns(&self, user: User, table: Name) -> bool
        ensures { (kind : Kind)
            → result ≡ owns (content self.now).owners user (of_table table kind) };

    /// Whether the user owns the table or a grant in force gives him the atom.
    fn holds(&self, user: User, atom: &Atom) -> bool
        ensures { result
            ≡ holds (content self.now).owners (content self.now).in_force user atom.now };

    /// Whether the user owns the table or a grant in force gives him the atom with the option.
    fn may_grant(&self, user: User, atom: &Atom) -> bool
        ensures { result
            ≡ may_grant (content self.now).owners (content self.now).in_force user atom.now };

    /// Whether a grant of the atom by the one user to the other is in force.
    fn has_made(&self, by: User, user: User, atom: &Atom) -> bool
        ensures { result ≡ has_made (content self.now).in_force by user atom.now };

    /// Whether a grant of the atom by the one user to the other is in force with the option.
    fn has_optioned(&self, by: User, user: User, atom: &Atom) -> bool
        ensures { result ≡ has_optioned (content self.now).in_force by user atom.now };

    /// Whether the grants of the atom in force are, with so many more, at most `limit`.
    fn room(&self, atom: &Atom, more: u64, limit: u64) -> bool
        ensures { IsTrue result ↔ (count_of (content self.now).in_force atom.now + more ≤ limit) };

    /// The grants in force, in the order of their numbers, each of which is below `made`.
    fn in_force(&self) -> Result<Vec<Grant>, NoMemory>
        ensures in_force { IfOk result (λ grants. grants.items ≡ (content self.now).in_force) }
        ensures numbered { IsNumbered (content self.now).made (content self.now).in_force };

    /// How many single grants were ever made.
    fn made(&self) -> u64
        ensures { result ≡ (content self.now).made };
}
