//! Users and privileges by index.
ghost use Rattle.std.specs.Prelude.{◌≡◌, ◌<◌, [], length, IfOk};
ghost use Rattle.grants_core.specs.Content.{gives};
ghost use Rattle.graph_core.specs.Indices.{user_at, atom_at, grant_of, goes_to_place, Extends, IsWithin, IsUserIndex, IsAtomIndex, AreApart};
ghost use Rattle.links_core.specs.declared.link.Link.{Link as links};

use base_core::{Atom, Name, NoMemory, User};
use grants_core::{Grant, Key};
use indexmap::IndexSet;
use links_core::Link;
use std::alloc::Global;
use std::marker::Model;

/// A user and a privilege, by index.
#[derive(Clone, Copy)]
pub struct Place {
    pub user: usize,
    pub atom: usize,
}

/// The names of users and the privileges that occurred, each once, in the order in which they came.
/// Contracts see both lists.
#[derive(Drop)]
pub struct Indices {
    users: IndexSet<Name>,
    atoms: IndexSet<Key>,
}

impl Model for Indices {
    ghost use Rattle.graph_core.specs.Indices.{Indexed, IsEachOnce};

    ghost Value = { Indexed };

    ghost view = { λ s. record { users = s.users.keys; atoms = s.atoms.keys } };

    ghost invariant = { λ s. IsEachOnce s.users s.atoms };
}

impl Indices {
    /// No users, and no privileges. It takes no memory.
    pub fn new(alloc: Global) -> Indices
        ensures { result ≡ record { users = []; atoms = [] } }
    {
        Indices {
            users: IndexSet::new(alloc),
            atoms: IndexSet::new(alloc),
        }
    }

    /// The user's index. None where he has none. No two indices are of the same user, or of the
    /// same privilege.
    pub fn user(&self, user: &User) -> Option<usize>
        ensures index { IsUserIndex self.now user.now result }
        ensures apart { AreApart self.now }
    {
        self.users.get_index_of(&user.0)
    }

    /// The privilege's index. None where it has none.
    pub fn atom(&self, atom: &Atom) -> Option<usize>
        ensures { IsAtomIndex self.now atom.now result }
    {
        self.atoms.get_index_of(&Key(*atom))
    }

    /// The place of a user and a privilege. None where one of them has no index.
    pub fn place(&self, user: &User, atom: &Atom) -> Option<Place>
        ensures { (l : links) → IsWithin self.now l
            → gives user.now atom.now (grant_of self.now l) ≡ goes_to_place result l }
    {
        let user = self.user(user)?;
        let atom = self.atom(atom)?;
        Some(Place { user, atom })
    }

    // The user's index: the next one, if he had none.
    fn add_user(&mut self, user: &User) -> Result<usize, NoMemory>
        ensures extends { Extends self.old self.new }
        ensures within { IfOk result (λ i. i < length self.new.users) }
        ensures user { IfOk result (λ i. user_at self.new i ≡ user.now) }
    {
        let (index, _) = self.users.insert_full(user.0)?;
        Ok(index)
    }

    // The privilege's index: the next one, if it had none.
    fn add_atom(&mut self, atom: &Atom) -> Result<usize, NoMemory>
        ensures extends { Extends self.old self.new }
        ensures within { IfOk result (λ i. i < length self.new.atoms) }
        ensures atom { IfOk result (λ i. atom_at self.new i ≡ atom.now) }
    {
        let Atom { table, kind } = *atom;
        let (index, _) = self.atoms.insert_full(Key(Atom { table, kind }))?;
        Ok(index)
    }

    /// The link that stands for a grant. Its users and its privilege get an index if they have
    /// none.
    pub fn add(&mut self, grant: &Grant) -> Result<Link, NoMemory>
        ensures extends { Extends self.old self.new }
        ensures within { IfOk result (λ l. IsWithin self.new l) }
        ensures grant { IfOk result (λ l. grant_of self.new l ≡ grant.now) }
    {
        let atom = self.add_atom(&grant.atom)?;
        let grantor = self.add_user(&grant.grantor)?;
        let grantee = self.add_user(&grant.grantee)?;
        Ok(Link {
            number: grant.number,
            moment: grant.moment,
            atom,
            grantor,
            grantee,
            option: grant.option,
        })
    }

    // The user of an index.
    fn user_of(&self, index: usize) -> User
        requires { index < length self.now.users }
        ensures { result ≡ user_at self.now index }
    {
        match self.users.get_index(index) {
            Some(name) => User(*name),
            None => unreachable!(),
        }
    }

    // The privilege of an index.
    fn atom_of(&self, index: usize) -> Atom
        requires { index < length self.now.atoms }
        ensures { result ≡ atom_at self.now index }
    {
        match self.atoms.get_index(index) {
            Some(key) => key.0,
            None => unreachable!(),
        }
    }

    /// The grant for which a link stands, whose indices have to be of users and a privilege.
    pub fn grant(&self, link: &Link) -> Grant
        requires { IsWithin self.now link.now }
        ensures { result ≡ grant_of self.now link.now }
    {
        Grant {
            number: link.number,
            moment: link.moment,
            atom: self.atom_of(link.atom),
            grantor: self.user_of(link.grantor),
            grantee: self.user_of(link.grantee),
            option: link.option,
        }
    }
}
