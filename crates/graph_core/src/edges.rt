//! The edges in number order, with an index at each of their sides.
ghost use Rattle.std.specs.Prelude.{◌≡◌, ◌≤◌, ◌+◌, ◌*◌, ◌^◌, ◌++◌, ◌&&◌, [], length, map, min, take, drop, OnOk, OnErr, IfOk};
ghost use Rattle.std.specs.List.{list_any};
ghost use Rattle.grants_core.specs.Content.{singles, gives, count_of, has_made, has_optioned};
ghost use Rattle.grants_core.specs.Numbers.{IsNumbered};
ghost use Rattle.grants_core.specs.Valid.{valid, IsInOrder, AreSupported};
ghost use Rattle.graph_core.specs.Indices.{standing_of};
ghost use Rattle.graph_core.specs.Revocation.{grants_after};

use crate::indices::Indices;
use crate::linking::{grants_of, links_of, put_grants};
use crate::revocation::{Loss, revoke};
use base_core::{Atom, Moment, NoMemory, User};
use grants_core::{Grant, Owners, single_grants};
use links_core::{Links, Standing};
use std::alloc::Global;
use std::marker::Model;

/// The edges in number order. Contracts see them, and the number of the next.
#[derive(Drop)]
pub struct Edges {
    alloc: Global,
    indices: Indices,
    links: Links,
}

impl Model for Edges {
    ghost use Rattle.std.specs.Prelude.{map};
    ghost use Rattle.std.specs.List.{AllByRecursion};
    ghost use Rattle.graph_core.specs.Edges.{EdgesState};
    ghost use Rattle.graph_core.specs.Indices.{grant_of, IsWithin};

    ghost Value = { EdgesState };

    ghost view = { λ e. record {
      edges = map (grant_of e.indices) e.links.links;
      next = e.links.next;
      rest = map (grant_of e.indices) e.links.rest;
    } };

    ghost invariant = { λ e. AllByRecursion (IsWithin e.indices) e.links.links
        × AllByRecursion (IsWithin e.indices) e.links.rest };
}

impl Edges {
    /// No edges. It takes no memory.
    pub fn new(alloc: Global) -> Edges
        ensures { result ≡ record { edges = []; next = 0; rest = [] } }
    {
        Edges {
            alloc,
            indices: Indices::new(alloc),
            links: Links::new(alloc),
        }
    }

    /// The number of the next edge: how many were ever made.
    pub fn next(&self) -> u64
        ensures { result ≡ self.now.next }
    {
        self.links.next()
    }

    /// How many edges there are.
    pub fn len(&self) -> usize
        ensures { result ≡ length self.now.edges }
    {
        self.links.len()
    }

    /// How many edges there are of the privilege.
    pub fn count(&self, atom: &Atom) -> usize
        ensures { result ≡ count_of self.now.edges atom.now }
    {
        match self.indices.atom(atom) {
            Some(atom) => self.links.count(atom),
            None => 0,
        }
    }

    /// Whether an edge gives the user the privilege.
    pub fn any_gives(&self, user: &User, atom: &Atom) -> bool
        ensures { result ≡ list_any (gives user.now atom.now) self.now.edges }
    {
        match self.indices.place(user, atom) {
            Some(place) => self.links.any_to(place.user, place.atom),
            None => false,
        }
    }

    /// Whether an edge gives the user the privilege with the option.
    pub fn any_gives_option(&self, user: &User, atom: &Atom) -> bool
        ensures { result
            ≡ list_any (λ g. g.option && gives user.now atom.now g) self.now.edges }
    {
        match self.indices.place(user, atom) {
            Some(place) => self.links.any_option_to(place.user, place.atom),
            None => false,
        }
    }

    /// Whether the one user made an edge of the privilege to the other.
    pub fn any_between(&self, by: &User, user: &User, atom: &Atom) -> bool
        ensures { result ≡ has_made self.now.edges by.now user.now atom.now }
    {
        let Some(by) = self.indices.user(by) else {
            return false;
        };
        match self.indices.place(user, atom) {
            Some(place) => {
                self.links
                    .first_between(by, place.user, place.atom)
                    .is_some()
            }
            None => false,
        }
    }

    /// Whether the one user made an edge of the privilege to the other with the option.
    pub fn any_optioned_between(&self, by: &User, user: &User, atom: &Atom) -> bool
        ensures { result ≡ has_optioned self.now.edges by.now user.now atom.now }
    {
        let Some(by) = self.indices.user(by) else {
            return false;
        };
        match self.indices.place(user, atom) {
            Some(place) => {
                self.links
                    .first_optioned_between(by, place.user, place.atom)
                    .is_some()
            }
            None => false,
        }
    }

    /// Adds the single grants of the atoms to the users. On `NoMemory` nothing has changed.
    pub fn add(
        &mut self,
        by: &User,
        atoms: &[Atom],
        whom: &[User],
        option: bool,
        at: Moment,
    ) -> Result<(), NoMemory>
        requires { self.old.next + length atoms.now * length whom.now ≤ 2 ^ 63 }
        ensures edges { OnOk result (self.new.edges
            ≡ self.old.edges
            ++ singles self.old.next at by.now atoms.now whom.now option) }
        ensures next { OnOk result
            (self.new.next ≡ self.old.next + length atoms.now * length whom.now) }
        ensures rest { self.new.rest ≡ self.old.rest }
        ensures err { OnErr result (self.new ≡ self.old) }
    {
        let grants = single_grants(self.alloc, self.links.next(), at, by, atoms, whom, option)?;
        let more = links_of(self.alloc, &mut self.indices, &grants)?;
        self.links.add(&more)?;
        Ok(())
    }

    /// Takes this from the edges of the atoms from the one user to the others, and takes out those
    /// that lose their support with it. Before, and afterwards, each has it.
    pub fn revoke(&mut self, owners: &Owners, loss: Loss, by: &User, atoms: &[Atom], whom: &[User])
        requires in_order { IsInOrder self.old.edges }
        requires supported { AreSupported owners.now self.old.edges self.old.edges }
        ensures in_order { IsInOrder self.new.edges }
        ensures supported { AreSupported owners.now self.new.edges self.new.edges }
        ensures valid { self.new.edges
            ≡ valid owners.now (grants_after loss by.now atoms.now whom.now self.old.edges) }
        ensures next { self.new.next ≡ self.old.next }
        ensures rest { self.new.rest ≡ self.old.rest }
    {
        revoke(
            owners,
            &self.indices,
            &mut self.links,
            loss,
            by,
            atoms,
            whom,
        );
    }

    /// All edges, in number order. `NoMemory` where their copy has no room. Each number is below
    /// the next one.
    pub fn all(&self) -> Result<Vec<Grant>, NoMemory>
        ensures edges { IfOk result (λ grants. grants.items ≡ self.now.edges) }
        ensures numbered { IsNumbered self.now.next self.now.edges }
    {
        let links = self.links.all()?;
        grants_of(self.alloc, &self.indices, &links)
    }

    /// The standing of each edge, in number order. `NoMemory` where their list has no room.
    pub fn standings(&self) -> Result<Vec<Standing>, NoMemory>
        ensures { IfOk result (λ standings. standings.items ≡ map standing_of self.now.edges) }
    {
        self.links.standings()
    }

    /// Begins a capture of the edges as they are now; an older one is given up. It takes no memory.
    pub fn begin(&mut self)
        ensures { self.new ≡ record self.old { rest = self.old.edges } }
    {
        self.links.begin();
    }

    /// How many edges the capture has still to give. 0 where none is active.
    pub fn left(&self) -> usize
        ensures { result ≡ length self.now.rest }
    {
        self.links.left()
    }

    /// Gives the capture up. It takes no memory.
    pub fn abandon(&mut self)
        ensures { self.new ≡ record self.old { rest = [] } }
    {
        self.links.abandon();
    }

    /// Appends the next `count` edges of the capture to `out`, or all that are left, and gives how
    /// many. On `NoMemory` the edges, and those of `out`, are as before.
    pub fn capture_step(&mut self, out: &mut Vec<Grant>, count: usize) -> Result<usize, NoMemory>
        ensures edges { self.new.edges ≡ self.old.edges }
        ensures next { self.new.next ≡ self.old.next }
        ensures count { IfOk result (λ given. given ≡ min count (length self.old.rest)) }
        ensures items { OnOk result (out.new.items ≡ out.old.items ++ take count self.old.rest) }
        ensures rest { OnOk result (self.new.rest ≡ drop count self.old.rest) }
        ensures err { OnErr result (self.new ≡ self.old) }
        ensures out_err { OnErr result (out.new.items ≡ out.old.items) }
    {
        let mut links = Vec::new(self.alloc);
        out.reserve(count.min(self.links.left()))?;
        let given = self.links.capture_step(&mut links, count)?;
        put_grants(&self.indices, &links, out);
        Ok(given)
    }
}
