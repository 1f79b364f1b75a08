//! The graph.
ghost use Rattle.std.specs.Prelude.{◌≡◌, ◌+◌, ◌*◌, ◌^◌, ◌<◌, ◌≤◌, ◌++◌, [], true, false, length, map, min, take, drop, All, OnOk, OnErr, IfOk};
ghost use Rattle.grants_core.specs.Content.{after_create, after_grant, after_revoke, after_revoke_option, may_grant};
ghost use Rattle.grants_core.specs.Owners.{was_granted};
ghost use Rattle.graph_core.specs.Indices.{standing_of};

use crate::edges::Edges;
use crate::revocation::Loss;
use base_core::{Atom, Moment, Name, NoMemory, User};
use grants_core::{Authority, Grant, Owners};
use links_core::Standing;
use std::alloc::Global;
use std::marker::Model;

/// Keeps the grants in force as edges from grantor to grantee; a revocation takes out what it
/// names, and prunes. Contracts see owners, grants in force, and how many were ever made, and the
/// grants that a capture has still to give.
#[derive(Drop)]
pub struct Graph {
    owners: Owners,
    edges: Edges,
}

impl Model for Graph {
    ghost use Rattle.graph_core.specs.Graph.{GraphState};
    ghost use Rattle.graph_core.specs.Revocation.{IsSound};

    ghost Value = { GraphState };

    ghost view = { λ g. record {
      content = record { owners = g.owners; in_force = g.edges.edges; made = g.edges.next };
      rest = g.edges.rest;
    } };

    ghost invariant = { λ g. IsSound g.owners g.edges.edges };
}

impl Graph {
    /// No tables and no grants. It takes no memory.
    pub fn new(alloc: Global) -> Graph
        ensures { result
            ≡ record { content = record { owners = []; in_force = []; made = 0 }; rest = [] } }
    {
        Graph {
            owners: Owners::new(alloc),
            edges: Edges::new(alloc),
        }
    }

    /// How many grants are in force. It is constant.
    pub fn grant_count(&self) -> usize
        ensures { result ≡ length self.now.content.in_force }
    {
        self.edges.len()
    }

    /// The standing of each grant in force, in the order of their numbers. It goes over all of them,
    /// and takes an eighth of what a list of them does. `NoMemory` where a request for memory was
    /// refused.
    pub fn standings(&self) -> Result<Vec<Standing>, NoMemory>
        ensures { IfOk result
            (λ standings. standings.items ≡ map standing_of self.now.content.in_force) }
    {
        self.edges.standings()
    }

    /// Begins a capture of the grants in force as they are now. One that is active is given up
    /// first; but for that it is constant. It takes no memory.
    pub fn begin(&mut self)
        ensures { self.new ≡ record self.old { rest = self.old.content.in_force } }
    {
        self.edges.begin();
    }

    /// How many grants the capture has still to give. 0 where none is active.
    pub fn left(&self) -> u64
        ensures { result ≡ length self.now.rest }
    {
        self.edges.left() as u64
    }

    /// Gives the capture up. Where none is active, nothing changes. It takes no memory.
    pub fn abandon(&mut self)
        ensures { self.new ≡ record self.old { rest = [] } }
    {
        self.edges.abandon();
    }

    /// Appends the next `count` grants of the capture to `out`, or all that are left, in the order
    /// of their numbers and as they were when it began, and gives how many. With none left it
    /// appends none. `NoMemory` where a request for memory was refused: then the graph and the
    /// grants of `out` are as before.
    pub fn capture_step(&mut self, out: &mut Vec<Grant>, count: u64) -> Result<u64, NoMemory>
        ensures content { self.new.content ≡ self.old.content }
        ensures count { IfOk result (λ given. given ≡ min count (length self.old.rest)) }
        ensures items { OnOk result (out.new.items ≡ out.old.items ++ take count self.old.rest) }
        ensures rest { OnOk result (self.new.rest ≡ drop count self.old.rest) }
        ensures err { OnErr result (self.new ≡ self.old) }
        ensures out_err { OnErr result (out.new.items ≡ out.old.items) }
    {
        let given = self.edges.capture_step(out, count as usize)?;
        Ok(given as u64)
    }
}

impl Authority for Graph {
    ghost content = { λ g. g.content };

    fn create(&mut self, table: Name, owner: User) -> Result<(), NoMemory>
        requires { was_granted self.old.content.owners table ≡ false }
        ensures ok { OnOk result
            (self.new.content ≡ after_create self.old.content table owner) }
        ensures err { OnErr result (self.new.content ≡ self.old.content) }
        ensures rest { self.new.rest ≡ self.old.rest }
    {
        self.owners.set(table, owner)?;
        Ok(())
    }

    fn grant(
        &mut self,
        by: User,
        atoms: &[Atom],
        whom: &[User],
        option: bool,
        at: Moment,
    ) -> Result<(), NoMemory>
        requires may { All
            (λ atom. may_grant self.old.content.owners self.old.content.in_force by atom ≡ true)
            atoms.now }
        requires later { All (λ g. g.moment.0 < at.0) self.old.content.in_force }
        requires room { self.old.content.made + length atoms.now * length whom.now ≤ 2 ^ 63 }
        ensures ok { OnOk result
            (self.new.content ≡ after_grant self.old.content by atoms.now whom.now option at) }
        ensures err { OnErr result (self.new.content ≡ self.old.content) }
        ensures rest { self.new.rest ≡ self.old.rest }
    {
        self.edges.add(&by, atoms, whom, option, at)?;
        self.owners.note_granted(atoms);
        Ok(())
    }

    fn revoke(&mut self, by: User, atoms: &[Atom], whom: &[User])
        ensures content { self.new.content
            ≡ after_revoke self.old.content by atoms.now whom.now }
        ensures rest { self.new.rest ≡ self.old.rest }
    {
        self.edges
            .revoke(&self.owners, Loss::Grant, &by, atoms, whom);
    }

    fn revoke_option(&mut self, by: User, atoms: &[Atom], whom: &[User])
        ensures content { self.new.content
            ≡ after_revoke_option self.old.content by atoms.now whom.now }
        ensures rest { self.new.rest ≡ self.old.rest }
    {
        self.edges
            .revoke(&self.owners, Loss::Option, &by, atoms, whom);
    }

    #[inline(always)]
    fn owns(&self, user: User, table: Name) -> bool {
        self.owners.owns_table(&user, &table)
    }

    #[inline(always)]
    fn holds(&self, user: User, atom: &Atom) -> bool {
        self.owners.owns(&user, atom) || self.edges.any_gives(&user, atom)
    }

    fn may_grant(&self, user: User, atom: &Atom) -> bool {
        self.owners.owns(&user, atom) || self.edges.any_gives_option(&user, atom)
    }

    fn has_made(&self, by: User, user: User, atom: &Atom) -> bool {
        self.edges.any_between(&by, &user, atom)
    }

    fn has_optioned(&self, by: User, user: User, atom: &Atom) -> bool {
        self.edges.any_optioned_between(&by, &user, atom)
    }

    fn room(&self, atom: &Atom, more: u64, limit: u64) -> bool {
        more <= limit && self.edges.count(atom) as u64 <= limit - more
    }

    fn in_force(&self) -> Result<Vec<Grant>, NoMemory> {
        self.edges.all()
    }

    fn made(&self) -> u64 {
        self.edges.next()
    }
}
