//! The links in number order, with an index at each of their sides.
ghost use Rattle.std.specs.Prelude.{◌≡◌, ◌<◌, ◌≤◌, ◌+◌, ◌^◌, ◌++◌, ◌&&◌, ◌==◌, nat_lt, [], length, map, min, take, drop, find, OnOk, OnErr, IfOk};
ghost use Rattle.std.specs.List.{list_any};
ghost use Rattle.links_core.specs.Lists.{HasItem, TakesOut};
ghost use Rattle.links_core.specs.Links.{goes_to, comes_from, link_off, count_at, AreNumbered, Rises, AreBelow, standing_of_link};

use crate::held::{any_earlier_option, any_option, first_made_by, first_optioned_by};
use crate::index::{Index, count_of, ends_at, first_at, take_end};
use crate::link::Link;
use crate::options::take_options;
use crate::rooms::{make_rooms, put};
use crate::standing::Standing;
use crate::walk::{all_of, standings_of};
use base_core::{Moment, NoMemory};
use copyup_core::Store;
use std::alloc::Global;
use std::marker::Model;

/// The links in number order. Contracts see them, and the number of the next.
#[derive(Drop)]
pub struct Links {
    alloc: Global,
    store: Store<Link>,
    received: Index,
    given: Index,
    next: u64,
}

impl Model for Links {
    ghost use Rattle.std.specs.Prelude.{◌≡◌};
    ghost use Rattle.copyup_core.specs.Holding.{due};
    ghost use Rattle.links_core.specs.Links.{Linked, links_in, numbered_as, IsLinked};

    ghost Value = { Linked };

    ghost view = { λ l. record {
      links = links_in l.store.contents;
      next = l.next;
      rest = links_in (due l.store);
    } };

    ghost invariant = { λ l. IsLinked l.store.contents l.next l.received.items l.given.items
        × (l.store.next ≡ l.next) × (due l.store ≡ numbered_as (links_in (due l.store))) };
}

impl Links {
    /// No links. It takes no memory.
    pub fn new(alloc: Global) -> Links
        ensures { result ≡ record { links = []; next = 0; rest = [] } }
    {
        Links {
            alloc,
            store: Store::new(alloc),
            received: Vec::new(alloc),
            given: Vec::new(alloc),
            next: 0,
        }
    }

    /// The number of the next link: how many were ever made.
    pub fn next(&self) -> u64
        ensures { result ≡ self.now.next }
    {
        self.next
    }

    /// How many links there are.
    pub fn len(&self) -> usize
        ensures { result ≡ length self.now.links }
    {
        self.store.len()
    }

    /// How many links there are of the privilege.
    pub fn count(&self, atom: usize) -> usize
        ensures { result ≡ count_at atom self.now.links }
    {
        count_of(&self.received, atom)
    }

    /// Whether a link gives the user the privilege.
    pub fn any_to(&self, user: usize, atom: usize) -> bool
        ensures { result ≡ list_any (goes_to user atom) self.now.links }
    {
        first_at(&self.received, atom, user).is_some()
    }

    /// Whether a link gives the user the privilege with the option.
    pub fn any_option_to(&self, user: usize, atom: usize) -> bool
        ensures { result ≡ list_any (λ l. l.option && goes_to user atom l) self.now.links }
    {
        any_option(&self.store, ends_at(&self.received, atom, user))
    }

    /// Whether a link before this moment gives the user the privilege with the option.
    pub fn any_earlier_option_to(&self, user: usize, atom: usize, at: Moment) -> bool
        ensures { result
            ≡ list_any
            (λ l. l.option && nat_lt l.moment.0 at.0 && goes_to user atom l) self.now.links }
    {
        any_earlier_option(&self.store, ends_at(&self.received, atom, user), at)
    }

    /// The first link of the privilege that the user made.
    pub fn first_from(&self, user: usize, atom: usize) -> Option<Link>
        ensures { result ≡ find (comes_from user atom) self.now.links }
    {
        let number = first_at(&self.given, atom, user)?;
        self.store.get(number).copied()
    }

    /// The first link of the privilege by the one user to the other.
    pub fn first_between(&self, by: usize, user: usize, atom: usize) -> Option<Link>
        ensures { result
            ≡ find (λ l. (l.grantor == by) && goes_to user atom l) self.now.links }
    {
        let ends = ends_at(&self.received, atom, user);
        match first_made_by(&self.store, ends, by) {
            Some(end) => self.store.get(end.number).copied(),
            None => None,
        }
    }

    /// The first link of the privilege by the one user to the other that has the option.
    pub fn first_optioned_between(&self, by: usize, user: usize, atom: usize) -> Option<Link>
        ensures { result
            ≡ find (λ l. (l.option && (l.grantor == by)) && goes_to user atom l)
            self.now.links }
    {
        let ends = ends_at(&self.received, atom, user);
        match first_optioned_by(&self.store, ends, by) {
            Some(end) => self.store.get(end.number).copied(),
            None => None,
        }
    }

    /// Adds these links, which bear the next numbers. On `NoMemory` nothing has changed.
    pub fn add(&mut self, more: &[Link]) -> Result<(), NoMemory>
        requires numbered { AreNumbered self.old.next more.now }
        requires within { self.old.next + length more.now ≤ 2 ^ 63 }
        ensures links { OnOk result (self.new.links ≡ self.old.links ++ more.now) }
        ensures next { OnOk result (self.new.next ≡ self.old.next + length more.now) }
        ensures rest { self.new.rest ≡ self.old.rest }
        ensures err { OnErr result (self.new ≡ self.old) }
    {
        self.store.reserve(more.len() as u64)?;
        make_rooms(self.alloc, &mut self.received, more)?;
        make_rooms(self.alloc, &mut self.given, more)?;
        put(&mut self.store, &mut self.received, &mut self.given, more);
        self.next += more.len() as u64;
        Ok(())
    }

    /// Takes out this link, which has to be one of the links.
    pub fn take_out(&mut self, link: &Link)
        requires { HasItem link.now self.old.links }
        ensures taken { TakesOut link.now self.old.links self.new.links }
        ensures next { self.new.next ≡ self.old.next }
        ensures rest { self.new.rest ≡ self.old.rest }
    {
        take_end(&mut self.received, link.atom, link.grantee, link.number);
        take_end(&mut self.given, link.atom, link.grantor, link.number);
        self.store.remove(link.number);
    }

    /// Takes the option off each link of the privilege by the one user to the other, and leaves the
    /// links where they are. A capture that has still to give one gives it as it was when the
    /// capture began. It takes no memory.
    pub fn take_options(&mut self, by: usize, user: usize, atom: usize)
        ensures links { self.new.links
            ≡ map (link_off (λ l. (l.grantor == by) && goes_to user atom l)) self.old.links }
        ensures next { self.new.next ≡ self.old.next }
        ensures rest { self.new.rest ≡ self.old.rest }
    {
        let ends = ends_at(&self.received, atom, user);
        take_options(&mut self.store, ends, by);
    }

    /// All links, in number order. `NoMemory` where their copy has no room. Their numbers rise, and
    /// are below the next one.
    pub fn all(&self) -> Result<Vec<Link>, NoMemory>
        ensures links { IfOk result (λ links. links.items ≡ self.now.links) }
        ensures rising { Rises self.now.links }
        ensures below { AreBelow self.now.next self.now.links }
    {
        let _next = self.next;
        all_of(self.alloc, &self.store)
    }

    /// The standing of each link, in number order. `NoMemory` where their list has no room.
    pub fn standings(&self) -> Result<Vec<Standing>, NoMemory>
        ensures { IfOk result
            (λ standings. standings.items ≡ map standing_of_link self.now.links) }
    {
        standings_of(self.alloc, &self.store)
    }

    /// Begins a capture of the links as they are now; an older one is given up. It is constant, but
    /// for that, and takes no memory.
    pub fn begin(&mut self)
        ensures { self.new ≡ record self.old { rest = self.old.links } }
    {
        self.store.abandon();
        if self.store.len() > 0 {
            self.store.begin();
        }
    }

    /// How many links the capture has still to give. 0 where none is active.
    pub fn left(&self) -> usize
        ensures { result ≡ length self.now.rest }
    {
        self.store.left()
    }

    /// Gives the capture up. It takes no memory.
    pub fn abandon(&mut self)
        ensures { self.new ≡ record self.old { rest = [] } }
    {
        self.store.abandon();
    }

    /// Appends the next `count` links of the capture to `out`, or all that are left, and gives how
    /// many. With none left it appends none. `NoMemory` where a request for memory was refused: then
    /// the links and those of `out` are as before.
    pub fn capture_step(&mut self, out: &mut Vec<Link>, count: usize) -> Result<usize, NoMemory>
        ensures links { self.new.links ≡ self.old.links }
        ensures next { self.new.next ≡ self.old.next }
        ensures count { IfOk result (λ given. given ≡ min count (length self.old.rest)) }
        ensures items { OnOk result (out.new.items ≡ out.old.items ++ take count self.old.rest) }
        ensures rest { OnOk result (self.new.rest ≡ drop count self.old.rest) }
        ensures err { OnErr result (self.new ≡ self.old) }
        ensures out_err { OnErr result (out.new.items ≡ out.old.items) }
    {
        if self.store.left() == 0 {
            return Ok(0);
        }
        self.store.capture_step(out, count)
    }
}
