//! The grants of an image.
ghost use Rattle.std.specs.Prelude.{◌≡◌, ◌↔◌, ◌⊎◌, ◌<◌, ◌+◌, ◌++◌, ◌||◌, [], length, get_or, map, take, drop, IsTrue, IfOk, OnOk, OnErr};
ghost use Rattle.std.specs.List.{list_any};
ghost use Rattle.base_core.specs.declared.privilege.Atom.{Atom as atoms};
ghost use Rattle.indexmap.specs.IndexSet.{contains_by};
ghost use Rattle.grants_core.specs.Content as rights;
ghost use Rattle.grants_core.specs.Keys.{same_key};
ghost use Rattle.base_core.specs.Privileges.{to_select};
ghost use Rattle.capture_core.specs.Image.{gives_one};
ghost use Rattle.capture_core.specs.Fingerprints as fingerprint;
ghost use Rattle.capture_core.specs.Fingerprints.{grant_fingerprint};

use base_core::{Atom, Column, Kind, Name, NoMemory, User};
use grants_core::Grant;
use graph_core::{Graph, Key};
use indexmap::IndexSet;
use std::alloc::Global;
use std::marker::Model;

// A prime below 2^16.
const PARTS: u32 = 65_521;

// The part of a fingerprint that its grantee makes counts so much.
const GRANTEES: u32 = 65_536;

/// Grants in the order of their numbers. Contracts see the list.
///
/// Beside each stands a small number, its fingerprint, of which the name of its grantee makes the
/// upper half and that of its table the lower. Grants that are not looked for mostly differ in it,
/// so a look-up over many grants reads 4 bytes of each in place of 144. Where a fingerprint found
/// no memory, it and the later ones are missing.
#[derive(Drop)]
pub struct Grants {
    grants: Vec<Grant>,
    fingerprints: Vec<u32>,
}

impl Model for Grants {
    ghost use Rattle.std.specs.Prelude.{◌≡◌, List, length, map, take};
    ghost use Rattle.grants_core.specs.declared.grant.Grant.{Grant};
    ghost use Rattle.capture_core.specs.Fingerprints.{grant_fingerprint};

    ghost Value = { List Grant };

    ghost view = { λ g. g.grants.items };

    ghost invariant = { λ g. g.fingerprints.items
        ≡ map grant_fingerprint (take (length g.fingerprints.items) g.grants.items) };
}

// The number that the bytes of a name make.
fn part_of(bytes: &[u8]) -> u32
    ensures part { result ≡ fingerprint.part_of bytes.now }
    ensures small { result < 65521 }
{
    let mut part = 0;
    for byte in bytes {
        part = (part * 31 + *byte as u32) % PARTS;
    }
    part
}

fn fingerprint_of(user: &User, table: &Name) -> u32
    ensures { result ≡ fingerprint.fingerprint_of user.now table.now }
{
    part_of(user.0.as_bytes()) * GRANTEES + part_of(table.as_bytes())
}

// Gives a fingerprint to the grants that have none yet, as far as there is memory.
fn fingerprint_all(fingerprints: &mut Vec<u32>, grants: &[Grant])
    requires { fingerprints.old.items
        ≡ map grant_fingerprint (take (length fingerprints.old.items) grants.now) }
    ensures { fingerprints.new.items
        ≡ map grant_fingerprint (take (length fingerprints.new.items) grants.now) }
{
    while let Some(grant) = grants.get(fingerprints.len()) {
        if fingerprints
            .push(fingerprint_of(&grant.grantee, &grant.atom.table))
            .is_err()
        {
            return;
        }
    }
}

// Whether one of the grants that have a fingerprint gives the user the atom.
fn any_fingerprinted(fingerprints: &[u32], grants: &[Grant], user: &User, atom: &Atom) -> bool
    requires { fingerprints.now
        ≡ map grant_fingerprint (take (length fingerprints.now) grants.now) }
    ensures { result
        ≡ list_any (rights.gives user.now atom.now) (take (length fingerprints.now) grants.now) }
{
    let wanted = fingerprint_of(user, &atom.table);
    for at in 0..fingerprints.len() {
        let grant = &grants[at];
        if fingerprints[at] == wanted && grant.gives(user, atom) {
            return true;
        }
    }
    false
}

// Whether the fingerprint at a place, if there is one, is of another grantee than the one whose
// fingerprints begin here.
fn is_of_another(fingerprints: &[u32], at: usize, first: u32) -> bool
    ensures { IsTrue result → ((at < length fingerprints.now)
        × ((get_or fingerprints.now at 0 < first)
        ⊎ (first + 65535 < get_or fingerprints.now at 0))) }
{
    match fingerprints.get(at) {
        Some(fingerprint) => *fingerprint < first || *fingerprint - first >= GRANTEES,
        None => false,
    }
}

// The privilege of the grant is put among those given to the user, if the grant is to him.
fn add_given(given: &mut IndexSet<Key>, grant: &Grant, user: &User) -> Result<(), NoMemory>
    ensures { OnOk result ((atom : atoms) → contains_by (same_key (record { 0 = atom })) given.new
        ≡ (contains_by (same_key (record { 0 = atom })) given.old
        || rights.gives user.now atom grant.now)) }
{
    if grant.grantee == *user {
        let Atom { table, kind } = grant.atom;
        given.insert(Key(Atom { table, kind }))?;
    }
    Ok(())
}

// The privileges that one of the grants gives the user.
fn given_privileges(
    alloc: Global,
    fingerprints: &[u32],
    grants: &[Grant],
    user: &User,
) -> Result<IndexSet<Key>, NoMemory>
    requires { fingerprints.now
        ≡ map grant_fingerprint (take (length fingerprints.now) grants.now) }
    ensures { IfOk result (λ given. (atom : atoms)
        → contains_by (same_key (record { 0 = atom })) given
        ≡ list_any (rights.gives user.now atom) grants.now) }
{
    let first = part_of(user.0.as_bytes()) * GRANTEES;
    let mut given = IndexSet::new(alloc);
    for at in 0..grants.len() {
        let grant = &grants[at];
        if !is_of_another(fingerprints, at, first) {
            add_given(&mut given, grant, user)?;
        }
    }
    Ok(given)
}

// Whether the grant gives the user SELECT of one of the columns of the table.
fn gives_one(grant: &Grant, user: &User, table: Name, columns: &[Column]) -> bool
    ensures { result ≡ gives_one user.now table columns.now grant.now }
{
    columns.iter().any(|column| {
        let kind = Kind::Select(column.name);
        grant.gives(user, &Atom { table, kind })
    })
}

// Whether one of the grants that have a fingerprint does.
fn any_fingerprinted_one(
    fingerprints: &[u32],
    grants: &[Grant],
    user: &User,
    table: Name,
    columns: &[Column],
) -> bool
    requires { fingerprints.now
        ≡ map grant_fingerprint (take (length fingerprints.now) grants.now) }
    ensures { result ≡ list_any (gives_one user.now table columns.now)
        (take (length fingerprints.now) grants.now) }
{
    let wanted = fingerprint_of(user, &table);
    for at in 0..fingerprints.len() {
        let grant = &grants[at];
        if fingerprints[at] == wanted && gives_one(grant, user, table, columns) {
            return true;
        }
    }
    false
}

fn any_gives_one(grants: &[Grant], user: &User, table: Name, columns: &[Column]) -> bool
    ensures { result ≡ list_any (gives_one user.now table columns.now) grants.now }
{
    grants
        .iter()
        .any(|grant| gives_one(grant, user, table, columns))
}

fn any_gives(grants: &[Grant], user: &User, atom: &Atom) -> bool
    ensures { result ≡ list_any (rights.gives user.now atom.now) grants.now }
{
    grants.iter().any(|grant| grant.gives(user, atom))
}

impl Grants {
    ghost use Rattle.base_core.specs.declared.privilege.Atom.{Atom as atoms};

    /// No grants. It takes no memory.
    pub(crate) fn new(alloc: Global) -> Grants
        ensures { result ≡ [] }
    {
        Grants {
            grants: Vec::new(alloc),
            fingerprints: Vec::new(alloc),
        }
    }

    /// The grants.
    pub fn as_slice(&self) -> &[Grant]
        ensures { result.now ≡ self.now }
    {
        self.grants.as_slice()
    }

    /// How many they are.
    pub fn len(&self) -> usize
        ensures { result ≡ length self.now }
    {
        self.grants.len()
    }

    /// Whether there are none.
    pub fn is_empty(&self) -> bool
        ensures { IsTrue result ↔ (length self.now ≡ 0) }
    {
        self.grants.is_empty()
    }

    /// Whether one of them gives the user the atom. It takes no memory.
    pub fn gives(&self, user: &User, atom: &Atom) -> bool
        ensures { result ≡ list_any (rights.gives user.now atom.now) self.now }
    {
        any_fingerprinted(&self.fingerprints, &self.grants, user, atom)
            || any_gives(&self.grants[self.fingerprints.len()..], user, atom)
    }

    /// Whether one of them gives the user SELECT of one of the columns of the table. It goes over
    /// them once, and takes no memory.
    pub fn give_one(&self, user: &User, table: Name, columns: &[Column]) -> bool
        ensures { result ≡ list_any
            (λ c. list_any (rights.gives user.now (to_select table c.name)) self.now) columns.now }
    {
        any_fingerprinted_one(&self.fingerprints, &self.grants, user, table, columns)
            || any_gives_one(
                &self.grants[self.fingerprints.len()..],
                user,
                table,
                columns,
            )
    }

    /// The privileges that one of them gives the user. `NoMemory` where a request for memory was
    /// refused.
    pub fn privileges_given(&self, alloc: Global, user: &User) -> Result<IndexSet<Key>, NoMemory>
        ensures { IfOk result (λ given. (atom : atoms)
            → contains_by (same_key (record { 0 = atom })) given
            ≡ list_any (rights.gives user.now atom) self.now) }
    {
        given_privileges(alloc, &self.fingerprints, &self.grants, user)
    }

    /// Takes the next `count` grants of the capture, or all that are left. `NoMemory` where a
    /// request for memory was refused: then these grants and the rights are as before.
    pub(crate) fn take(&mut self, rights: &mut Graph, count: u64) -> Result<(), NoMemory>
        ensures content { rights.new.content ≡ rights.old.content }
        ensures items { OnOk result (self.new ≡ self.old ++ take count rights.old.rest) }
        ensures rest { OnOk result (rights.new.rest ≡ drop count rights.old.rest) }
        ensures err { OnErr result (rights.new ≡ rights.old) }
        ensures same { OnErr result (self.new ≡ self.old) }
    {
        if self.grants.is_empty() {
            let ahead = rights.left() as usize;
            self.grants.reserve_exact(ahead)?;
            // Fingerprints that find no memory are missing, and no fault.
            let _ = self.fingerprints.reserve_exact(ahead);
        }
        rights.capture_step(&mut self.grants, count)?;
        fingerprint_all(&mut self.fingerprints, &self.grants);
        Ok(())
    }
}
