//! Grants that one statement makes.
ghost use Rattle.std.specs.Prelude.{◌≡◌, ◌+◌, ◌<◌, ◌≤◌, ◌∷◌, ◌++◌, [], true, not, ◌&&◌, nat_lt, map, IfOk, length, take, drop};
ghost use Rattle.std.specs.List.{list_any};
ghost use Rattle.std.specs.Cmp.Lexicographic.{pointwise};
ghost use Rattle.base_core.specs.Users.{same_user};
ghost use Rattle.base_core.specs.Privileges.{same_kind};
ghost use Rattle.dump_core.specs.Grouped.{IsFirstGroup};
ghost use Rattle.dump_core.specs.FirstStatement.{IsFirstStatement};
ghost use Rattle.dump_core.specs.Dump.{are_made_alike, are_of_one_atom, privileges_of_kinds, may_be_listed};

use crate::privileges::may_list_also;
use base_core::{Kind, NoMemory};
use grants_core::Grant;
use reader_core::MAX_USERS;
use std::alloc::Global;

// By one grantor, on one table, with the same option.
fn are_made_alike(one: &Grant, other: &Grant) -> bool
    ensures { result ≡ are_made_alike one.now other.now }
{
    one.grantor == other.grantor && one.atom.table == other.atom.table && one.option == other.option
}

fn is_grantee(grants: &[Grant], next: &Grant) -> bool
    ensures { result ≡ list_any (λ g. same_user g.grantee next.now.grantee) grants.now }
{
    grants.iter().any(|grant| grant.grantee == next.grantee)
}

// Whether the next grant is made as the first of these, of the same atom, to another user.
fn goes_on(first: &Grant, grants: &[Grant], next: &Grant) -> bool
    ensures { result
        ≡ ((are_made_alike first.now next.now && same_kind first.now.atom.kind next.now.atom.kind)
        && (nat_lt (length grants.now) 16
        && not (list_any (λ g. same_user g.grantee next.now.grantee) grants.now))) }
{
    (are_made_alike(first, next) && first.atom.kind == next.atom.kind)
        && (grants.len() < MAX_USERS && !is_grantee(grants, next))
}

/// How many grants, from the first on, are of one atom and together.
pub(crate) fn atom_ahead(grants: &[Grant]) -> usize
    requires { 0 < length grants.now }
    ensures { IsFirstGroup are_of_one_atom grants.now result }
{
    for count in 1..grants.len() {
        if !goes_on(&grants[0], &grants[..count], &grants[count]) {
            return count;
        }
    }
    grants.len()
}

fn have_same_grantees(one: &[Grant], other: &[Grant]) -> bool
    ensures { result
        ≡ pointwise same_user (map (λ g. g.grantee) one.now) (map (λ g. g.grantee) other.now) }
{
    if one.len() != other.len() {
        return false;
    }
    for at in 0..one.len() {
        if one[at].grantee != other[at].grantee {
            return false;
        }
    }
    true
}

// Whether grants of one atom are made as the first of others, to the same users, and their kind may
// be listed behind the kinds of these.
fn joins(first: &Grant, grants: &[Grant], kinds: &[Kind], next: &Grant, others: &[Grant]) -> bool
    requires some { 0 < length kinds.now }
    requires listed { may_be_listed (privileges_of_kinds kinds.now) ≡ true }
    ensures { result
        ≡ ((are_made_alike first.now next.now
        && pointwise same_user (map (λ g. g.grantee) grants.now) (map (λ g. g.grantee) others.now))
        && may_be_listed (privileges_of_kinds (kinds.now ++ next.now.atom.kind ∷ []))) }
{
    (are_made_alike(first, next) && have_same_grantees(grants, others))
        && may_list_also(kinds, &next.atom.kind)
}

/// The kinds of the first statement, and how many grants it makes, where so many are of the first
/// atom. `NoMemory` where a request for memory was refused.
pub(crate) fn kinds_ahead(
    alloc: Global,
    grants: &[Grant],
    users: usize,
) -> Result<(Vec<Kind>, usize), NoMemory>
    requires { IsFirstGroup are_of_one_atom grants.now users }
    ensures { IfOk result (λ found. IsFirstStatement grants.now users found.0.items found.1) }
{
    let mut kinds = Vec::new(alloc);
    kinds.push(grants[0].atom.kind)?;
    let mut count = users;
    while count < grants.len() {
        let behind = &grants[count..];
        let more = atom_ahead(behind);
        if !joins(
            &grants[0],
            &grants[..users],
            &kinds,
            &behind[0],
            &behind[..more],
        ) {
            return Ok((kinds, count));
        }
        kinds.push(behind[0].atom.kind)?;
        count += more;
    }
    Ok((kinds, count))
}
