//! The links that stand for grants, and the grants for which links stand.
ghost use Rattle.std.specs.Prelude.{◌≡◌, ◌+◌, ◌<◌, ◌≤◌, ◌++◌, ◌∷◌, [], length, vec_len, vec_capacity, IfOk, map};
ghost use Rattle.std.specs.List.{AllByRecursion};
ghost use Rattle.graph_core.specs.Indices.{grant_of, Extends, IsWithin};

use crate::indices::Indices;
use base_core::{Atom, NoMemory};
use grants_core::Grant;
use links_core::Link;
use std::alloc::Global;

/// The links that stand for these grants. Their users and privileges get indices.
pub fn links_of(
    alloc: Global,
    indices: &mut Indices,
    grants: &[Grant],
) -> Result<Vec<Link>, NoMemory>
    ensures extends { Extends indices.old indices.new }
    ensures within { IfOk result (λ links. AllByRecursion (IsWithin indices.new) links.items) }
    ensures grants { IfOk result (λ links. map (grant_of indices.new) links.items ≡ grants.now) }
{
    let mut links = Vec::with_capacity(alloc, grants.len())?;
    for grant in grants {
        links.push(indices.add(grant)?)?;
    }
    Ok(links)
}

// Puts a grant behind the others, where there is room.
fn put(out: &mut Vec<Grant>, grant: Grant)
    requires { vec_len out.old < vec_capacity out.old }
    ensures items { out.new.items ≡ out.old.items ++ grant ∷ [] }
    ensures len { vec_len out.new ≡ vec_len out.old + 1 }
    ensures capacity { vec_capacity out.new ≡ vec_capacity out.old }
{
    let Grant {
        number,
        moment,
        atom: Atom { table, kind },
        grantor,
        grantee,
        option,
    } = grant;
    out.push_reserved(Grant {
        number,
        moment,
        atom: Atom { table, kind },
        grantor,
        grantee,
        option,
    });
}

/// The grants for which these links stand.
pub fn grants_of(alloc: Global, indices: &Indices, links: &[Link]) -> Result<Vec<Grant>, NoMemory>
    requires { AllByRecursion (IsWithin indices.now) links.now }
    ensures { IfOk result (λ grants. grants.items ≡ map (grant_of indices.now) links.now) }
{
    let mut grants = Vec::with_capacity(alloc, links.len())?;
    for link in links {
        put(&mut grants, indices.grant(link));
    }
    Ok(grants)
}

/// Puts the grants for which these links stand behind the others, where there is room.
pub fn put_grants(indices: &Indices, links: &[Link], out: &mut Vec<Grant>)
    requires within { AllByRecursion (IsWithin indices.now) links.now }
    requires room { vec_len out.old + length links.now ≤ vec_capacity out.old }
    ensures { out.new.items ≡ out.old.items ++ map (grant_of indices.now) links.now }
{
    for link in links {
        put(out, indices.grant(link));
    }
}
