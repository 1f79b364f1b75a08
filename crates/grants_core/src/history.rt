//! What a list of changes leaves in force.
ghost use Rattle.std.specs.Prelude.{◌≡◌, ◌↔◌, IsTrue, IfOk};
ghost use Rattle.std.specs.Cmp.Lexicographic.{pointwise};
ghost use Rattle.grants_core.specs.Valid.{valid};
ghost use Rattle.grants_core.specs.Log.{left_by, same_grant};
ghost use Rattle.grants_core.specs.History.{in_force_after};

use crate::grant::{Change, Grant};
use crate::kept::KeptGrants;
use crate::log::GrantLog;
use base_core::NoMemory;
use std::alloc::Global;

// The valid ones of what the log leaves.
fn valid_grants(alloc: Global, log: &GrantLog) -> Result<Vec<Grant>, NoMemory>
    ensures { IfOk result (λ grants. grants.items
        ≡ valid log.now.owners (left_by log.now log.now.made.items)) }
{
    let mut kept = KeptGrants::new(alloc);
    for grant in &log.made {
        if !log.was_struck(grant) {
            kept.add(&log.owners, &log.left(grant))?;
        }
    }
    Ok(kept.grants)
}

// The grants in force after the changes.
fn in_force_after(alloc: Global, changes: &[Change]) -> Result<Vec<Grant>, NoMemory>
    ensures { IfOk result (λ grants. grants.items ≡ in_force_after changes.now) }
{
    let log = GrantLog::read(alloc, changes)?;
    valid_grants(alloc, &log)
}

// Whether two grants are the same.
fn agree(a: &Grant, b: &Grant) -> bool
    ensures { result ≡ same_grant a.now b.now }
{
    a.number == b.number
        && a.moment == b.moment
        && a.atom == b.atom
        && a.grantor == b.grantor
        && a.grantee == b.grantee
        && a.option == b.option
}

// Whether two lists of grants are the same.
fn are_same(grants: &[Grant], others: &[Grant]) -> bool
    ensures { result ≡ pointwise same_grant grants.now others.now }
{
    if grants.len() != others.len() {
        return false;
    }
    for at in 0..grants.len() {
        if !agree(&grants[at], &others[at]) {
            return false;
        }
    }
    true
}

/// Whether the list is exactly the grants in force after the changes, in order: the m-th change is
/// that of moment m, and the single grants are numbered from 0. A table belongs to whom it was
/// created for last. Its time grows with the single grants that the changes make and name.
/// `NoMemory` where a request for memory was refused.
pub fn audit(alloc: Global, changes: &[Change], grants: &[Grant]) -> Result<bool, NoMemory>
    ensures { IfOk result (λ same. IsTrue same ↔ (grants.now ≡ in_force_after changes.now)) }
{
    let in_force = in_force_after(alloc, changes)?;
    Ok(are_same(grants, &in_force))
}
