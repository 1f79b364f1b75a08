//! The single grants of atoms to users.
ghost use Rattle.std.specs.Prelude.{◌≡◌, ◌+◌, ◌^◌, ◌≤◌, ◌++◌, length, OnOk, IfOk};
ghost use Rattle.grants_core.specs.Content.{to_each, singles};

use crate::grant::Grant;
use base_core::{Atom, Moment, NoMemory, User};
use std::alloc::Global;

// Appends the grants of one atom. The first item of the list has the number `first`.
fn push_each(
    grants: &mut Vec<Grant>,
    first: u64,
    at: Moment,
    by: &User,
    atom: &Atom,
    whom: &[User],
    option: bool,
) -> Result<(), NoMemory>
    requires { first ≤ 2 ^ 63 }
    ensures { OnOk result
        (grants.new.items
        ≡ grants.old.items
        ++ to_each (first + length grants.old.items) at by.now atom.now whom.now option) }
{
    for user in whom {
        let Atom { table, kind } = *atom;
        grants.push(Grant {
            number: first + grants.len() as u64,
            moment: at,
            atom: Atom { table, kind },
            grantor: *by,
            grantee: *user,
            option,
        })?;
    }
    Ok(())
}

/// The single grants of these atoms to these users, numbered from `first` (at most 2^63): atoms
/// outer, users inner. `NoMemory` where a request for memory was refused.
pub fn single_grants(
    alloc: Global,
    first: u64,
    at: Moment,
    by: &User,
    atoms: &[Atom],
    whom: &[User],
    option: bool,
) -> Result<Vec<Grant>, NoMemory>
    requires { first ≤ 2 ^ 63 }
    ensures { IfOk result
        (λ grants. grants.items ≡ singles first at by.now atoms.now whom.now option) }
{
    let mut grants = Vec::new(alloc);
    for atom in atoms {
        push_each(&mut grants, first, at, by, atom, whom, option)?;
    }
    Ok(grants)
}
