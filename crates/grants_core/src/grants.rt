//! Lists of grants: what is added, what a revocation takes out or off, and what is then valid.
ghost use Rattle.std.specs.Prelude.{◌≡◌, ◌≤◌, ◌^◌, ◌++◌, ◌&&◌, count_by, length, take, OnOk, OnErr};
ghost use Rattle.std.specs.List.{list_any};
ghost use Rattle.base_core.specs.Privileges.{same_atom};
ghost use Rattle.base_core.specs.Users.{same_user};
ghost use Rattle.grants_core.specs.Valid.{valid, supports, is_supported};
ghost use Rattle.grants_core.specs.Content.{gives, singles, without, options_off};

use crate::grant::Grant;
use crate::owners::Owners;
use crate::singles::single_grants;
use base_core::{Atom, Moment, NoMemory, User};
use std::alloc::Global;

/// Appends the single grants of these atoms to these users, numbered from `first`.
pub fn append(
    alloc: Global,
    grants: &mut Vec<Grant>,
    first: u64,
    by: &User,
    atoms: &[Atom],
    whom: &[User],
    option: bool,
    at: Moment,
) -> Result<(), NoMemory>
    requires { first ≤ 2 ^ 63 }
    ensures ok { OnOk result
        (grants.new.items
        ≡ grants.old.items ++ singles first at by.now atoms.now whom.now option) }
    ensures err { OnErr result (grants.new.items ≡ grants.old.items) }
{
    let more = single_grants(alloc, first, at, by, atoms, whom, option)?;
    grants.extend_from_slice(&more)?;
    Ok(())
}

/// Takes out what a revocation by this user of these atoms from these users names.
pub fn remove_named(grants: &mut Vec<Grant>, by: &User, atoms: &[Atom], whom: &[User])
    ensures { grants.new.items ≡ without by.now atoms.now whom.now grants.old.items }
{
    grants.retain(|grant| !grant.is_named(by, atoms, whom));
}

/// Takes the option off what a revocation by this user of these atoms from these users names.
pub fn take_named_options(grants: &mut [Grant], by: &User, atoms: &[Atom], whom: &[User])
    ensures { grants.new ≡ options_off by.now atoms.now whom.now grants.old }
{
    for one in grants.iter_mut() {
        one.option &= !one.is_named(by, atoms, whom);
    }
}

// Whether one of them supports the grant.
fn any_supports(grants: &[Grant], grant: &Grant) -> bool
    ensures { result ≡ list_any (λ h. supports h grant.now) grants.now }
{
    grants.iter().any(|one| one.supports(grant))
}

// Whether the grant's grantor owns the table, or one of them supports the grant.
fn is_supported(owners: &Owners, grants: &[Grant], grant: &Grant) -> bool
    ensures { result ≡ is_supported owners.now grants.now grant.now }
{
    owners.owns(&grant.grantor, &grant.atom) || any_supports(grants, grant)
}

// Moves the valid ones to the front, in order, and says how many they are.
fn move_valid(owners: &Owners, grants: &mut [Grant]) -> usize
    ensures front { take result grants.new ≡ valid owners.now grants.old }
    ensures within { result ≤ length grants.new }
    ensures length { length grants.new ≡ length grants.old }
{
    let mut kept = 0;
    for at in 0..grants.len() {
        let grant = grants[at];
        if is_supported(owners, &grants[..kept], &grant) {
            grants[kept] = grant;
            kept += 1;
        }
    }
    kept
}

/// Takes out what is not valid: each is kept that is supported by those kept before it.
pub fn keep_valid(owners: &Owners, grants: &mut Vec<Grant>)
    ensures { grants.new.items ≡ valid owners.now grants.old.items }
{
    let kept = move_valid(owners, grants.as_mut_slice());
    grants.truncate(kept);
}

/// Whether one of them gives the user the atom.
pub fn any_gives(grants: &[Grant], user: &User, atom: &Atom) -> bool
    ensures { result ≡ list_any (gives user.now atom.now) grants.now }
{
    grants.iter().any(|one| one.gives(user, atom))
}

/// Whether one of them gives the user the atom with the option.
pub fn any_gives_option(grants: &[Grant], user: &User, atom: &Atom) -> bool
    ensures { result ≡ list_any (λ g. g.option && gives user.now atom.now g) grants.now }
{
    grants.iter().any(|one| one.option && one.gives(user, atom))
}

/// Whether one of them is of the atom, by the one user to the other.
pub fn any_made(grants: &[Grant], by: &User, user: &User, atom: &Atom) -> bool
    ensures { result
        ≡ list_any (λ g. same_user g.grantor by.now && gives user.now atom.now g) grants.now }
{
    grants
        .iter()
        .any(|one| one.grantor == *by && one.gives(user, atom))
}

/// Whether one of them is of the atom, by the one user to the other, with the option.
pub fn any_optioned(grants: &[Grant], by: &User, user: &User, atom: &Atom) -> bool
    ensures { result
        ≡ list_any (λ g. g.option && same_user g.grantor by.now && gives user.now atom.now g)
        grants.now }
{
    grants.iter().any(|one| one.option && one.grantor == *by && one.gives(user, atom))
}

/// How many of them are of the atom.
pub fn count_of(grants: &[Grant], atom: &Atom) -> usize
    ensures { result ≡ count_by (λ g. same_atom g.atom atom.now) grants.now }
{
    grants.iter().filter(|one| one.atom == *atom).count()
}
