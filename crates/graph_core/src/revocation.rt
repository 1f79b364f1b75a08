//! What a revocation names, and what falls with it.
ghost use Rattle.std.specs.Prelude.{◌≡◌, ℕ, ◌<◌, ◌∷◌, [], not, filter, length, Some};
ghost use Rattle.grants_core.specs.Owners.{owns};
ghost use Rattle.grants_core.specs.Valid.{valid};
ghost use Rattle.graph_core.specs.Indices.{user_at, is_index};
ghost use Rattle.graph_core.specs.Pruning.{SupportedBut, Falls, AreInOrder, is_between, is_of_another};
ghost use Rattle.graph_core.specs.Revocation.{grants_of_links, links_after, grants_after, AreUpheld};

use crate::indices::Indices;
use crate::prune::prune;
use base_core::{Atom, User};
use grants_core::Owners;
use links_core::Links;

/// What a revocation takes from the grants that it names.
#[derive(Clone, Copy)]
pub enum Loss {
    /// They go.
    Grant,
    /// They stay, without their option.
    Option,
}

// Takes out the links of the privilege from the one user to the other.
fn remove_between(links: &mut Links, by: usize, user: usize, atom: usize)
    ensures links { links.new.links
        ≡ filter (λ l. not (is_between by (Some user) atom l)) links.old.links }
    ensures next { links.new.next ≡ links.old.next }
    ensures rest { links.new.rest ≡ links.old.rest }
{
    while let Some(link) = links.first_between(by, user, atom) {
        links.take_out(&link);
    }
}

// Takes this from the links of the privilege from the one user to the other.
fn take_between(links: &mut Links, loss: Loss, by: usize, user: usize, atom: usize)
    ensures links { links.new.links
        ≡ links_after loss (is_between by (Some user) atom) links.old.links }
    ensures next { links.new.next ≡ links.old.next }
    ensures rest { links.new.rest ≡ links.old.rest }
{
    match loss {
        Loss::Grant => remove_between(links, by, user, atom),
        Loss::Option => links.take_options(by, user, atom),
    }
}

// Takes this from the links of the privilege from the one user to the other, if he has an index, and
// takes out those that fall with it.
fn revoke_between(
    links: &mut Links,
    loss: Loss,
    owner: Option<usize>,
    by: usize,
    user: Option<usize>,
    atom: usize,
)
    requires in_order { AreInOrder links.old.links }
    requires supported { SupportedBut owner links.old.links (is_of_another atom) }
    ensures in_order { AreInOrder links.new.links }
    ensures supported { SupportedBut owner links.new.links (is_of_another atom) }
    ensures falls { Falls owner atom
        (links_after loss (is_between by user atom) links.old.links) links.new.links }
    ensures next { links.new.next ≡ links.old.next }
    ensures rest { links.new.rest ≡ links.old.rest }
{
    if let Some(user) = user {
        take_between(links, loss, by, user, atom);
        prune(links, owner, user, atom);
    }
}

/// The index of the user who owns the privilege's table. None where it has no owner, or he has
/// none.
pub fn owner_index(owners: &Owners, indices: &Indices, atom: &Atom) -> Option<usize>
    ensures { (i : ℕ) → i < length indices.now.users
        → owns owners.now (user_at indices.now i) atom.now ≡ is_index result i }
{
    match owners.owner_of(&atom.table) {
        Some(owner) => indices.user(owner),
        None => None,
    }
}

// Takes this from the links of the privilege that a revocation names, and takes out those that fall
// with it.
fn revoke_of_atom(
    owners: &Owners,
    indices: &Indices,
    links: &mut Links,
    loss: Loss,
    by: &User,
    atom: &Atom,
    whom: &[User],
)
    requires { AreUpheld indices.now owners.now links.old.links }
    ensures upheld { AreUpheld indices.now owners.now links.new.links }
    ensures valid { grants_of_links indices.now links.new.links
        ≡ valid owners.now
        (grants_after loss by.now (atom.now ∷ []) whom.now
        (grants_of_links indices.now links.old.links)) }
    ensures next { links.new.next ≡ links.old.next }
    ensures rest { links.new.rest ≡ links.old.rest }
{
    let Some(by) = indices.user(by) else {
        return;
    };
    let Some(at) = indices.atom(atom) else {
        return;
    };
    let owner = owner_index(owners, indices, atom);
    for user in whom {
        revoke_between(links, loss, owner, by, indices.user(user), at);
    }
}

/// Takes this from the links that a revocation names, and takes out those that fall with it. It
/// looks each of the names up once for a privilege, and none for a link that falls.
pub fn revoke(
    owners: &Owners,
    indices: &Indices,
    links: &mut Links,
    loss: Loss,
    by: &User,
    atoms: &[Atom],
    whom: &[User],
)
    requires { AreUpheld indices.now owners.now links.old.links }
    ensures upheld { AreUpheld indices.now owners.now links.new.links }
    ensures valid { grants_of_links indices.now links.new.links
        ≡ valid owners.now
        (grants_after loss by.now atoms.now whom.now
        (grants_of_links indices.now links.old.links)) }
    ensures next { links.new.next ≡ links.old.next }
    ensures rest { links.new.rest ≡ links.old.rest }
{
    for atom in atoms {
        revoke_of_atom(owners, indices, links, loss, by, atom, whom);
    }
}
