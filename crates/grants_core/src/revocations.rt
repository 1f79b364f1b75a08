//! Revocations by whom and what they name.
ghost use Rattle.std.specs.Prelude.{◌≡◌, [], ◌∷◌, if◌then◌else◌, OnOk};
ghost use Rattle.std.specs.Option.{option_map_or};
ghost use Rattle.grants_core.specs.declared.grant.Grant.{Grant as grants};
ghost use Rattle.grants_core.specs.Content.{names};
ghost use Rattle.grants_core.specs.Log.{noted_revocation};

use crate::grant::Grant;
use crate::key::{Granted, Holding, Key};
use base_core::{Atom, Moment, NoMemory, User};
use indexmap::IndexMap;

/// For each grantor, privilege and grantee the moment of the revocation that was noted last.
pub type Revocations = IndexMap<Granted, Moment>;

// Notes a revocation of one privilege.
fn note_each(
    noted: &mut Revocations,
    by: &User,
    atom: &Atom,
    whom: &[User],
    at: Moment,
) -> Result<(), NoMemory>
    ensures { OnOk result ((g : grants) → noted_revocation noted.new g
        ≡ (if names by.now (atom.now ∷ []) whom.now g then at.0 else noted_revocation noted.old g)) }
{
    for user in whom {
        let Atom { table, kind } = *atom;
        let holding = Holding {
            user: *user,
            privilege: Key(Atom { table, kind }),
        };
        noted.insert(Granted { by: *by, holding }, at)?;
    }
    Ok(())
}

/// Notes a revocation by this user of these atoms from these users, in place of earlier ones that
/// named the same. `NoMemory` where a request for memory was refused.
pub fn note_revocation(
    noted: &mut Revocations,
    by: &User,
    atoms: &[Atom],
    whom: &[User],
    at: Moment,
) -> Result<(), NoMemory>
    ensures { OnOk result ((g : grants) → noted_revocation noted.new g
        ≡ (if names by.now atoms.now whom.now g then at.0 else noted_revocation noted.old g)) }
{
    for atom in atoms {
        note_each(noted, by, atom, whom, at)?;
    }
    Ok(())
}

/// The moment that is noted for the grant's grantor, privilege and grantee, if one is.
#[tactic(auto, unfolding(crate::specs::Log::noted_revocation))]
pub fn noted_revocation(noted: &Revocations, grant: &Grant) -> Option<Moment>
    ensures { option_map_or (λ at. at.0) result 0 ≡ noted_revocation noted.now grant.now }
{
    let holding = Holding {
        user: grant.grantee,
        privilege: Key(grant.atom),
    };
    let by = grant.grantor;
    match noted.get(&Granted { by, holding }) {
        Some(at) => Some(*at),
        None => None,
    }
}
