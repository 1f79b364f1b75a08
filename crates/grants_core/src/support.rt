//! Which grant supports which, gives what to whom, and is meant by a revocation.
ghost use Rattle.std.specs.Prelude.{◌≡◌};
ghost use Rattle.grants_core.specs.Valid.{supports};
ghost use Rattle.grants_core.specs.Content.{gives, names};

use crate::grant::Grant;
use base_core::{Atom, User};

impl Grant {
    /// Whether the grant lets the later one's grantor make it: it gives him the same atom with the
    /// option, at an earlier moment.
    #[tactic(auto, unfolding(crate::specs::Valid::supports))]
    pub fn supports(&self, later: &Grant) -> bool
        ensures { result ≡ supports self.now later.now }
    {
        self.option
            && self.atom == later.atom
            && self.grantee == later.grantor
            && self.moment.0 < later.moment.0
    }

    /// Whether the grant gives the user the atom.
    #[tactic(auto, unfolding(crate::specs::Content::gives))]
    pub fn gives(&self, user: &User, atom: &Atom) -> bool
        ensures { result ≡ gives user.now atom.now self.now }
    {
        self.atom == *atom && self.grantee == *user
    }

    /// Whether a revocation by this user of these atoms from these users names the grant.
    #[tactic(auto, unfolding(crate::specs::Content::names))]
    pub fn is_named(&self, by: &User, atoms: &[Atom], whom: &[User]) -> bool
        ensures { result ≡ names by.now atoms.now whom.now self.now }
    {
        *by == self.grantor && atoms.contains(&self.atom) && whom.contains(&self.grantee)
    }
}
