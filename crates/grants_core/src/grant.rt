//! Grants, owners and changes.
ghost use Rattle.std.specs.Prelude.{◌≡◌};

use base_core::{Atom, Moment, Name, NoMemory, Sequence, Twin, User};

/// A single grant: who gave which privilege to whom, when, and whether he may grant it on.
#[derive(Clone, Copy, PartialEq, Eq)]
pub struct Grant {
    /// How many single grants were made before it.
    pub number: u64,
    pub moment: Moment,
    pub atom: Atom,
    pub grantor: User,
    pub grantee: User,
    /// Whether the grantee may grant the privilege on.
    pub option: bool,
}

impl Twin for Grant {
    /// It takes no memory.
    fn try_twin(&self) -> Result<Grant, NoMemory>
        ensures { result ≡ Ok self.now }
    {
        Ok(*self)
    }
}

/// A table's owner, and whether a grant on the table was ever made.
#[derive(Clone, Copy, PartialEq, Eq)]
pub struct Ownership {
    pub table: Name,
    pub owner: User,
    pub granted: bool,
}

/// An accepted change, as far as it touches grants.
#[derive(Drop)]
pub enum Change {
    Create {
        table: Name,
        owner: User,
    },
    Grant {
        by: User,
        atoms: Sequence<Atom>,
        whom: Sequence<User>,
        option: bool,
    },
    Revoke {
        by: User,
        atoms: Sequence<Atom>,
        whom: Sequence<User>,
    },
    /// Takes the option off the grants that it names, and leaves the grants.
    RevokeOption {
        by: User,
        atoms: Sequence<Atom>,
        whom: Sequence<User>,
    },
    Other,
}
