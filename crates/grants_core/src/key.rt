//! Privileges, who has them and who gave them, as keys of a map.

ghost use Rattle.std.specs.Prelude.{◌≡◌};
ghost use Rattle.grants_core.specs.Keys.{kind_letter, kind_column};

use base_core::{Atom, Kind, User};
use std::hash::{Hash, Hasher};

// The letter of a kind.
fn kind_letter(kind: &Kind) -> u8
    ensures { result ≡ kind_letter kind.now }
{
    match kind {
        Kind::Select(_) => b'S',
        Kind::Insert => b'I',
        Kind::Delete => b'D',
        Kind::Update(_) => b'U',
    }
}

// The name of a kind's column, or nothing where it has none.
fn kind_column(kind: &Kind) -> &[u8]
    ensures { result.now ≡ kind_column kind.now }
{
    match kind {
        Kind::Select(column) | Kind::Update(column) => column.as_bytes(),
        Kind::Insert | Kind::Delete => b"",
    }
}

/// A privilege as a key of a table by hash.
#[derive(Clone, Copy)]
pub struct Key(pub Atom);

impl PartialEq for Key {
    ghost use Rattle.std.specs.Cmp.{partial_equiv_from_equiv};
    ghost use Rattle.grants_core.specs.Keys.{same_key};
    ghost use Rattle.grants_core.specs.KeyLaws.{same_key-equivalence};

    ghost eq = { same_key };

    ghost laws = { partial_equiv_from_equiv same_key-equivalence };

    fn eq(&self, other: &Key) -> bool {
        self.0 == other.0
    }
}

impl Eq for Key {
    ghost use Rattle.grants_core.specs.KeyLaws.{same_key-equivalence};

    ghost laws = { same_key-equivalence };
}

impl Hash for Key {
    ghost use Rattle.std.proofs.Common.{ap};
    ghost use Rattle.grants_core.specs.Keys.{key_writes};
    ghost use Rattle.grants_core.specs.KeyLaws.{same_key-true};

    ghost hash_input = { key_writes };

    ghost respects_eq = { λ a b same. ap key_writes (same_key-true a b same) };

    fn hash<H: Hasher>(&self, state: &mut H) {
        self.0.table.hash(state);
        kind_letter(&self.0.kind).hash(state);
        kind_column(&self.0.kind).hash(state);
    }
}

/// A user and a privilege that he holds.
#[derive(Clone, Copy)]
pub struct Holding {
    pub user: User,
    pub privilege: Key,
}

impl PartialEq for Holding {
    ghost use Rattle.std.specs.Cmp.{partial_equiv_from_equiv};
    ghost use Rattle.grants_core.specs.Keys.{same_holding};
    ghost use Rattle.grants_core.specs.KeyLaws.{same_holding-equivalence};

    ghost eq = { same_holding };

    ghost laws = { partial_equiv_from_equiv same_holding-equivalence };

    fn eq(&self, other: &Holding) -> bool {
        self.user == other.user && self.privilege == other.privilege
    }
}

impl Eq for Holding {
    ghost use Rattle.grants_core.specs.KeyLaws.{same_holding-equivalence};

    ghost laws = { same_holding-equivalence };
}

impl Hash for Holding {
    ghost use Rattle.std.proofs.Common.{ap};
    ghost use Rattle.grants_core.specs.Keys.{holding_writes};
    ghost use Rattle.grants_core.specs.KeyLaws.{same_holding-true};

    ghost hash_input = { holding_writes };

    ghost respects_eq = { λ a b same. ap holding_writes (same_holding-true a b same) };

    fn hash<H: Hasher>(&self, state: &mut H) {
        self.user.0.hash(state);
        self.privilege.hash(state);
    }
}

/// Who granted, and what to whom.
#[derive(Clone, Copy)]
pub struct Granted {
    pub by: User,
    pub holding: Holding,
}

impl PartialEq for Granted {
    ghost use Rattle.std.specs.Cmp.{partial_equiv_from_equiv};
    ghost use Rattle.grants_core.specs.Keys.{same_granted};
    ghost use Rattle.grants_core.specs.KeyLaws.{same_granted-equivalence};

    ghost eq = { same_granted };

    ghost laws = { partial_equiv_from_equiv same_granted-equivalence };

    fn eq(&self, other: &Granted) -> bool {
        self.by == other.by && self.holding == other.holding
    }
}

impl Eq for Granted {
    ghost use Rattle.grants_core.specs.KeyLaws.{same_granted-equivalence};

    ghost laws = { same_granted-equivalence };
}

impl Hash for Granted {
    ghost use Rattle.std.proofs.Common.{ap};
    ghost use Rattle.grants_core.specs.Keys.{granted_writes};
    ghost use Rattle.grants_core.specs.KeyLaws.{same_granted-true};

    ghost hash_input = { granted_writes };

    ghost respects_eq = { λ a b same. ap granted_writes (same_granted-true a b same) };

    fn hash<H: Hasher>(&self, state: &mut H) {
        self.by.0.hash(state);
        self.holding.hash(state);
    }
}
