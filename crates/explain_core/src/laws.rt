//! Laws of histories, each the contract of a function that does nothing.
ghost use Rattle.std.specs.Prelude.{◌≡◌, ◌∷◌, ◌++◌, [], true, IfSome, List, All};
ghost use Rattle.base_core.specs.declared.name.User.{User};
ghost use Rattle.base_core.specs.declared.privilege.Atom.{Atom};
ghost use Rattle.grants_core.specs.declared.grant.Change.{Change};
ghost use Rattle.grants_core.specs.History.{content_after};
ghost use Rattle.explain_core.specs.Falls.{IsChangeAt, is_revocation};
ghost use Rattle.grants_core.specs.Lawful.{AreLawful};
ghost use Rattle.explain_core.specs.Lives.{lives_of};

/// A grant falls by a REVOKE alone, of grants or of their options.
pub fn grants_fall_by_revocations()
    ensures { (changes : List Change)
        → AreLawful changes
        → All (λ life. IfSome life.fell (λ at.
        (c : Change) × IsChangeAt changes at c × (is_revocation c ≡ true)))
        (lives_of changes) }
{}

/// A revocation from many users does what one from some and then one from the others does.
pub fn revocation_in_parts()
    ensures { (changes : List Change)
        (by : User) (atoms : List Atom) (some others : List User)
        → (content_after (changes ++ Change.Revoke by atoms some
        ∷ Change.Revoke by atoms others ∷ [])).in_force
        ≡ (content_after (changes ++ Change.Revoke by atoms (some ++ others) ∷ [])).in_force }
{}
