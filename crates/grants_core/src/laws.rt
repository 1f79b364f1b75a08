//! Laws of the grants in force, each the contract of a function that does nothing.
ghost use Rattle.std.specs.Prelude.{◌≡◌, ℕ, ◌+◌, ◌++◌, ◌∷◌, [], Bool, true, false, ◌&&◌, List, filter, map, length, All, ◌↔◌};
ghost use Rattle.std.specs.List.{range_with_len};
ghost use Rattle.base_core.specs.declared.name.Name.{Name};
ghost use Rattle.base_core.specs.declared.name.User.{User};
ghost use Rattle.base_core.specs.declared.privilege.Atom.{Atom};
ghost use Rattle.base_core.specs.Users.{same_user};
ghost use Rattle.grants_core.specs.declared.grant.Grant.{Grant};
ghost use Rattle.grants_core.specs.declared.grant.Ownership.{Ownership};
ghost use Rattle.grants_core.specs.declared.grant.Change.{Change};
ghost use Rattle.grants_core.specs.Valid.{valid, is_supported, IsPart, IsInOrder, AreSupported};
ghost use Rattle.grants_core.specs.Content.{holds, may_grant, has_made, names, option_off, options_off, after_create, after_grant, after_revoke, after_revoke_option};
ghost use Rattle.grants_core.specs.Numbers.{IsNumbered};
ghost use Rattle.grants_core.specs.History.{granted, made_by_all, is_granted, owners_after, in_force_after, content_after};
ghost use Rattle.grants_core.specs.Noted.{is_noted, is_granted_once_created, is_granted_uncreated, AreToSomebody, AreGrantable};

/// Whatever is valid in a part of a list of grants is valid in the list: more grants make none
/// fall.
pub fn valid_of_a_part()
    ensures { (owners : List Ownership) (part grants : List Grant)
        → IsPart part grants
        → IsPart (valid owners part) (valid owners grants) }
{}

/// Grants may be taken from the valid ones or from all: the same ones of the rest are valid.
pub fn valid_of_the_valid()
    ensures { (owners : List Ownership) (p : Grant → Bool) (grants : List Grant)
        → valid owners (filter p (valid owners grants)) ≡ valid owners (filter p grants) }
{}

/// Options may come off the valid grants or off all: the same ones are then valid.
pub fn valid_without_options()
    ensures { (owners : List Ownership) (test : Grant → Bool) (grants : List Grant)
        → valid owners (map (option_off test) (valid owners grants))
        ≡ valid owners (map (option_off test) grants) }
{}

/// Of each valid grant, and so of each grant in force, the grantor owns the table, or another such
/// grant gave him the atom with the option at an earlier moment.
pub fn valid_is_supported()
    ensures valid { (owners : List Ownership) (grants : List Grant)
        → AreSupported owners (valid owners grants) (valid owners grants) }
    ensures in_force { (changes : List Change)
        → AreSupported (owners_after changes) (in_force_after changes) (in_force_after changes) }
{}

/// In a list in the order of moments that supports each of its grants, each is valid.
pub fn supported_is_valid()
    ensures { (owners : List Ownership) (grants : List Grant)
        → IsInOrder grants
        → AreSupported owners grants grants
        → valid owners grants ≡ grants }
{}

/// A grant that the list doesn't support may be taken out of it: the same ones are valid.
pub fn unsupported_is_needless()
    ensures { (owners : List Ownership) (before : List Grant) (g : Grant) (after : List Grant)
        → is_supported owners (before ++ g ∷ after) g ≡ false
        → valid owners (before ++ after) ≡ valid owners (before ++ g ∷ after) }
{}

/// A creation of a table on which no grant was ever made sets its owner and changes nothing else.
pub fn after_a_creation()
    ensures { (changes : List Change) (table : Name) (owner : User)
        → is_granted changes table ≡ false
        → content_after (changes ++ Change.Create table owner ∷ [])
        ≡ after_create (content_after changes) table owner }
{}

/// A grant by a user who may grant each of the atoms adds its single grants, at its moment.
pub fn after_a_grant()
    ensures { (changes : List Change)
        (by : User) (atoms : List Atom) (whom : List User) (option : Bool)
        → All (λ atom. may_grant (owners_after changes) (in_force_after changes) by atom ≡ true)
        atoms
        → content_after (changes ++ Change.Grant by atoms whom option ∷ [])
        ≡ after_grant (content_after changes) by atoms whom option
        (record { 0 = 1 + length changes }) }
{}

/// A revocation leaves in force exactly the valid ones of the grants in force that it doesn't name.
pub fn after_a_revocation()
    ensures { (changes : List Change) (by : User) (atoms : List Atom) (whom : List User)
        → content_after (changes ++ Change.Revoke by atoms whom ∷ [])
        ≡ after_revoke (content_after changes) by atoms whom }
{}

/// A revocation of the option leaves in force exactly the valid ones of the grants in force once
/// the options of those that it names are off.
pub fn after_an_option_revocation()
    ensures { (changes : List Change) (by : User) (atoms : List Atom) (whom : List User)
        → content_after (changes ++ Change.RevokeOption by atoms whom ∷ [])
        ≡ after_revoke_option (content_after changes) by atoms whom }
{}

/// Another change leaves everything as it was.
pub fn after_another_change()
    ensures { (changes : List Change)
        → content_after (changes ++ Change.Other ∷ []) ≡ content_after changes }
{}

/// The grants that were made are numbered from 0, in order. So the numbers of those in force rise,
/// and each is below how many were ever made.
pub fn numbers_rise()
    ensures granted { (changes : List Change)
        → map (λ g. g.number) (granted changes) ≡ range_with_len 0 (made_by_all changes) }
    ensures in_force { (changes : List Change)
        → IsNumbered (content_after changes).made (content_after changes).in_force }
{}

/// A table is noted exactly where a grant of an atom of it, even to nobody, came after its first
/// creation. So where each such grant is to somebody, single grants were made on each noted table;
/// and each table on which one was made is noted, where no grant came before its creation. None
/// does where each is by a user who may grant it at that point: then a table is noted exactly
/// where a grant on it was ever made.
pub fn noted_where_granted()
    ensures noted { (changes : List Change) (table : Name)
        → is_noted changes table ≡ is_granted_once_created changes table }
    ensures made { (changes : List Change) (table : Name)
        → AreToSomebody changes table
        → is_noted changes table ≡ true
        → is_granted changes table ≡ true }
    ensures made_noted { (changes : List Change) (table : Name)
        → is_granted_uncreated changes table ≡ false
        → is_granted changes table ≡ true
        → is_noted changes table ≡ true }
    ensures created { (changes : List Change) (table : Name)
        → AreGrantable changes
        → is_granted_uncreated changes table ≡ false }
    ensures lawful { (changes : List Change) (table : Name)
        → AreGrantable changes
        → AreToSomebody changes table
        → is_noted changes table ≡ is_granted changes table }
{}

/// A revocation changes nothing exactly where it names no grant in force.
pub fn unnamed_is_needless()
    ensures { (changes : List Change) (by : User) (atoms : List Atom) (whom : List User)
        → (after_revoke (content_after changes) by atoms whom ≡ content_after changes)
        ↔ All (λ g. names by atoms whom g ≡ false) (in_force_after changes) }
{}

/// A revocation of the option changes nothing exactly where it names no grant in force with the
/// option.
pub fn unoptioned_is_needless()
    ensures { (changes : List Change) (by : User) (atoms : List Atom) (whom : List User)
        → (after_revoke_option (content_after changes) by atoms whom ≡ content_after changes)
        ↔ All (λ g. (g.option && names by atoms whom g) ≡ false) (in_force_after changes) }
{}

/// A revocation of the option takes no grant of the user who revokes it: each stays in force, and
/// those that it names stay without their option. So whomever he gave a right still holds it.
pub fn named_keep_the_right()
    ensures stay { (changes : List Change) (by : User) (atoms : List Atom) (whom : List User)
        → IsPart (options_off by atoms whom
        (filter (λ g. same_user g.grantor by) (in_force_after changes)))
        (in_force_after (changes ++ Change.RevokeOption by atoms whom ∷ [])) }
    ensures named { (changes : List Change) (by : User) (atoms : List Atom) (whom : List User)
        → IsPart (map {A = Grant} (λ g. record g { option = false })
        (filter (names by atoms whom) (in_force_after changes)))
        (in_force_after (changes ++ Change.RevokeOption by atoms whom ∷ [])) }
    ensures holds { (changes : List Change) (by : User) (atoms : List Atom) (whom : List User)
        (user : User) (atom : Atom)
        → has_made (in_force_after changes) by user atom ≡ true
        → holds (owners_after (changes ++ Change.RevokeOption by atoms whom ∷ []))
        (in_force_after (changes ++ Change.RevokeOption by atoms whom ∷ [])) user atom ≡ true }
{}

/// A revocation of the option takes no more than one of the grants themselves: what is in force
/// after the latter is in force after the former too.
pub fn option_takes_no_more()
    ensures { (changes : List Change) (by : User) (atoms : List Atom) (whom : List User)
        → IsPart (in_force_after (changes ++ Change.Revoke by atoms whom ∷ []))
        (in_force_after (changes ++ Change.RevokeOption by atoms whom ∷ [])) }
{}
