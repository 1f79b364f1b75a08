//! Histories of rights.
ghost use Rattle.std.specs.Prelude.{◌≡◌, ◌+◌, ◌<◌, List, length, IfOk, OnOk, Some, filter, slice_get};
ghost use Rattle.grants_core.specs.declared.grant.Change.{Change as changes};
ghost use Rattle.grants_core.specs.declared.grant.Grant.{Grant as grants};
ghost use Rattle.grants_core.specs.Owners.{owns};
ghost use Rattle.grants_core.specs.History.{granted, owners_after, in_force_after};
ghost use Rattle.grants_core.specs.Lawful.{AreLawful};
ghost use Rattle.explain_core.specs.Ends.{life_until, next_ends, upheld_until};
ghost use Rattle.explain_core.specs.Kept.{Explains};
ghost use Rattle.explain_core.specs.Lives.{lives_of, given_to};
ghost use Rattle.explain_core.specs.Reading.{AreEarlier, IsRead};
ghost use Rattle.explain_core.specs.Supports.{AreLongest};

use crate::coming::{Ends, next_ends};
use crate::life::Life;
use crate::made::Made;
use crate::supports::{Support, Supports, earlier};
use base_core::{Atom, Moment, NoMemory, User};
use grants_core::{Change, Grant, Owners};
use std::alloc::Global;
use std::marker::Model;

/// Changes of rights, and of each single grant that they made how long it stood. Contracts see the
/// list of the changes.
#[derive(Drop)]
pub struct History {
    pub(crate) changes: Vec<Change>,
    pub(crate) owners: Owners,
    pub(crate) lives: Vec<Life>,
    /// For each life the place of that which supported it longest, if it is not by the owner.
    pub(crate) supports: Vec<Option<usize>>,
}

impl Model for History {
    ghost use Rattle.std.specs.Prelude.{List};
    ghost use Rattle.grants_core.specs.declared.grant.Change.{Change};
    ghost use Rattle.explain_core.specs.Kept.{Explains};

    ghost Value = { List Change };

    ghost view = { λ h. h.changes.items };

    ghost invariant = { λ h.
        Explains h.changes.items h.owners h.lives.items h.supports.items };
}

/// The life of a grant that is next revoked so, and which is by the owner or has this support.
fn life_of(grant: &Grant, ends: Ends, is_owners: bool, support: Option<Support>) -> Life
    ensures { result ≡ life_until grant.now ends (upheld_until grant.now is_owners support) }
{
    let upheld_until = match support {
        _ if is_owners => None,
        Some(support) => support.until,
        None => Some(grant.moment),
    };
    let fell = earlier(ends.struck, upheld_until);
    let option_end = if grant.option {
        earlier(ends.unoptioned, fell)
    } else {
        Some(grant.moment)
    };
    Life {
        grant: *grant,
        fell,
        option_end,
    }
}

/// Adds the life of the next grant, and its support.
fn add_life(
    made: &Made,
    lives: &mut Vec<Life>,
    places: &mut Vec<Option<usize>>,
    supports: &mut Supports,
    ends: Ends,
) -> Result<(), NoMemory>
    requires one_more { length lives.old.items < length made.now.grants.items }
    requires longest { AreLongest lives.old.items supports.old }
    requires earlier { AreEarlier made.now lives.old.items supports.old }
    ensures one { OnOk result (length lives.new.items ≡ length lives.old.items + 1) }
    ensures longest { OnOk result (AreLongest lives.new.items supports.new) }
    ensures earlier { OnOk result ((changes : List changes)
        → IsRead changes made.now lives.old.items places.old.items
        → AreEarlier made.now lives.new.items supports.new) }
    ensures reads { OnOk result ((changes : List changes) (g : grants)
        → slice_get made.now.grants.items (length lives.old.items) ≡ Some g
        → ends ≡ next_ends changes g
        → IsRead changes made.now lives.old.items places.old.items
        → IsRead changes made.now lives.new.items places.new.items) }
{
    let grant = &made.grants[lives.len()];
    supports.note_before(lives.as_slice(), grant.moment)?;
    let is_owners = made.owners.owns(&grant.grantor, &grant.atom);
    let support = if is_owners { None } else { supports.of(grant) };
    lives.push(life_of(grant, ends, is_owners, support))?;
    places.push(match support {
        Some(support) => Some(support.place),
        None => None,
    })?;
    Ok(())
}

/// The lives of the grants that the changes made, and their supports.
fn read_lives(
    alloc: Global,
    changes: &[Change],
    made: &Made,
) -> Result<(Vec<Life>, Vec<Option<usize>>), NoMemory>
    requires lawful { AreLawful changes.now }
    requires owners { made.now.owners ≡ owners_after changes.now }
    requires grants { made.now.grants.items ≡ granted changes.now }
    ensures { IfOk result
        (λ read. Explains changes.now made.now.owners read.0.items read.1.items) }
{
    let ends = next_ends(alloc, changes, &made.grants)?;
    let mut lives = Vec::new(alloc);
    let mut places = Vec::new(alloc);
    let mut supports = Supports::new(alloc);
    for next in &ends {
        let Ok(()) = add_life(made, &mut lives, &mut places, &mut supports, *next) else {
            drop(supports);
            return Err(NoMemory);
        };
    }
    drop(supports);
    Ok((lives, places))
}

impl History {
    /// The history of these changes, of which the m-th is that of moment m: each table is created
    /// once, before any grant on it, and each grant is by a user who may grant all of it at that
    /// point, as an authority accepts them. `NoMemory` where a request for memory was refused.
    pub fn read(alloc: Global, changes: Vec<Change>) -> Result<History, NoMemory>
        requires { AreLawful changes.items }
        ensures { IfOk result (λ history. history ≡ changes.items) }
    {
        let made = Made::read(alloc, &changes)?;
        let Ok((lives, supports)) = read_lives(alloc, &changes, &made) else {
            drop(made);
            return Err(NoMemory);
        };
        Ok(History {
            changes,
            owners: made.owners,
            lives,
            supports,
        })
    }

    /// The changes, in order.
    pub fn changes(&self) -> &[Change]
        ensures value { result.now ≡ self.now }
        ensures lawful { AreLawful self.now }
    {
        self.changes.as_slice()
    }

    /// The lives of all single grants that were made, in order: that of number n is at n.
    pub fn lives(&self) -> &[Life]
        ensures { result.now ≡ lives_of self.now }
    {
        self.lives.as_slice()
    }

    /// Whether the user owns the atom's table.
    pub fn owns(&self, user: &User, atom: &Atom) -> bool
        ensures { result ≡ owns (owners_after self.now) user.now atom.now }
    {
        self.owners.owns(user, atom)
    }

    /// The grants in force, in order. `NoMemory` where a request for memory was refused.
    pub fn in_force(&self, alloc: Global) -> Result<Vec<Grant>, NoMemory>
        ensures { IfOk result (λ grants. grants.items ≡ in_force_after self.now) }
    {
        let mut grants = Vec::new(alloc);
        for life in &self.lives {
            if life.fell.is_none() {
                grants.push(life.left())?;
            }
        }
        Ok(grants)
    }

    /// The lives of the grants of the atom that were ever made to the user, in order. `NoMemory`
    /// where a request for memory was refused.
    pub fn given_to(&self, alloc: Global, user: &User, atom: &Atom) -> Result<Vec<Life>, NoMemory>
        ensures { IfOk result (λ lives. lives.items ≡ given_to self.now user.now atom.now) }
    {
        let mut given = Vec::new(alloc);
        for life in &self.lives {
            if life.grant.gives(user, atom) {
                given.push(*life)?;
            }
        }
        Ok(given)
    }
}
