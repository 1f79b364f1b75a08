//! Which grant supports a user's grants longest.
ghost use Rattle.std.specs.Prelude.{◌≡◌, ◌≤◌, [], Some, slice_get, OnOk};
ghost use Rattle.indexmap.specs.IndexMap.{get};
ghost use Rattle.grants_core.specs.declared.key.Holding.{Holding as holdings};
ghost use Rattle.grants_core.specs.Keys.{same_holding, needed_by};
ghost use Rattle.explain_core.specs.declared.life.Life.{Life as lifes};
ghost use Rattle.explain_core.specs.Ends.{is_later, earlier};
ghost use Rattle.explain_core.specs.Supports.{outlasts, noted_with, AreLongest, AreEarly};

use crate::life::Life;
use base_core::{Atom, Moment, NoMemory};
use grants_core::{Grant, Holding, Key};
use indexmap::IndexMap;
use std::alloc::Global;

/// A life, by its place, and when its option ended, if it has.
#[derive(Clone, Copy)]
pub struct Support {
    pub place: usize,
    pub until: Option<Moment>,
}

/// Whether the first of two ends comes later. None is never.
fn is_later(end: Option<Moment>, other: Option<Moment>) -> bool
    ensures { result ≡ is_later end other }
{
    match (end, other) {
        (_, None) => false,
        (None, Some(_)) => true,
        (Some(a), Some(b)) => b.0 < a.0,
    }
}

/// The earlier of two ends.
pub fn earlier(end: Option<Moment>, other: Option<Moment>) -> Option<Moment>
    ensures { result ≡ earlier end other }
{
    if is_later(end, other) { other } else { end }
}

/// For each user and privilege, of the lives up to some moment, the one whose option lasts longest.
#[derive(Drop)]
pub struct Supports {
    /// How many lives were noted.
    noted: usize,
    longest: IndexMap<Holding, Support>,
}

impl Supports {
    /// Nothing was noted yet.
    pub fn new(alloc: Global) -> Supports
        ensures noted { result.noted ≡ 0 }
        ensures longest { result.longest.entries ≡ [] }
    {
        Supports {
            noted: 0,
            longest: IndexMap::new(alloc),
        }
    }

    /// Whether an end comes later than that of the life that is noted, or none is noted.
    fn is_outlasted(&self, holding: &Holding, until: Option<Moment>) -> bool
        ensures { result ≡ outlasts until (get same_holding self.now.longest holding.now) }
    {
        match self.longest.get(holding) {
            Some(support) => is_later(until, support.until),
            None => true,
        }
    }

    /// Notes the life at this place.
    fn note(&mut self, place: usize, life: &Life) -> Result<(), NoMemory>
        ensures noted { OnOk result (self.new.noted ≡ self.old.noted) }
        ensures longest { OnOk result ((w : holdings) → get same_holding self.new.longest w
            ≡ noted_with place life.now w (get same_holding self.old.longest w)) }
    {
        if !life.grant.option {
            return Ok(());
        }
        let Atom { table, kind } = life.grant.atom;
        let holding = Holding {
            user: life.grant.grantee,
            privilege: Key(Atom { table, kind }),
        };
        let until = life.option_end;
        if self.is_outlasted(&holding, until) {
            self.longest.insert(holding, Support { place, until })?;
        }
        Ok(())
    }

    /// Notes the lives that began before the moment.
    pub fn note_before(&mut self, lives: &[Life], moment: Moment) -> Result<(), NoMemory>
        requires longest { AreLongest lives.now self.old }
        requires early { AreEarly lives.now self.old moment }
        ensures longest { OnOk result (AreLongest lives.now self.new) }
        ensures early { OnOk result (AreEarly lives.now self.new moment) }
        ensures all { OnOk result ((life : lifes)
            → slice_get lives.now self.new.noted ≡ Some life
            → moment.0 ≤ life.grant.moment.0) }
    {
        while self.noted < lives.len() && lives[self.noted].grant.moment.0 < moment.0 {
            self.note(self.noted, &lives[self.noted])?;
            self.noted += 1;
        }
        Ok(())
    }

    /// The life that was noted and supports the grant longest.
    pub fn of(&self, grant: &Grant) -> Option<Support>
        ensures { result ≡ get same_holding self.now.longest (needed_by grant.now) }
    {
        let needed = Holding {
            user: grant.grantor,
            privilege: Key(grant.atom),
        };
        Some(*self.longest.get(&needed)?)
    }
}
