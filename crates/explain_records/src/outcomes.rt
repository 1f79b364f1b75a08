//! What a change leaves to those whose grants it takes.
ghost use Rattle.std.specs.Prelude.{◌≡◌, Some, None, option_map, IfOk, OnOk};
ghost use Rattle.indexmap.specs.IndexMap.{get};
ghost use Rattle.grants_core.specs.declared.key.Holding.{Holding as holdings};
ghost use Rattle.grants_core.specs.Keys.{given_by, same_holding};
ghost use Rattle.explain_core.specs.Lives.{lives_of};
ghost use Rattle.explain_records.specs.Outcomes.{AreOutcomes, outcome_at};
ghost use Rattle.explain_records.specs.Noted.{first_some, kept_by, standing_among, standing_with, taken_alone, taken_among, taken_with, was_lost};

use base_core::{Atom, Moment, NoMemory};
use explain_core::{History, Life};
use grants_core::{Holding, Key};
use indexmap::IndexMap;
use std::alloc::Global;

/// What is left to a user of a privilege.
#[derive(Clone, Copy)]
pub struct Outcome {
    /// The number of the first grant in force by which he still has it.
    pub kept: Option<u64>,
    /// Whether the change took an option of it from him.
    pub lost_option: bool,
    /// Whether a grant in force gives it to him with the option.
    pub has_option: bool,
}

/// What a change leaves, by user and privilege, in the order of the grants that it takes.
#[derive(Drop)]
pub struct Outcomes {
    pub of: IndexMap<Holding, Outcome>,
}

/// What the grant of a life gives, and to whom.
fn holding_of(life: &Life) -> Holding
    ensures { result ≡ given_by life.now.grant }
{
    let Atom { table, kind } = life.grant.atom;
    Holding {
        user: life.grant.grantee,
        privilege: Key(Atom { table, kind }),
    }
}

/// The first of two, of which there may be no other yet.
fn first_some(first: Option<u64>, next: u64) -> Option<u64>
    ensures { result ≡ first_some first (Some next) }
{
    match first {
        Some(first) => Some(first),
        None => Some(next),
    }
}

/// What is known once lives were taken, and before one that is in force is noted.
fn taken_alone(lost_option: bool) -> Outcome
    ensures { result ≡ taken_alone lost_option }
{
    let (kept, has_option) = (None, false);
    Outcome {
        kept,
        lost_option,
        has_option,
    }
}

/// What is left, with a life that is in force.
fn kept_by(outcome: Outcome, life: &Life) -> Outcome
    ensures { result ≡ kept_by life.now outcome }
{
    Outcome {
        kept: first_some(outcome.kept, life.grant.number),
        lost_option: outcome.lost_option,
        has_option: outcome.has_option || life.option_end.is_none(),
    }
}

impl Outcomes {
    /// What is left to a user of a privilege, if a grant of it was taken from him, or its option.
    pub fn of_holding(&self, holding: &Holding) -> Option<Outcome>
        ensures { result ≡ get same_holding self.now.of holding.now }
    {
        self.of.get(holding).copied()
    }

    /// Whether an option is noted as lost.
    fn was_lost(&self, holding: &Holding) -> bool
        ensures { result ≡ was_lost (get same_holding self.now.of holding.now) }
    {
        match self.of_holding(holding) {
            Some(outcome) => outcome.lost_option,
            None => false,
        }
    }

    /// Notes a life, if the change took its grant or option.
    fn note_taken(&mut self, life: &Life, at: Moment) -> Result<(), NoMemory>
        ensures { OnOk result ((w : holdings) → get same_holding self.new.of w
            ≡ taken_with at life.now w (get same_holding self.old.of w)) }
    {
        if !life.is_taken_at(at) {
            return Ok(());
        }
        let Atom { table, kind } = life.grant.atom;
        let holding = Holding {
            user: life.grant.grantee,
            privilege: Key(Atom { table, kind }),
        };
        let lost_option = self.was_lost(&holding) || life.loses_option_at(at);
        self.of.insert(holding, taken_alone(lost_option))?;
        Ok(())
    }

    /// Notes a life that is in force, where one of the same was taken.
    fn note_standing(&mut self, life: &Life) -> Result<(), NoMemory>
        ensures { OnOk result ((w : holdings) → get same_holding self.new.of w
            ≡ option_map (standing_with life.now w) (get same_holding self.old.of w)) }
    {
        if life.fell.is_some() {
            return Ok(());
        }
        let Atom { table, kind } = life.grant.atom;
        let holding = Holding {
            user: life.grant.grantee,
            privilege: Key(Atom { table, kind }),
        };
        let Some(outcome) = self.of_holding(&holding) else {
            return Ok(());
        };
        self.of.insert(holding, kept_by(outcome, life))?;
        Ok(())
    }

    fn note_all_taken(&mut self, lives: &[Life], at: Moment) -> Result<(), NoMemory>
        requires { (w : holdings) → get same_holding self.old.of w ≡ None }
        ensures { OnOk result ((w : holdings) → get same_holding self.new.of w
            ≡ taken_among at w lives.now) }
    {
        for life in lives {
            self.note_taken(life, at)?;
        }
        Ok(())
    }

    fn note_all_standing(&mut self, lives: &[Life]) -> Result<(), NoMemory>
        ensures { OnOk result ((w : holdings) → get same_holding self.new.of w
            ≡ option_map (standing_among w lives.now) (get same_holding self.old.of w)) }
    {
        for life in lives {
            self.note_standing(life)?;
        }
        Ok(())
    }

    fn note(&mut self, lives: &[Life], at: Moment) -> Result<(), NoMemory>
        requires { (w : holdings) → get same_holding self.old.of w ≡ None }
        ensures { OnOk result ((w : holdings) → get same_holding self.new.of w
            ≡ outcome_at lives.now at w) }
    {
        self.note_all_taken(lives, at)?;
        self.note_all_standing(lives)
    }

    /// What the change of this moment, which is the last, leaves to each user from whom it takes a grant or an option,
    /// and of which privilege. `NoMemory` where a request for memory was refused.
    pub fn read(alloc: Global, history: &History, at: Moment) -> Result<Outcomes, NoMemory>
        ensures { IfOk result (AreOutcomes (lives_of history.now) at) }
    {
        let mut outcomes = Outcomes {
            of: IndexMap::new(alloc),
        };
        match outcomes.note(history.lives(), at) {
            Ok(()) => Ok(outcomes),
            Err(NoMemory) => {
                drop(outcomes);
                Err(NoMemory)
            }
        }
    }

    /// What is left to the grantee of a life, if a grant of the same was taken from him, or its option.
    pub fn of_life(&self, life: &Life) -> Option<Outcome>
        ensures { result ≡ get same_holding self.now.of (given_by life.now.grant) }
    {
        self.of_holding(&holding_of(life))
    }
}
