//! Who has which privilege by grants in force, and who may grant it on.
ghost use Rattle.std.specs.Prelude.{◌≡◌, None, is_some, IfOk, OnOk};
ghost use Rattle.indexmap.specs.IndexMap.{get};
ghost use Rattle.grants_core.specs.declared.key.Holding.{Holding as holdings};
ghost use Rattle.grants_core.specs.Keys.{same_holding};
ghost use Rattle.explain_core.specs.Lives.{lives_of};
ghost use Rattle.explain_records.specs.Held.{AreHeld, has_option_noted, held_as, held_with, holding_of};

use base_core::{Atom, NoMemory, User};
use explain_core::{History, Life};
use grants_core::{Holding, Key};
use indexmap::IndexMap;
use std::alloc::Global;

/// By user and privilege whether a grant in force gives it to him with the option.
#[derive(Drop)]
pub struct Held {
    pub of: IndexMap<Holding, bool>,
}

fn holding_of(user: &User, atom: &Atom) -> Holding
    ensures { result ≡ holding_of user.now atom.now }
{
    Holding {
        user: *user,
        privilege: Key(*atom),
    }
}

impl Held {
    /// Whether the option is noted.
    fn has_option(&self, holding: &Holding) -> bool
        ensures { result ≡ has_option_noted (get same_holding self.now.of holding.now) }
    {
        match self.of.get(holding) {
            Some(option) => *option,
            None => false,
        }
    }

    /// Notes a life, if it is in force.
    fn note(&mut self, life: &Life) -> Result<(), NoMemory>
        ensures { OnOk result ((w : holdings) → get same_holding self.new.of w
            ≡ held_with life.now w (get same_holding self.old.of w)) }
    {
        if life.fell.is_some() {
            return Ok(());
        }
        let Atom { table, kind } = life.grant.atom;
        let holding = Holding {
            user: life.grant.grantee,
            privilege: Key(Atom { table, kind }),
        };
        let option = self.has_option(&holding) || life.option_end.is_none();
        self.of.insert(holding, option)?;
        Ok(())
    }

    fn note_all(&mut self, lives: &[Life]) -> Result<(), NoMemory>
        requires { (w : holdings) → get same_holding self.old.of w ≡ None }
        ensures { OnOk result (AreHeld lives.now self.new) }
    {
        for life in lives {
            self.note(life)?;
        }
        Ok(())
    }

    /// What is held by the history. `NoMemory` where a request for memory was refused.
    pub fn read(alloc: Global, history: &History) -> Result<Held, NoMemory>
        ensures { IfOk result (AreHeld (lives_of history.now)) }
    {
        let mut held = Held {
            of: IndexMap::new(alloc),
        };
        match held.note_all(history.lives()) {
            Ok(()) => Ok(held),
            Err(NoMemory) => {
                drop(held);
                Err(NoMemory)
            }
        }
    }

    /// Whether a grant in force gives the user the atom.
    pub fn has(&self, user: &User, atom: &Atom) -> bool
        ensures { result ≡ is_some (get same_holding self.now.of (holding_of user.now atom.now)) }
    {
        self.of.get(&holding_of(user, atom)).is_some()
    }

    /// Whether one does with its option.
    pub fn has_with_option(&self, user: &User, atom: &Atom) -> bool
        ensures { result
            ≡ has_option_noted (get same_holding self.now.of (holding_of user.now atom.now)) }
    {
        self.has_option(&holding_of(user, atom))
    }
}
