//! An object for tests, which counts its turns up to a number that is fixed.
ghost use Rattle.std.specs.Prelude.{◌≡◌, []};

use crate::object::Object;
use std::alloc::Global;
use std::marker::Model;

/// The numbers of turns from 0 on, below `most`, are handed out in order, and some of these turns are
/// entered: entries are the passes of those. Contracts see the three parts.
#[derive(Drop)]
pub struct Tally {
    most: u64,
    counted: u64,
    entries: Vec<u64>,
}

impl Model for Tally {
    ghost use Rattle.turnstile.specs.Tallies.{Tallied};

    ghost Value = { Tallied };

    ghost view = { λ t. record { most = t.most; counted = t.counted; entries = t.entries.items } };
}

impl Object for Tally {
    ghost use Rattle.std.specs.Prelude.{ℕ};
    ghost use Rattle.turnstile.specs.Tallies.{Tallied, Tallies, tally_grows};

    /// Whether the turn is to be entered.
    type Ask = bool;

    /// The number of the turn. There is none, and nothing happens, where all were handed out, or
    /// where memory for the entry was refused.
    type Reply = Option<u64>;

    type Entry = u64;

    type Fixed = u64;

    ghost log = { λ t. t.entries };

    ghost by = { λ e. e };

    ghost mark = { λ t. t.counted };

    ghost fixed = { λ t. t.most };

    ghost may = { λ t a. Unit {0} };

    ghost acts = { λ t p a r u. Tallies t p a r u };

    fn act(&mut self, pass: u64, entered: bool) -> Option<u64> {
        let number = self.counted;
        if number >= self.most {
            return None;
        }
        if entered {
            self.entries.push(pass).ok()?;
        }
        self.counted = number + 1;
        Some(number)
    }

    fn fixed_part(&self) -> u64 {
        self.most
    }

    ghost grows = { λ t p a r u h. tally_grows t p a r u h };
}

impl Tally {
    /// No turn was counted. It takes no memory.
    pub fn new(alloc: Global, most: u64) -> Tally
        ensures { result ≡ record { most = most; counted = 0; entries = [] } }
    {
        Tally {
            most,
            counted: 0,
            entries: Vec::new(alloc),
        }
    }

    /// The turns that asked to be entered, by their passes.
    pub fn entries(&self) -> &[u64]
        ensures { result.now ≡ self.now.entries }
    {
        self.entries.as_slice()
    }
}
