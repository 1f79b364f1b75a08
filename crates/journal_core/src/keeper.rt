//! What keeps accepted changes.
ghost use Rattle.std.specs.Prelude.{◌≡◌, ℕ, List, Bool, true, false, OnOk, OnErr, MatchResult};
ghost use Rattle.reader_core.specs.Language.{Spells};
ghost use Rattle.folder_core.specs.declared.errand.Errand.{Errand};
ghost use Rattle.system_core.specs.declared.machine.event.Entry.{Entry};

use base_core::Broken;
use folder_core::Errand;
use system_core::Entry;

/// What keeps accepted changes, one after another. Each is kept before its reply is written, so
/// that what was told can be made again. What could not be kept of a change is owed, and may be
/// tried again.
pub trait Keeper {
    // From the first state the entry is kept, and the second is the next.
    ghost keeps: { Self → Entry → Self → Type 0 };
    // From the first state the entry was begun, and the second owes what is left of it.
    ghost owes: { Self → Entry → Self → Type 0 };
    // What is left of an entry is owed.
    ghost owing: { Self → Bool };
    // It may be asked to run this errand between changes.
    ghost may_run: { Self → Errand → Type 0 };

    /// Whether what is left of an entry is owed.
    fn is_owing(&self) -> bool
        ensures { result ≡ owing self.now };

    /// Keeps an entry, of which some line spells the statement. On an `Err` it could not be kept
    /// whole, and what is left of it is owed.
    fn keep(&mut self, entry: &Entry) -> Result<(), Broken>
        requires settled { owing self.old ≡ false }
        requires spelled { (line : List ℕ) × Spells line entry.now.statement }
        ensures owing { MatchResult result (λ _. owing self.new ≡ false)
            (λ _. owing self.new ≡ true) }
        ensures ok { OnOk result (keeps self.old entry.now self.new) }
        ensures err { OnErr result (owes self.old entry.now self.new) };

    /// Tries to keep what is owed, if anything is. On an `Err` what is left of it is owed still.
    fn settle(&mut self) -> Result<(), Broken>
        ensures nothing { owing self.old ≡ false → self.new ≡ self.old }
        ensures owing { MatchResult result (λ _. owing self.new ≡ false)
            (λ _. owing self.new ≡ true) }
        ensures ok { OnOk result ((start : Self) (entry : Entry)
            → owes start entry self.old → keeps start entry self.new) }
        ensures err { OnErr result ((start : Self) (entry : Entry)
            → owes start entry self.old → owes start entry self.new) };

    /// Runs an errand, which leaves what was kept as it is, and says whether all of it was done.
    fn run(&mut self, errand: Errand) -> bool
        requires { may_run self.old errand }
        ensures { self.new ≡ self.old };
}

/// Keeps nothing, and costs nothing.
#[derive(Clone, Copy)]
pub struct NoKeeper;

impl Keeper for NoKeeper {
    ghost keeps = { λ old e new. Unit {0} };

    ghost owes = { λ old e new. ⊥ };

    ghost owing = { λ k. false };

    ghost may_run = { λ k errand. Unit {0} };

    #[inline(always)]
    fn is_owing(&self) -> bool {
        false
    }

    #[inline(always)]
    fn keep(&mut self, _entry: &Entry) -> Result<(), Broken> {
        Ok(())
    }

    #[inline(always)]
    fn settle(&mut self) -> Result<(), Broken> {
        Ok(())
    }

    #[inline(always)]
    fn run(&mut self, _errand: Errand) -> bool {
        true
    }
}
