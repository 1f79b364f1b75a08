//! What a sink may be asked to do between its writes.
ghost use Rattle.std.specs.Prelude.{◌≡◌, ◌⊎◌, ℕ, Bool, true, List, Option, None};
ghost use Rattle.folder_core.specs.declared.errand.Errand.{Errand};

use base_core::{Sink, Unbuffered};
use folder_core::Errand;
use std::io::Write;

/// A sink that runs errands between its writes, which leave what it took as it is.
pub trait Errands: Sink {
    // Where it has taken this, it may be asked to run the errand.
    ghost may_run: { Option (List ℕ) → Errand → Type 0 };
    // Whether it is known of such a sink what it took.
    ghost knows: { Bool };

    /// Runs an errand, and says whether all of it was done.
    fn run(&mut self, errand: Errand) -> bool
        requires { may_run (Self.taken self.old) errand }
        ensures taken { Self.taken self.new ≡ Self.taken self.old }
        ensures handed_on { Self.handed_on self.new ≡ Self.handed_on self.old }
        ensures failed { Self.failed self.new ≡ Self.failed self.old };

    // Else it never is.
    ghost unknown: { (sink : Self) → (knows ≡ true) ⊎ (Self.taken sink ≡ None) };

    // Where that is not known, any errand may be run.
    ghost unasked: { (errand : Errand) → may_run None errand };
}

/// There are none.
impl<W: Write> Errands for Unbuffered<W> {
    ghost use Rattle.std.proofs.Common.{inl, refl};
    ghost use Rattle.std.specs.Prelude.{true};

    ghost may_run = { λ taken errand. Unit {0} };

    ghost knows = { true };

    fn run(&mut self, _errand: Errand) -> bool {
        true
    }

    ghost unknown = { λ sink. inl refl };

    ghost unasked = { λ errand. tt };
}
