//! A law of captures, the contract of a function that does nothing.
ghost use Rattle.std.specs.Prelude.{◌≡◌, ℕ, List, ◌++◌};
ghost use Rattle.copyup_core.specs.Holding.{Holding, due};
ghost use Rattle.copyup_core.specs.Calls.{begun};
ghost use Rattle.copyup_core.specs.Run.{Leads};

use base_core::Twin;

/// Whatever is pushed, replaced, removed or sifted out while a capture is active: what its steps
/// gave, and behind it what it has still to give, are the contents when it began, in number order.
pub fn what_was_there_is_captured<V: Twin>()
    ensures { (start : Holding V) (given : List (ℕ × V)) (now : Holding V)
        → Leads (begun start) given now
        → given ++ due now ≡ start.contents }
{}
