//! What a turnstile guards.
ghost use Rattle.std.specs.Prelude.{◌≡◌, ℕ, List};

/// A value with a log of entries, to which an act adds one entry at most.
pub trait Object: Drop {
    type Ask: Drop;

    type Reply;

    type Entry;

    /// What no act changes, as limits are.
    type Fixed: Drop;

    ghost use Rattle.std.specs.Prelude.{◌≡◌, ℕ, List};
    ghost use Rattle.turnstile.specs.Logs.{Grown};

    ghost log: { Self → List Self.Entry };

    // The number of the pass that an entry bears.
    ghost by: { Self.Entry → ℕ };

    // A number that never falls.
    ghost mark: { Self → ℕ };

    ghost fixed: { Self → Self.Fixed };

    // What may be asked of it.
    ghost may: { Self → Self.Ask → Type 0 };

    // What an act may do: of the object before, the pass's number, what is asked, the reply and the object
    // after.
    ghost acts: { Self → ℕ → Self.Ask → Self.Reply → Self → Type 0 };

    /// Does what is asked, for the pass of that number.
    fn act(&mut self, pass: u64, ask: Self::Ask) -> Self::Reply
        requires { may self.old ask }
        ensures { acts self.old pass ask result self.new };

    fn fixed_part(&self) -> Self::Fixed
        ensures { result ≡ fixed self.now };

    // The log is as before, or has one entry more, which bears the pass's number. The mark does not fall,
    // and the fixed part stays.
    ghost grows: { (x : Self) (p : ℕ) (a : Self.Ask) (r : Self.Reply) (y : Self)
        → acts x p a r y
        → Grown log by mark fixed p x y };
}
