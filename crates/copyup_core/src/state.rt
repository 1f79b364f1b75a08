//! What has become of a slot.
ghost use Rattle.std.specs.Prelude.{◌≡◌, ℕ};
ghost use Rattle.copyup_core.specs.Parallel.{is_live_state, forgotten};

/// `Live` has an item. `Dead` has none. `Gone` has none either, but a capture still wants the one
/// that it had.
#[derive(Clone, Copy)]
#[repr(u8)]
pub(crate) enum State {
    Live,
    Dead,
    Gone,
}

impl State {
    #[inline(always)]
    pub(crate) fn is_live(self) -> bool
        ensures { result ≡ is_live_state self }
    {
        match self {
            State::Live => true,
            State::Dead | State::Gone => false,
        }
    }

    /// Once no capture wants anything of the slot.
    #[inline(always)]
    pub(crate) fn forgotten(self) -> State
        ensures { result ≡ forgotten self }
    {
        match self {
            State::Live => State::Live,
            State::Dead | State::Gone => State::Dead,
        }
    }
}
