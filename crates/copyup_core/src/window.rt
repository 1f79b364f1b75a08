//! How far a capture has come.
ghost use Rattle.std.specs.Prelude.{◌≡◌, ◌==◌, ◌<◌, ◌≤◌, ◌-◌, ◌↔◌, None, Some, IsTrue, if◌then◌else◌};
ghost use Rattle.copyup_core.specs.Window.{is_wanted_at};

/// A capture: the slots from `cursor` up to `end` are still to be walked, and `left` items in them
/// to be captured.
#[derive(Clone, Copy)]
pub(crate) struct Window {
    pub(crate) cursor: usize,
    pub(crate) end: usize,
    pub(crate) left: usize,
}

impl Window {
    /// Whether the slot at `place` is still to be captured.
    fn covers(self, place: usize) -> bool
        ensures { IsTrue result ↔ ((self.cursor ≤ place) × (place < self.end)) }
    {
        self.cursor <= place && place < self.end
    }

    /// What is left of the capture once the walk has come to `stop` and gave so many items:
    /// nothing where none is left.
    pub(crate) fn after(self, stop: usize, given: usize) -> Option<Window>
        requires { given ≤ self.left }
        ensures { result ≡ (if self.left == given
            then None
            else Some (record { cursor = stop; end = self.end; left = self.left - given })) }
    {
        if self.left == given {
            return None;
        }
        Some(Window {
            cursor: stop,
            end: self.end,
            left: self.left - given,
        })
    }
}

/// Whether a capture still needs the slot at `place`.
pub(crate) fn is_wanted(capture: Option<Window>, place: usize) -> bool
    ensures { result ≡ is_wanted_at place capture }
{
    match capture {
        None => false,
        Some(window) => window.covers(place),
    }
}
