//! How far a capture of all tables has come.
ghost use Rattle.std.specs.Prelude.{◌<◌, ◌↔◌, IsTrue};

/// The last capture that was begun, by its number: it covers the tables before the place `end`, and
/// `left` rows of them are still to be captured. Where none is left, none is active.
#[derive(Clone, Copy)]
pub struct Walk {
    pub number: u64,
    pub end: usize,
    pub left: usize,
}

impl Walk {
    /// Whether a row may still be captured.
    #[inline(always)]
    pub fn is_active(self) -> bool
        ensures { IsTrue result ↔ (0 < self.left) }
    {
        self.left > 0
    }

    /// Whether a row of the table at this place may still be captured.
    #[inline(always)]
    pub fn covers(self, place: usize) -> bool
        ensures { IsTrue result ↔ ((0 < self.left) × (place < self.end)) }
    {
        self.left > 0 && place < self.end
    }
}
