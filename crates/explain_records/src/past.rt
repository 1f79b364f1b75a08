//! Histories with the lines that made them.
ghost use Rattle.std.specs.Prelude.{◌≡◌};
ghost use Rattle.explain_core.specs.Takings.{item_at};

use base_core::Moment;
use explain_core::{History, at_moment};

/// A history, and the number of the line that made each of its changes: of the m-th at m - 1. A change that is
/// only supposed has none.
#[derive(Clone, Copy)]
pub struct Numbered<'a> {
    pub history: &'a History,
    pub numbers: &'a [u64],
}

impl<'a> Numbered<'a> {
    /// The number of the line that made the change of this moment.
    pub fn line_of(&self, at: Moment) -> Option<u64>
        ensures { result ≡ item_at self.now.numbers.now at }
    {
        at_moment(self.numbers, at).copied()
    }
}
