//! How long a single grant stands.
ghost use Rattle.std.specs.Prelude.{◌≡◌};
ghost use Rattle.explain_core.specs.Life.{left};
ghost use Rattle.explain_core.specs.Falls.{is_end, is_taken_at, loses_option_at};

use base_core::Moment;
use grants_core::Grant;

/// A single grant, and how long it stood.
#[derive(Clone, Copy)]
pub struct Life {
    /// As it was made.
    pub grant: Grant,
    /// The first moment at which it was no longer in force, if it fell.
    pub fell: Option<Moment>,
    /// The first moment at which it was not in force with the option. That is its own, if it was
    /// made without.
    pub option_end: Option<Moment>,
}

/// Whether an end is this moment. None is never.
pub(crate) fn is_end(end: Option<Moment>, at: Moment) -> bool
    ensures { result ≡ is_end at end }
{
    match end {
        Some(end) => end == at,
        None => false,
    }
}

impl Life {
    /// The grant as it is in force: without its option, if that has ended.
    pub fn left(&self) -> Grant
        ensures { result ≡ left self.now }
    {
        let mut left = self.grant;
        left.option = self.option_end.is_none();
        left
    }

    /// Whether its option, with which it was made, ended at the moment.
    pub fn loses_option_at(&self, at: Moment) -> bool
        ensures { result ≡ loses_option_at at self.now }
    {
        self.grant.option && is_end(self.option_end, at)
    }

    /// Whether the change of the moment took the grant, or its option.
    pub fn is_taken_at(&self, at: Moment) -> bool
        ensures { result ≡ is_taken_at at self.now }
    {
        is_end(self.fell, at) || self.loses_option_at(at)
    }
}
