//! A gate, and how many records it has let through.
use base_core::Gate;

/// A gate, and how many records it has let through, up to the greatest number.
#[derive(Drop)]
pub(crate) struct Passage<'a, G: Gate> {
    gate: &'a G,
    given: u64,
}

impl<'a, G: Gate> Passage<'a, G> {
    /// A gate that has let so many records through.
    pub(crate) fn new(gate: &'a G, given: u64) -> Passage<'a, G> {
        Passage { gate, given }
    }

    /// How many records it has let through.
    pub(crate) fn given(&self) -> u64 {
        self.given
    }

    /// Lets the next record through.
    pub(crate) fn before_record(&mut self) {
        self.gate.before_record(self.given);
        self.given = self.given.saturating_add(1);
    }
}
