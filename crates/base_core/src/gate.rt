//! What is told of sessions and captures as they go on.
use crate::name::User;
use crate::value::Moment;

/// What is told of a session or a capture as it goes on. It holds up who called it until it
/// returns, and has no part in what is written or captured, so no contract speaks of it.
pub trait Gate {
    /// Before each record that an export gives, of which `given` were given so far.
    fn before_record(&self, given: u64);

    /// After each step of a capture that left `left` of its records, at least one, before the next
    /// turn.
    fn before_step(&self, left: u64);

    /// The first line of a session named this user.
    fn named(&self, _user: &User) {}

    /// A later line was answered, at the moment that its reply bears: at none, where it was not
    /// read.
    fn answered(&self, _at: Option<Moment>) {}
}

/// A gate that holds nothing up and keeps nothing.
#[derive(Clone, Copy)]
pub struct NoGate;

impl Gate for NoGate {
    fn before_record(&self, _given: u64) {}

    fn before_step(&self, _left: u64) {}
}
