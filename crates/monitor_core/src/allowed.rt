//! What the monitor allows.

/// A statement that may be carried out at the state that it was judged at.
#[derive(Clone, Copy, PartialEq, Eq)]
pub struct Allowed {
    /// Whether the statement is a change: one that makes a moment and is entered into the journal.
    /// CREATE TABLE, INSERT, DELETE, UPDATE, GRANT, REVOKE and REVOKE GRANT OPTION FOR are,
    /// whatever they find to change. The other four are not.
    pub change: bool,
}
