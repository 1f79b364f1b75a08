//! What is lent for the answering of a message.

use desk_core::Desk;
use journal_core::Keeper;
use std::alloc::Global;

/// What is lent for the answering of a message: a runtime that waits, memory, the desk, and who is told of
/// each statement.
#[derive(Drop)]
pub struct Lent<'a, K: Keeper + Drop, R, G> {
    pub rt: &'a R,
    pub alloc: Global,
    pub desk: &'a Desk<K>,
    pub gate: &'a G,
}
