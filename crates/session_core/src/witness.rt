//! What is told of statements.
use base_core::{Gate, NoGate, User};
use reader_core::Statement;
use std::thread;
use std::time::{Clock, Duration};
use system_core::Reply;

// For how many milliseconds the checkpointer rests who is not told otherwise.
const REST_MILLIS: u64 = 2;

/// What is told of the lines of a session as they are answered, and of the checkpointer, beside what its
/// gate is told. It has no part in what is written, so no contract speaks of it.
pub trait Witness: Gate {
    /// A line was read that says this statement.
    fn said(&self, _statement: &Statement) {}

    /// The desk answered this user so, and may tell it.
    fn replied(&self, _user: &User, _reply: &Reply) {}

    /// A line says no statement.
    fn faulty(&self) {}

    /// There was no memory to read a line.
    fn unread(&self) {}

    /// No checkpoint was active when the checkpointer looked. It returns once one may be.
    fn rest<R: Clock>(&self, rt: &R) {
        thread::sleep(rt, Duration::from_millis(REST_MILLIS));
    }
}

impl Witness for NoGate {}
