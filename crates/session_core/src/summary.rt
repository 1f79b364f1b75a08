//! What is told of a session once it has ended.

use crate::session_end::SessionEnd;
use base_core::{Moment, User};

/// What is told of a session once it has ended: whom its first line named, how many lines came after
/// that, the moment of the last of their replies that bore one, and whether all of its input was
/// answered, or else why not.
#[derive(Clone, Copy, Debug, PartialEq, Eq)]
pub struct Summary {
    pub user: Option<User>,
    pub lines: u64,
    pub moment: Option<Moment>,
    pub ended: Result<(), SessionEnd>,
}
