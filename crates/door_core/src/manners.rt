//! How sessions are treated.
use std::time::Duration;

/// How sessions are treated.
#[derive(Clone, Copy)]
pub struct Manners {
    /// A session ends whose client sends nothing for so long, or takes nothing. None: it waits.
    pub idle: Option<Duration>,
    /// How many sessions may be open at once. None: as many as the system has descriptors for.
    pub max_sessions: Option<u64>,
    /// Whether the beginning and the end of each session are told.
    pub log: bool,
    /// Whether it is told who was denied what.
    pub denials: bool,
    /// Whether each line of the log begins with the time of day.
    pub times: bool,
}
