//! Why a server ends before it has served all sessions.

use base_core::NoMemory;

/// Why not all sessions were served.
#[derive(Clone, Copy, Debug, PartialEq, Eq)]
pub enum ServeFault {
    /// A listener is gone, so that no session can be accepted.
    Accept,
    /// A request for memory was refused, or a thread could not be started.
    NoMemory,
}

/// Why no further session is taken.
#[derive(Clone, Copy, Debug, PartialEq, Eq)]
pub enum Shut {
    /// Somebody said that the server is to stop.
    Stopped,
    /// The server can take none.
    Fault(ServeFault),
}

impl From<NoMemory> for ServeFault {
    fn from(_refused: NoMemory) -> ServeFault {
        ServeFault::NoMemory
    }
}
