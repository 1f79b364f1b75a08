//! Who speaks in a session.

use crate::entrance::Peer;

/// Who speaks in a session: from where he came, and the session's number. Sessions are counted from 1 as
/// they come in.
#[derive(Clone, Copy)]
pub struct Client {
    pub peer: Peer,
    pub number: u64,
}
