//! The types of messages that clients send.
ghost use Rattle.std.specs.Prelude.{◌≡◌};
ghost use Rattle.messages_core.specs.Kinds.{kind_at};

/// The type of a message, by its first byte.
#[derive(Clone, Copy)]
pub enum Kind {
    Bind,
    Close,
    Describe,
    Execute,
    Flush,
    Parse,
    Password,
    Query,
    Sync,
    Terminate,
}

impl Kind {
    /// The type that begins with this byte.
    pub fn of(byte: u8) -> Option<Kind>
        ensures { result ≡ kind_at byte }
    {
        match byte {
            b'B' => Some(Kind::Bind),
            b'C' => Some(Kind::Close),
            b'D' => Some(Kind::Describe),
            b'E' => Some(Kind::Execute),
            b'H' => Some(Kind::Flush),
            b'P' => Some(Kind::Parse),
            b'p' => Some(Kind::Password),
            b'Q' => Some(Kind::Query),
            b'S' => Some(Kind::Sync),
            b'X' => Some(Kind::Terminate),
            _ => None,
        }
    }
}
