//! What a worker needs to go on with a session.
ghost use Rattle.std.specs.Prelude.{◌≡◌, [], IfOk};

use base_core::NoMemory;
use session_core::Scratch;
use std::alloc::Global;
use std::marker::Model;

// What is read of a session at once. Others have their turn behind it.
pub(crate) const PIECE_BYTES: usize = 16384;

// What is gathered of a session's replies before it is sent. More is there where one part of a reply has
// more: of a list 64 lines are a part, of an export 129.
pub(crate) const OUTPUT_BYTES: usize = 65536;

/// What a worker needs to go on with a session: room for what its client has sent, for a line, and for
/// replies. It serves one session after another. Contracts see the text that was gathered for a client,
/// and not handed on yet.
#[derive(Drop)]
pub struct Room {
    pub(crate) input: Vec<u8>,
    pub(crate) speech: Speech,
}

/// Room for what a session says.
#[derive(Drop)]
pub(crate) struct Speech {
    pub output: Vec<u8>,
    pub scratch: Scratch,
}

impl Model for Room {
    ghost use Rattle.std.specs.Prelude.{List, ℕ};

    ghost Value = { List ℕ };

    ghost view = { λ r. r.speech.output.items };
}

impl Room {
    /// Nothing is gathered. `NoMemory` where a request for memory was refused.
    pub fn new(alloc: Global) -> Result<Room, NoMemory>
        ensures { IfOk result (λ room. room ≡ []) }
    {
        let input = Vec::from_elem(alloc, 0, PIECE_BYTES)?;
        let output = Vec::with_capacity(alloc, OUTPUT_BYTES)?;
        let scratch = Scratch::new(alloc)?;
        let speech = Speech { output, scratch };
        Ok(Room { input, speech })
    }
}
