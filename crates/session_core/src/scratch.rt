//! What the answering of a line takes.

use base_core::NoMemory;
use lexer_core::Token;
use reply_core::ReplyBuffer;
use std::alloc::Global;

/// Room for the tokens of a line, and for what its reply is put together in. What it has before and
/// behind a call means nothing: a worker lends it to one session after another.
#[derive(Drop)]
pub struct Scratch {
    pub tokens: Vec<Token>,
    pub buffer: ReplyBuffer,
}

impl Scratch {
    /// `NoMemory` where a request for memory was refused.
    pub fn new(alloc: Global) -> Result<Scratch, NoMemory> {
        let buffer = ReplyBuffer::new(alloc)?;
        Ok(Scratch {
            tokens: Vec::new(alloc),
            buffer,
        })
    }
}
