//! Texts in memory.
ghost use Rattle.std.specs.Prelude.{◌≡◌, Some, [], false, IfOk};
ghost use Rattle.reply_core.specs.Texts.{reply_text};

use crate::buffer::ReplyBuffer;
use crate::writing::write_text;
use base_core::{Broken, NoMemory, Sink};
use std::alloc::Global;
use system_core::Reply;

/// A writer that keeps what it takes. It fails where a request for memory was refused.
#[derive(Drop)]
pub struct Gathered {
    pub text: Vec<u8>,
    failed: bool,
}

impl Gathered {
    /// Nothing yet. It takes no memory.
    pub fn new(alloc: Global) -> Gathered
        ensures text { result.text.items ≡ [] }
        ensures failed { result.failed ≡ false }
    {
        let text = Vec::new(alloc);
        let failed = false;
        Gathered { text, failed }
    }
}

impl Sink for Gathered {
    ghost use Rattle.std.specs.Prelude.{true, Some};
    ghost use Rattle.std.proofs.Common.{refl};

    ghost failed = { λ s. s.failed };

    ghost taken = { λ s. Some s.text.items };

    ghost handed_on = { λ s. Some s.text.items };

    ghost flushed = { λ s. true };

    fn write(&mut self, bytes: &[u8]) -> Result<usize, Broken> {
        match self.text.extend_from_slice(bytes) {
            Ok(()) => Ok(bytes.len()),
            Err(_) => {
                self.failed = true;
                Err(Broken)
            }
        }
    }

    fn flush(&mut self) -> Result<(), Broken> {
        Ok(())
    }

    ghost flushed_hands_on = { λ s flushed. refl };
}

/// The text of a reply, each line with its line feed, in new memory: of rows `rows N @m` and N
/// records, of a list of checkpoints `checkpoints N @m` and N records, of an export the line before
/// its records, and else one line, or none. `NoMemory` where a request for memory was refused.
pub fn reply_text(alloc: Global, reply: &Reply) -> Result<Vec<u8>, NoMemory>
    ensures { IfOk result (λ text. text.items ≡ reply_text reply.now) }
{
    let mut buffer = ReplyBuffer::new(alloc)?;
    let mut gathered = Gathered::new(alloc);
    match write_text(&mut buffer, reply, &mut gathered) {
        Ok(()) => Ok(gathered.text),
        Err(Broken) => Err(NoMemory),
    }
}
