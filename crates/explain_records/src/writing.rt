//! Answers as they are written.
ghost use Rattle.std.specs.Prelude.{◌≡◌, IfOk, Ok};
ghost use Rattle.export_core.specs.Record.{IsBetween, text_in};

use base_core::NoMemory;
use csv::Writer;
use export_core::record::{finish, writer_after};
use std::alloc::Global;

/// A writer of records below this line. `NoMemory` where a request for memory was refused.
pub fn below(alloc: Global, head: &[u8]) -> Result<Writer<Vec<u8>>, NoMemory>
    ensures text { IfOk result (λ writer. text_in writer ≡ head.now) }
    ensures between { IfOk result IsBetween }
{
    let mut text = Vec::new(alloc);
    text.extend_from_slice(head)?;
    Ok(writer_after(text))
}

/// The text of a writer, if all was written.
pub fn finished(writer: Writer<Vec<u8>>, written: Result<(), NoMemory>) -> Result<Vec<u8>, NoMemory>
    ensures { IfOk result (λ text. (written ≡ Ok tt) × (text.items ≡ text_in writer)) }
{
    match written {
        Ok(()) => finish(writer),
        Err(NoMemory) => {
            drop(writer);
            Err(NoMemory)
        }
    }
}
