//! Texts that are read and written whole.
ghost use Rattle.std.specs.Prelude.{◌≡◌, ◌≤◌, ◌<◌, ◌↔◌, ℕ, List, true, false, length, IfOk, IfErr, IsErrOf};
ghost use Rattle.std.specs.Io.KnownBytes.{Appends, Consumes, IsAtEnd};
ghost use Rattle.std.specs.Process.{exit_status};

use base_core::{Broken, Sink, Source, write_all};
use lines_core::{SessionFault, fault_text, give_up};
use std::alloc::Global;
use std::process::ExitCode;

// How many bytes are read at once.
const PIECE_BYTES: usize = 4096;

/// Why not all was read.
#[derive(Clone, Copy, Debug, PartialEq, Eq)]
pub enum Unread {
    Broken,
    TooLong,
    NoMemory,
}

/// All that the reader has to come, which is of so many bytes at most.
pub fn read_whole<S: Source>(alloc: Global, reader: &mut S, most: usize) -> Result<Vec<u8>, Unread>
    requires { S.failed reader.old ≡ false }
    ensures read { IfOk result (λ text.
        Consumes (S.left reader.old) (S.left reader.new) text.items) }
    ensures whole { IfOk result (λ text. IsAtEnd (S.left reader.new)) }
    ensures short { IfOk result (λ text. length text.items ≤ most) }
    ensures broken { IsErrOf result Unread.Broken ↔ (S.failed reader.new ≡ true) }
    ensures long { IsErrOf result Unread.TooLong → (text : List ℕ)
        × Consumes (S.left reader.old) (S.left reader.new) text × (most < length text) }
{
    let mut text = Vec::new(alloc);
    let mut piece = [0; PIECE_BYTES];
    for _ in 0..u64::MAX {
        let read = match reader.read(&mut piece) {
            Ok(0) => return Ok(text),
            Ok(read) => read,
            Err(Broken) => return Err(Unread::Broken),
        };
        if read > most - text.len() {
            return Err(Unread::TooLong);
        }
        if text.extend_from_slice(&piece[..read]).is_err() {
            return Err(Unread::NoMemory);
        }
    }
    // No memory has as many bytes as calls were made.
    Err(Unread::NoMemory)
}

/// Writes the text whole, and hands it on. The error is the status, where it could not, which is
/// told.
pub fn write_whole<W: Sink>(rt: &HostRuntime, writer: &mut W, text: &[u8]) -> Result<(), ExitCode>
    requires { W.failed writer.old ≡ false }
    ensures ok { IfOk result (λ _. Appends (W.taken writer.old) (W.taken writer.new) text.now) }
    ensures err { IfErr result (λ status. exit_status status ≡ 1) }
{
    if write_all(writer, text).is_err() || writer.flush().is_err() {
        return Err(give_up(rt, fault_text(SessionFault::Write)));
    }
    Ok(())
}
