//! The whole lines of a file.
ghost use Rattle.std.specs.Prelude.{◌≡◌, ◌↔◌, true, false, Err, IsErrOf};
ghost use Rattle.load_core.specs.Whole.{ReadsWhole};

use crate::silence::Silence;
use base_core::Source;
use lines_core::{LineServer, SessionFault, WholeEnding, serve_whole};
use std::alloc::Global;

/// Has a server answer the reader's lines, whose answers are nothing, and gives the front of the last
/// line, if it was cut off.
pub fn read_whole<D: LineServer, S: Source>(
    alloc: Global,
    server: &mut D,
    reader: &mut S,
) -> Result<Option<Vec<u8>>, SessionFault>
    requires { S.failed reader.old ≡ false }
    ensures read { IsErrOf result SessionFault.Read ↔ (S.failed reader.new ≡ true) }
    ensures write { result ≡ Err SessionFault.Write → ⊥ }
    ensures ends { ReadsWhole D.answers D.over result server.old server.new
        (S.left reader.old) (S.left reader.new) }
{
    match serve_whole(alloc, server, reader, &mut Silence) {
        Ok(WholeEnding::CutOff(front)) => Ok(Some(front)),
        Ok(WholeEnding::Whole | WholeEnding::Over) => Ok(None),
        Err(fault) => Err(fault),
    }
}
