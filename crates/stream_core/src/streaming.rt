//! The stream of a journal.
ghost use Rattle.std.specs.Prelude.{◌≡◌, ◌≤◌, ◌<◌, ◌↔◌, false, true, IsErrOf};
ghost use Rattle.stream_core.specs.Streaming.{EndsStream, front_of, result_of, stream_fault};

use crate::streamer::Streamer;
use base_core::{Limits, NoMemory, Sink, Source};
use lines_core::{SessionFault, WholeEnding, serve_whole};
use load_core::Undone;
use std::alloc::Global;
use system_core::System;

/// Why a stream ended before its input did.
#[derive(Drop)]
pub enum StreamFault {
    /// The reader failed.
    Read,
    /// The writer failed.
    Write,
    /// 2^32 bytes were read, and the end had not come.
    Bound,
    /// There was no memory for what has to be there before the first read.
    NoMemory,
    /// The line of this number, from 1, says no change that is done, or memory ran out at it.
    Line { number: u64, why: Undone },
}

/// The fault of a reader or a writer, or of what is made before the first read.
fn stream_fault(fault: SessionFault) -> StreamFault
    ensures { result ≡ stream_fault fault }
{
    match fault {
        SessionFault::Read => StreamFault::Read,
        SessionFault::Write => StreamFault::Write,
        SessionFault::Bound => StreamFault::Bound,
        SessionFault::NoMemory => StreamFault::NoMemory,
    }
}

/// What is kept of a last line that was cut off.
fn front_of(ending: WholeEnding) -> Option<Vec<u8>>
    ensures { result ≡ front_of ending }
{
    match ending {
        WholeEnding::CutOff(front) => Some(front),
        WholeEnding::Whole | WholeEnding::Over => None,
    }
}

/// How a stream ends whose lines were served so, and at which line it stopped, if it did.
fn result_of(
    ending: Result<WholeEnding, SessionFault>,
    stopped: Option<(u64, Undone)>,
) -> Result<Option<Vec<u8>>, StreamFault>
    ensures { result ≡ result_of ending stopped }
{
    let ending = match ending {
        Ok(ending) => ending,
        Err(fault) => {
            drop(stopped);
            return Err(stream_fault(fault));
        }
    };
    match stopped {
        Some((number, why)) => {
            drop(ending);
            Err(StreamFault::Line { number, why })
        }
        None => Ok(front_of(ending)),
    }
}

/// Carries out the changes that the reader's whole lines say, one by one, until its end, and writes of each
/// behind the moment `from` the records of what it did. A last line that has no line feed says nothing, as a
/// write that was cut off leaves it: its front is given, of at most 4,130 bytes.
///
/// A line is `user: statement`, of at most 4,128 bytes, and the statement of at most 4,096; it says
/// a change that is allowed at the journal before it. A byte order mark before the first line is
/// passed over. The first line that says none ends the stream: `Line`, with its number from 1 and
/// why, behind the records of the lines before it. `Read` and `Write` are answered exactly where the reader or
/// the writer has failed, `Bound` where 2^32 bytes were read and the end had not come, and `NoMemory` before
/// the first read. The records of a change are written whole or not at all, but for a writer that fails. What
/// was written is handed on before each further read. The chunk and the limits are those of
/// [`System::with_limits`], the chunk from 1 to 64.
pub fn stream<S: Source, W: Sink>(
    alloc: Global,
    reader: &mut S,
    writer: &mut W,
    chunk: usize,
    limits: Limits,
    from: u64,
) -> Result<Option<Vec<u8>>, StreamFault>
    requires some { 0 < chunk }
    requires small { chunk ≤ 64 }
    requires source { S.failed reader.old ≡ false }
    requires sink { W.failed writer.old ≡ false }
    ensures read { IsErrOf result StreamFault.Read ↔ (S.failed reader.new ≡ true) }
    ensures write { IsErrOf result StreamFault.Write ↔ (W.failed writer.new ≡ true) }
    ensures ends { EndsStream chunk limits from result (S.left reader.old) (S.left reader.new)
        (W.taken writer.old) (W.taken writer.new) }
{
    let Ok(system) = System::with_limits(alloc, chunk, limits) else {
        return Err(StreamFault::NoMemory);
    };
    let mut streamer = Streamer::new(alloc, system, from);
    let ending = serve_whole(alloc, &mut streamer, reader, writer);
    result_of(ending, streamer.finish())
}
