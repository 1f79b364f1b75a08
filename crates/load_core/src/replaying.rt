//! Journals and scripts replayed for the sake of their changes.
ghost use Rattle.std.specs.Prelude.{◌≡◌, ◌↔◌, Err, false, true, IfOk, IsErrOf};
ghost use Rattle.std.specs.List.{AllByRecursion};
ghost use Rattle.journal_core.specs.Text.{WasRead};
ghost use Rattle.load_core.specs.Replaying.{EndsReplay};
ghost use Rattle.load_core.specs.Replayer.{ReadsLines, IsReadingFault};

use crate::manner::{Form, Manner};
use crate::replayed::{ReplayFault, Replayed};
use crate::replayer::Replayer;
use crate::silence::Silence;
use crate::whole::read_whole;
use base_core::Source;
use lines_core::{SessionFault, serve};
use std::alloc::Global;
use system_core::System;

/// The fault of a reader, or of what is made before the first read.
fn reading_fault(fault: SessionFault) -> ReplayFault
    requires { fault ≡ SessionFault.Write → ⊥ }
    ensures { IsReadingFault fault result }
{
    match fault {
        SessionFault::Read => ReplayFault::Read,
        SessionFault::Bound => ReplayFault::Bound,
        SessionFault::NoMemory => ReplayFault::NoMemory,
        SessionFault::Write => unreachable!(),
    }
}

/// Reads a script's lines.
fn read_script<S: Source>(
    alloc: Global,
    replayer: &mut Replayer,
    reader: &mut S,
) -> Result<Option<Vec<u8>>, SessionFault>
    requires { S.failed reader.old ≡ false }
    ensures read { IsErrOf result SessionFault.Read ↔ (S.failed reader.new ≡ true) }
    ensures write { result ≡ Err SessionFault.Write → ⊥ }
    ensures ends { ReadsLines Form.Script result replayer.old replayer.new
        (S.left reader.old) (S.left reader.new) }
{
    match serve(alloc, replayer, reader, &mut Silence) {
        Ok(()) => Ok(None),
        Err(fault) => Err(fault),
    }
}

/// Reads the lines, and gives the front of a journal's last line, if it was cut off.
fn read_lines<S: Source>(
    alloc: Global,
    form: Form,
    replayer: &mut Replayer,
    reader: &mut S,
) -> Result<Option<Vec<u8>>, SessionFault>
    requires { S.failed reader.old ≡ false }
    ensures read { IsErrOf result SessionFault.Read ↔ (S.failed reader.new ≡ true) }
    ensures write { result ≡ Err SessionFault.Write → ⊥ }
    ensures ends { ReadsLines form result replayer.old replayer.new
        (S.left reader.old) (S.left reader.new) }
{
    match form {
        Form::Journal => read_whole(alloc, replayer, reader),
        Form::Script => read_script(alloc, replayer, reader),
    }
}

/// Reads a journal or a script to its end, and enters each change of its lines that is allowed at
/// the journal before it, through pass 0, from this core on. It writes nothing.
///
/// A journal's line may have a user's name, a colon and a statement of 4,096 bytes, a script's 4,096
/// bytes in all. A byte order mark before the first line is passed over. A line that has a fault, or
/// says a change that is denied or refused, is left out, which is counted, and told of the first. A
/// line that says no change is passed over; once the core's journal has as many entries as are
/// wanted, so is each further line, unread.
///
/// The reading ends at a line at which memory runs out, and in a journal at one that is too long:
/// `Line`, with its number from 1. A journal's last line that has no line feed is never entered: it
/// is dropped, or `CutOff` is answered. `Read` is answered exactly where the reader has failed,
/// `Bound` where 2^32 bytes were read and the end had not come, and `NoMemory` before the first
/// read. On a fault the core is let go.
pub fn replay<S: Source>(
    alloc: Global,
    reader: &mut S,
    begins: System,
    manner: Manner,
) -> Result<Replayed, ReplayFault>
    requires { S.failed reader.old ≡ false }
    ensures read { IsErrOf result ReplayFault.Read ↔ (S.failed reader.new ≡ true) }
    ensures ends { EndsReplay manner begins result (S.left reader.old) (S.left reader.new) }
    ensures entries { AllByRecursion WasRead begins.journal
        → IfOk result (λ r. AllByRecursion WasRead r.world.journal) }
{
    let mut replayer = Replayer::new(alloc, begins, manner);
    match read_lines(alloc, manner.form, &mut replayer, reader) {
        Ok(front) => replayer.finish(front),
        Err(fault) => {
            replayer.free();
            Err(reading_fault(fault))
        }
    }
}
