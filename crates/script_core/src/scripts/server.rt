//! A core that answers the lines of a script.
ghost use Rattle.std.specs.Prelude.{◌≡◌, ◌<◌, ◌≤◌, ◌↔◌, false, true, IsErrOf, OnOk, OnErr, MatchResult};
ghost use Rattle.lines_core.specs.Serving.{traffic_of};
ghost use Rattle.script_core.specs.Keeping.{EndsKeptFrom, EndsKept};

use crate::scripts::answer::answer;
use crate::scripts::fault::ScriptFault;
use base_core::{Broken, Limits, Sink, Source};
use journal_core::Keeper;
use lexer_core::Token;
use lines_core::{LineServer, SessionFault, serve};
use reply_core::ReplyBuffer;
use std::alloc::Global;
use system_core::System;

/// A core that answers the lines of a script, and the keeper of its changes. It is over once a
/// change could not be kept.
#[derive(Drop)]
struct ScriptServer<'a, K> {
    alloc: Global,
    tokens: &'a mut Vec<Token>,
    buffer: &'a mut ReplyBuffer,
    system: &'a mut System,
    keeper: &'a mut K,
}

impl<'a, K: Keeper> LineServer for ScriptServer<'a, K> {
    ghost use Rattle.std.specs.Prelude.{◌≡◌};
    ghost use Rattle.journal_core.specs.Recorder.{with_keeper};
    ghost use Rattle.script_core.specs.Keeping.{AnswersKept};
    ghost use Rattle.script_core.specs.TooLong.{AnswersKept-too_long};

    ghost answers = { λ old line text new.
        AnswersKept K.Keeper (with_keeper old.system.now old.keeper.now) line text
        (with_keeper new.system.now new.keeper.now)
        × (new.system.ghost_name ≡ old.system.ghost_name)
        × (new.keeper.ghost_name ≡ old.keeper.ghost_name) };

    ghost over = { λ s. K.owing s.keeper.now };

    fn is_over(&self) -> bool {
        self.keeper.is_owing()
    }

    fn answer<W: Sink>(&mut self, writer: &mut W, line: &[u8]) -> Result<(), Broken> {
        if self.keeper.is_owing() {
            return Ok(());
        }
        answer(
            self.alloc,
            self.tokens,
            self.buffer,
            self.system,
            writer,
            self.keeper,
            line,
        )
    }

    ghost too_long = { λ old new line other text h k a.
        (AnswersKept-too_long K.Keeper _ _ line other text h k a.0, a.1, a.2) };
}

/// Answers the lines that the reader gives, one by one, until its end, from this core on, and gives
/// the core.
///
/// A line is `user: statement`, and after each the checkpointer does one step, of as many records
/// as the core's chunk says. What was answered to the lines read is handed on before more is read,
/// and at the end. Each change is kept before its reply is written; where it could not be kept, its
/// reply is withheld, no later line is answered, and `Journal` is answered, exactly where the keeper
/// owes what is left of it. Else `Read` and `Write` are answered exactly where the reader or the
/// writer has failed, `Bound` where 2^32 bytes were read and the end had not come, and `NoMemory`
/// before the first read. On a fault the core is let go.
pub fn script_from<S: Source, W: Sink, K: Keeper>(
    alloc: Global,
    reader: &mut S,
    writer: &mut W,
    keeper: &mut K,
    mut system: System,
) -> Result<System, ScriptFault>
    requires source { S.failed reader.old ≡ false }
    requires sink { W.failed writer.old ≡ false }
    requires settled { K.owing keeper.old ≡ false }
    ensures read { IsErrOf result (ScriptFault.Session SessionFault.Read)
        ↔ (S.failed reader.new ≡ true) }
    ensures write { IsErrOf result (ScriptFault.Session SessionFault.Write)
        ↔ ((W.failed writer.new ≡ true) × (K.owing keeper.new ≡ false)) }
    ensures journal { IsErrOf result ScriptFault.Journal ↔ (K.owing keeper.new ≡ true) }
    ensures flushed { W.flushed writer.old ≡ true → W.failed writer.new ≡ false
        → W.flushed writer.new ≡ true }
    ensures ends { EndsKeptFrom K.Keeper system result keeper.old keeper.new
        (traffic_of (S.left reader.old) (S.left reader.new)
        (W.taken writer.old) (W.taken writer.new)) }
{
    let Ok(mut buffer) = ReplyBuffer::new(alloc) else {
        system.free();
        return Err(ScriptFault::Session(SessionFault::NoMemory));
    };
    let mut tokens = Vec::new(alloc);
    let mut server = ScriptServer {
        alloc,
        tokens: &mut tokens,
        buffer: &mut buffer,
        system: &mut system,
        keeper,
    };
    let served = serve(alloc, &mut server, reader, writer);
    let owing = server.keeper.is_owing();
    if owing {
        system.free();
        return Err(ScriptFault::Journal);
    }
    match served {
        Ok(()) => Ok(system),
        Err(fault) => {
            system.free();
            Err(ScriptFault::Session(fault))
        }
    }
}

/// Answers the lines that the reader gives, one by one, until its end, from an empty core on, and
/// gives the core.
///
/// A line is `user: statement`, and after each the checkpointer does one step, of as many records
/// as the chunk says, from 1 to 64. What was answered to the lines read is handed on before more is
/// read, and at the end. Each change is kept before its reply is written; where it could not be
/// kept, its reply is withheld, no later line is answered, and `Journal` is answered, exactly where
/// the keeper owes what is left of it. Else `Read` and `Write` are answered exactly where the reader
/// or the writer has failed, `Bound` where 2^32 bytes were read and the end had not come, and
/// `NoMemory` before the first read.
pub fn script<S: Source, W: Sink, K: Keeper>(
    alloc: Global,
    reader: &mut S,
    writer: &mut W,
    keeper: &mut K,
    chunk: usize,
) -> Result<System, ScriptFault>
    requires some { 0 < chunk }
    requires small { chunk ≤ 64 }
    requires source { S.failed reader.old ≡ false }
    requires sink { W.failed writer.old ≡ false }
    requires settled { K.owing keeper.old ≡ false }
    ensures read { IsErrOf result (ScriptFault.Session SessionFault.Read)
        ↔ (S.failed reader.new ≡ true) }
    ensures write { IsErrOf result (ScriptFault.Session SessionFault.Write)
        ↔ ((W.failed writer.new ≡ true) × (K.owing keeper.new ≡ false)) }
    ensures journal { IsErrOf result ScriptFault.Journal ↔ (K.owing keeper.new ≡ true) }
    ensures flushed { W.flushed writer.old ≡ true → W.failed writer.new ≡ false
        → W.flushed writer.new ≡ true }
    ensures ends { EndsKept K.Keeper chunk result keeper.old keeper.new
        (traffic_of (S.left reader.old) (S.left reader.new)
        (W.taken writer.old) (W.taken writer.new)) }
{
    let limits = Limits::full();
    let Ok(system) = System::with_limits(alloc, chunk, limits) else {
        return Err(ScriptFault::Session(SessionFault::NoMemory));
    };
    script_from(alloc, reader, writer, keeper, system)
}
