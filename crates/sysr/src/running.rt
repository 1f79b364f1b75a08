//! Lines of standard input, answered.
ghost use Rattle.std.specs.Prelude.{◌≡◌, ◌<◌, ◌≤◌, false, IfOk, IfSome};
ghost use Rattle.std.specs.Option.{is_some};
ghost use Rattle.lines_core.specs.Serving.{traffic_of};
ghost use Rattle.sysr.specs.Kept.{is_in_lines, IsAnswered};

use crate::command::{JournalSync, Running};
use crate::files::JournalSink;
use crate::keeping::{Ended, Kept, line_keeper};
use crate::loading::{Start, begun};
use crate::naming::{Named, apart_from_each_other};
use base_core::{Resume, Sink, Source};
use journal_core::{Errands, NoKeeper};
use run_core::{answered, input, output, status_of};
use std::mem::forget;
use std::process::ExitCode;
use std::thread::Threads;

/// Answers the reader's lines, and keeps each change in the journal, if there is one. The error is
/// the status, where it ended by a fault, which is told.
fn kept<S: Source, R: Sink, W: Resume + Errands + Drop>(
    rt: &HostRuntime,
    reader: &mut S,
    writer: &mut R,
    begun: Start<W>,
) -> Result<Kept<W>, ExitCode>
    requires source { S.failed reader.old ≡ false }
    requires sink { R.failed writer.old ≡ false }
    requires works { IfSome begun.journal (λ sink. W.failed sink ≡ false) }
    ensures { IfOk result (IsAnswered W.taken W.handed_on W.may_run W.knows begun
        (traffic_of (S.left reader.old) (S.left reader.new)
        (R.taken writer.old) (R.taken writer.new))) }
{
    let Start {
        system,
        journal,
        ..
    } = begun;
    let Some(sink) = journal else {
        let left = answered(rt, reader, writer, NoKeeper, system)?;
        return Ok(Kept::Nowhere(left));
    };
    match line_keeper(rt, sink) {
        Ok(keeper) => {
            let left = answered(rt, reader, writer, keeper, system)?;
            Ok(Kept::Lines(left))
        }
        Err(status) => {
            // The process ends here, and its memory goes back as a whole.
            forget(system);
            Err(status)
        }
    }
}

/// Answers the lines of standard input, and writes each change to the journal's file, if one is
/// named. Then it audits what they left, if that is asked for. What they left is given too.
pub fn run<R: Threads>(
    host: &HostRuntime,
    rt: &R,
    asked: Running<'_>,
) -> Result<Ended<JournalSink>, ExitCode>
    requires some { 0 < asked.chunk }
    requires small { asked.chunk ≤ 64 }
    ensures { IfOk result
        (λ ended. is_in_lines ended.kept ≡ is_some asked.entry.journal) }
{
    let named = Named {
        load: asked.load,
        journal: asked.journal,
        dump: None,
        users: None,
    };
    apart_from_each_other(host, named)?;
    let mut writer = output(host)?;
    let begun = begun(
        host,
        rt,
        named,
        asked.chunk,
        asked.limits,
        JournalSync::Never,
    )?;
    let kept = kept(host, &mut input(host), &mut writer, begun)?;
    let status = status_of(host, kept.system(), asked.audit);
    Ok(Ended { kept, status })
}
