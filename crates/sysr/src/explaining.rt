//! The rights that lines make, explained.
ghost use Rattle.std.specs.Prelude.{◌≡◌, false};

use crate::command::Explaining;
use crate::given::changes_of;
use crate::loading::loaded_or_empty;
use crate::replaying::{manner_of, replayed, status_of, tell_left_out};
use base_core::Sink;
use explain_text::{Answered, ExplainFault, Question, explain, explain_fault_text, history_asked};
use lines_core::{NO_MEMORY, give_up};
use load_core::Replayed;
use run_core::{output, tell};
use std::mem::forget;
use std::process::ExitCode;

const CHUNK: usize = 16;

/// The status of an answer that is no.
const NO_STATUS: u8 = 1;

/// The status of a question that has no answer.
const NO_ANSWER_STATUS: u8 = 2;

/// Tells on standard error why a question has no answer, or why the answer was not written whole.
fn give_up_question(rt: &HostRuntime, question: &Question<'_>, fault: &ExplainFault) -> ExitCode {
    let Ok(text) = explain_fault_text(rt.alloc(), question, fault) else {
        return give_up(rt, NO_MEMORY);
    };
    tell(rt, &text);
    if fault.is_of_the_question() {
        ExitCode::from(NO_ANSWER_STATUS)
    } else {
        ExitCode::FAILURE
    }
}

/// The last moment that a question names, if it names one.
fn moment_named(asked: &Explaining<'_>) -> Option<u64> {
    match asked.question {
        Question::Diff { at } => Some(at.max(asked.at.unwrap_or(0))),
        _ => asked.at,
    }
}

/// Whether the later moment of a difference is before the earlier, which is told.
fn is_backwards(rt: &HostRuntime, asked: &Explaining<'_>) -> bool {
    match (&asked.question, asked.at) {
        (Question::Diff { at }, Some(to)) if to < *at => {
            let _ = eprintln!(rt; "sysr: --to {to} is before --at {at}");
            true
        }
        _ => false,
    }
}

/// What the lines that are read make, up to the moment that is asked for. The error is the status, where they cannot
/// be read, which is told.
fn replayed_to(rt: &HostRuntime, asked: &Explaining<'_>) -> Result<Replayed, ExitCode> {
    let mut reader = changes_of(rt, asked.data)?;
    let begins = loaded_or_empty(rt, None, CHUNK, asked.reading.limits)?;
    let manner = manner_of(asked.reading, asked.at.unwrap_or(u64::MAX));
    replayed(rt, &mut reader, begins, manner)
}

/// Whether the lines end before a moment that is asked for, which is told.
fn is_short(rt: &HostRuntime, replayed: &Replayed, asked: &Explaining<'_>) -> bool {
    let end = replayed.system.moment().0;
    match moment_named(asked) {
        Some(at) if end < at => {
            let _ = eprintln!(rt; "sysr: the script ends at @{end}");
            true
        }
        _ => false,
    }
}

/// Writes the answer to a question about what was replayed, and says what it is.
fn answer<W: Sink>(
    rt: &HostRuntime,
    replayed: &mut Replayed,
    asked: &Explaining<'_>,
    writer: &mut W,
) -> Result<Answered, ExplainFault>
    requires { W.failed writer.old ≡ false }
{
    let (question, format) = (&asked.question, asked.format);
    let history = history_asked(rt.alloc(), replayed, question, format)?;
    let answered = explain(rt.alloc(), &history, replayed, question, format, writer);
    // The process ends behind this, and its memory goes back as a whole.
    forget(history);
    answered
}

/// Tells on standard error what stands beside an answer. The status is that of the reading if it is
/// yes, and 1 if it is no.
fn status_of_answer(rt: &HostRuntime, answered: &Answered, reading: ExitCode) -> ExitCode {
    if let Some(remark) = &answered.remark {
        tell(rt, remark);
    }
    if answered.is_yes {
        reading
    } else {
        ExitCode::from(NO_STATUS)
    }
}

/// Answers a question about what was replayed, and tells of the lines left out. The status is as of [`explained`].
fn told_of<W: Sink>(
    rt: &HostRuntime,
    replayed: &mut Replayed,
    asked: &Explaining<'_>,
    writer: &mut W,
) -> Result<ExitCode, ExitCode>
    requires { W.failed writer.old ≡ false }
{
    if is_short(rt, replayed, asked) {
        return Err(ExitCode::from(NO_ANSWER_STATUS));
    }
    let told = tell_left_out(rt, replayed);
    let reading = status_of(replayed, asked.reading);
    let answered = answer(rt, replayed, asked, writer);
    told?;
    match answered {
        Ok(answered) => Ok(status_of_answer(rt, &answered, reading)),
        Err(fault) => Err(give_up_question(rt, &asked.question, &fault)),
    }
}

/// Answers a question about the rights that the lines of standard input make, and tells of the lines
/// left out. The status is 0 if the answer is yes, 1 if it is no, or lines were left out and that is
/// to be strict, and 2 if the question has no answer.
pub fn explained(rt: &HostRuntime, asked: Explaining<'_>) -> Result<ExitCode, ExitCode> {
    if is_backwards(rt, &asked) {
        return Err(ExitCode::from(NO_ANSWER_STATUS));
    }
    let mut writer = output(rt)?;
    let mut replayed = replayed_to(rt, &asked)?;
    let status = told_of(rt, &mut replayed, &asked, &mut writer);
    // The process ends here, and its memory goes back as a whole.
    forget(replayed);
    status
}
