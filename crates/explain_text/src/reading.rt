//! The history that a question is about.
ghost use Rattle.std.specs.Prelude.{◌≡◌, ◌↔◌, false, Err, None, IfOk, OnOk};
ghost use Rattle.system_core.specs.Journal.{changes};
ghost use Rattle.load_core.specs.Loader.{EntersLine};
ghost use Rattle.explain_text.specs.Questions.{has_format};
ghost use Rattle.explain_text.specs.Supposing.{supposed_line, Supposes};

use crate::fault::Unanswered;
use crate::question::Question;
use explain_core::History;
use explain_words::Format;
use lines_core::LONGEST_LINE;
use load_core::{Replayed, enter_line, is_out_of_memory};
use std::alloc::Global;
use system_core::System;

/// Carries the line's change out in the core, which is not to be used for anything else any more.
/// The error is `NoMemory` where a request for memory was refused, and else names why the change
/// would not be done.
fn suppose(alloc: Global, system: &mut System, line: &str) -> Result<(), Unanswered>
    ensures done { OnOk result (EntersLine system.old line.now None system.new) }
    ensures undone { result ≡ Err Unanswered.NoGraph → ⊥ }
{
    match enter_line(
        alloc,
        &mut Vec::new(alloc),
        system,
        LONGEST_LINE,
        line.as_bytes(),
    ) {
        None => Ok(()),
        Some(why) => Err(if is_out_of_memory(&why) {
            Unanswered::NoMemory
        } else {
            Unanswered::Undone(why)
        }),
    }
}

/// The history of the rights that were made by what was replayed. A line that the question supposes
/// is carried out before, in the core, which is then of no use but to [`explain`](crate::explain).
///
/// The error names why the question has no answer: it has none in this form; its line would not be
/// done; or a request for memory was refused.
pub fn history_asked(
    alloc: Global,
    replayed: &mut Replayed,
    question: &Question<'_>,
    format: Format,
) -> Result<History, Unanswered>
    ensures supposed { OnOk result
        (Supposes (supposed_line question.now) replayed.old.world replayed.new.world) }
    ensures graph { (result ≡ Err Unanswered.NoGraph) ↔ (has_format question.now format ≡ false) }
    ensures history { IfOk result (λ history. history ≡ changes replayed.new.world.journal) }
{
    if !question.has_format(format) {
        return Err(Unanswered::NoGraph);
    }
    if let Some(line) = question.line() {
        suppose(alloc, &mut replayed.system, line)?;
    }
    Ok(History::read(alloc, replayed.system.changes()?)?)
}
