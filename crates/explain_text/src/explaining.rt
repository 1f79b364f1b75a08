//! Questions answered.
ghost use Rattle.std.specs.Prelude.{◌≡◌, ◌↔◌, ◌++◌, false, true, None, Err, IfOk, IsErrOf, List, ℕ};
ghost use Rattle.std.specs.Io.KnownBytes.{Appends, Keeps};
ghost use Rattle.system_core.specs.Journal.{changes, tables_at};
ghost use Rattle.explain_records.specs.Consequences.{if_answer};
ghost use Rattle.explain_records.specs.Cuttings.{IsCutAnswer};
ghost use Rattle.explain_records.specs.Differences.{diff_answer};
ghost use Rattle.explain_records.specs.Givings.{can_answer};
ghost use Rattle.explain_records.specs.Records.{fell_answer, who_answer};
ghost use Rattle.explain_records.specs.Steps.{IsWhyAnswer};
ghost use Rattle.explain_text.specs.Answering.{AnswersQuestion, IsAnswerTo, may_remark};
ghost use Rattle.explain_text.specs.declared.fault.Unanswered.{Unanswered as reasons};

use crate::asked::Asked;
use crate::fault::{ExplainFault, Unanswered};
use crate::question::Question;
use base_core::{Atom, Moment, Name, NoMemory, Sink, User, write_all};
use explain_core::History;
use explain_records::{
    consequences_records, cut_records, differences_records, fallen_records, givings_records,
    grants_records, holders_records, reasons_records, rights_records,
};
use explain_words::{
    Format, Past, Prose, put_all_fallen, put_consequences, put_cuts, put_differences, put_givings,
    put_grants_graph, put_holders, put_reasons_of, put_why_graph, uncut_remark,
};
use load_core::Replayed;
use std::alloc::Global;

/// An answer, before it is written.
#[derive(Drop)]
struct Answer {
    text: Vec<u8>,
    /// A sentence beside it, without a line end.
    remark: Option<Vec<u8>>,
}

/// What was answered.
#[derive(Drop)]
pub struct Answered {
    /// Of `why` whether he holds all that was asked; of `cut` whether he does not own the table; of
    /// any other question always.
    pub is_yes: bool,
    /// Of `cut`, where nothing is taken: that there is nothing to take, or that he owns the table,
    /// in a sentence without a line end. Of any other question none.
    pub remark: Option<Vec<u8>>,
}

/// Why the user holds the atoms, or why he does not.
fn why_told(
    alloc: Global,
    past: &Past<'_>,
    user: &User,
    table: &Name,
    atoms: &[Atom],
    format: Format,
) -> Result<Vec<u8>, NoMemory>
    ensures { format ≡ Format.Csv → IfOk result (λ text.
        IsWhyAnswer past.now.history.now past.now.lines.now user.now atoms.now text.items) }
{
    let mut text = Prose::new(alloc);
    match format {
        Format::Text => put_reasons_of(&mut text, alloc, past, user, table, atoms)?,
        Format::Dot => put_why_graph(&mut text, alloc, past, user, table, atoms)?,
        Format::Csv => return reasons_records(alloc, &past.numbered(), user, atoms),
    }
    text.finish()
}

/// Who holds the atoms.
fn who_told(
    alloc: Global,
    past: &Past<'_>,
    table: &Name,
    atoms: &[Atom],
    format: Format,
) -> Result<Vec<u8>, NoMemory>
    ensures { format ≡ Format.Csv
        → IfOk result (λ text. text.items ≡ who_answer past.now.history.now atoms.now) }
{
    let mut text = Prose::new(alloc);
    match format {
        Format::Text => put_holders(&mut text, alloc, past, table, atoms)?,
        Format::Dot => put_grants_graph(&mut text, alloc, past, table, atoms),
        Format::Csv => return holders_records(alloc, past.history, atoms),
    }
    text.finish()
}

/// The grants that fell.
fn fell_told(alloc: Global, past: &Past<'_>, format: Format) -> Result<Vec<u8>, NoMemory>
    ensures { format ≡ Format.Csv → IfOk result
        (λ text. text.items ≡ fell_answer past.now.history.now past.now.lines.now) }
{
    if format == Format::Csv {
        return fallen_records(alloc, &past.numbered());
    }
    let mut text = Prose::new(alloc);
    put_all_fallen(&mut text, alloc, past)?;
    text.finish()
}

/// What the change that was supposed takes.
fn if_told(alloc: Global, past: &Past<'_>, format: Format) -> Result<Vec<u8>, NoMemory>
    ensures { format ≡ Format.Csv → IfOk result
        (λ text. text.items ≡ if_answer past.now.history.now past.now.lines.now) }
{
    if format == Format::Csv {
        return consequences_records(alloc, &past.numbered());
    }
    let mut text = Prose::new(alloc);
    put_consequences(&mut text, alloc, past)?;
    text.finish()
}

/// Whom the user could give the atoms to.
fn can_told(
    alloc: Global,
    past: &Past<'_>,
    user: &User,
    table: &Name,
    atoms: &[Atom],
    format: Format,
) -> Result<Vec<u8>, NoMemory>
    ensures { format ≡ Format.Csv → IfOk result
        (λ text. text.items ≡ can_answer past.now.history.now user.now atoms.now) }
{
    if format == Format::Csv {
        return givings_records(alloc, past.history, user, atoms);
    }
    let mut text = Prose::new(alloc);
    put_givings(&mut text, alloc, past, user, table, atoms)?;
    text.finish()
}

/// What came, fell and changed since the moment.
fn diff_told(
    alloc: Global,
    past: &Past<'_>,
    at: Moment,
    format: Format,
) -> Result<Vec<u8>, NoMemory>
    ensures { format ≡ Format.Csv → IfOk result
        (λ text. text.items ≡ diff_answer past.now.history.now past.now.lines.now at.0) }
{
    if format == Format::Csv {
        return differences_records(alloc, &past.numbered(), at);
    }
    let mut text = Prose::new(alloc);
    put_differences(&mut text, alloc, past, at)?;
    text.finish()
}

/// What would take the atoms from the user.
fn cut_told(
    alloc: Global,
    past: &Past<'_>,
    user: &User,
    table: &Name,
    atoms: &[Atom],
    format: Format,
) -> Result<Vec<u8>, NoMemory>
    ensures { format ≡ Format.Csv → IfOk result
        (λ text. IsCutAnswer past.now.history.now user.now atoms.now text.items) }
{
    if format == Format::Csv {
        return cut_records(alloc, past.history, user, atoms);
    }
    let mut text = Prose::new(alloc);
    put_cuts(&mut text, alloc, past, user, table, atoms)?;
    text.finish()
}

/// What answers what is asked.
fn text_of(
    alloc: Global,
    past: &Past<'_>,
    asked: &Asked,
    format: Format,
) -> Result<Vec<u8>, NoMemory>
    ensures { IfOk result (λ text.
        IsAnswerTo past.now.history.now past.now.lines.now asked.now format text.items) }
{
    match asked {
        Asked::Why { user, table, atoms } => why_told(alloc, past, user, table, atoms, format),
        Asked::Who { table, atoms } => who_told(alloc, past, table, atoms, format),
        Asked::Rights => rights_records(alloc, past.history),
        Asked::Fell => fell_told(alloc, past, format),
        Asked::Grants => grants_records(alloc, &past.numbered()),
        Asked::If => if_told(alloc, past, format),
        Asked::Diff { at } => diff_told(alloc, past, *at, format),
        Asked::Can { user, table, atoms } => can_told(alloc, past, user, table, atoms, format),
        Asked::Cut { user, table, atoms } => cut_told(alloc, past, user, table, atoms, format),
    }
}

/// What is told beside an answer: why nothing is taken, where that was asked.
fn remark_of(alloc: Global, past: &Past<'_>, asked: &Asked) -> Result<Option<Vec<u8>>, NoMemory>
    ensures { IfOk result (λ remark. may_remark asked.now ≡ false → remark ≡ None) }
{
    match asked {
        Asked::Cut { user, table, atoms } => uncut_remark(alloc, past, user, table, atoms),
        Asked::Why { .. }
        | Asked::Who { .. }
        | Asked::Rights
        | Asked::Fell
        | Asked::Grants
        | Asked::If
        | Asked::Can { .. }
        | Asked::Diff { .. } => Ok(None),
    }
}

/// The answer, with what is told beside it.
fn answer_of(
    alloc: Global,
    past: &Past<'_>,
    asked: &Asked,
    format: Format,
) -> Result<Answer, Unanswered>
    ensures told { IfOk result (λ answer. IsAnswerTo past.now.history.now past.now.lines.now asked.now
        format answer.text.items) }
    ensures alone { IfOk result
        (λ answer. may_remark asked.now ≡ false → answer.remark ≡ None) }
{
    let text = text_of(alloc, past, asked, format)?;
    let remark = remark_of(alloc, past, asked)?;
    Ok(Answer { text, remark })
}

/// Writes the answer to a question about the rights that a script made, and has the writer hand it
/// on. The history is that of what was replayed, as [`history_asked`](crate::history_asked) gives it. Says whether the
/// answer is yes, and of a `cut` that takes nothing why, which is not written.
///
/// - `Write` exactly if the writer has failed. A front of the answer was written.
/// - `Unanswered` if the question has no answer, by its words or since a request for memory was
///   refused. Nothing was written.
pub fn explain<W: Sink>(
    alloc: Global,
    history: &History,
    replayed: &Replayed,
    question: &Question<'_>,
    format: Format,
    writer: &mut W,
) -> Result<Answered, ExplainFault>
    requires good { W.failed writer.old ≡ false }
    requires same { history.now ≡ changes replayed.now.world.journal }
    ensures answers { IfOk result (λ answered. (text : List ℕ)
        × Appends (W.taken writer.old) (W.taken writer.new) text
        × AnswersQuestion history.now replayed.now.numbers (tables_at replayed.now.world.journal)
        question.now format answered text) }
    ensures write { IsErrOf result ExplainFault.Write ↔ (W.failed writer.new ≡ true) }
    ensures unanswered { (why : reasons) → result ≡ Err (ExplainFault.Unanswered why)
        → Keeps (W.taken writer.old) (W.taken writer.new) }
{
    let past = Past {
        history,
        tables: replayed.system.tables(),
        journal: replayed.system.journal(),
        lines: replayed.lines.as_slice(),
    };
    let asked = Asked::read(alloc, past.tables, question)?;
    let is_yes = asked.is_yes(history);
    let answer = answer_of(alloc, &past, &asked, format)?;
    write_all(writer, &answer.text)?;
    writer.flush()?;
    let Answer { remark, .. } = answer;
    Ok(Answered { is_yes, remark })
}
