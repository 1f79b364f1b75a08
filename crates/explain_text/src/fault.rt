//! Why a question is not answered.
ghost use Rattle.std.specs.Prelude.{◌≡◌, ◌++◌, codes, IfOk};
ghost use Rattle.reply_core.specs.Texts.{fault_text};
ghost use Rattle.load_core.specs.FaultTexts.{without_last};
ghost use Rattle.explain_text.specs.FaultTexts.{supposed_text, given, unanswered_text};
ghost use Rattle.explain_text.specs.FaultTexts.{explain_fault_text, is_final, is_of_the_question};

use crate::question::Question;
use base_core::{Broken, Name, NoMemory};
use lexer_core::Code;
use load_core::Undone;
use reply_core::{Gathered, ReplyBuffer, reply_text, write_fault};
use std::alloc::Global;

const NO_NAME: &[u8] = b"is no name of a user or a table";

const NO_PRIVILEGE: &[u8] = b"is no privilege: write SELECT, INSERT, DELETE or UPDATE, \
or of a column SELECT(c) or UPDATE(c)";

/// Why a question is not answered.
#[derive(Drop)]
pub enum ExplainFault {
    /// The writer failed. A front of the answer was written.
    Write,
    /// There is no answer. Nothing was written.
    Unanswered(Unanswered),
}

/// Why a question has no answer.
#[derive(Drop)]
pub enum Unanswered {
    /// A request for memory was refused.
    NoMemory,
    /// The word for the user is no name.
    NoUser,
    /// The word for the table is no name.
    NoTableName,
    /// The words for the privilege are none.
    NoPrivilege,
    NoTable(Name),
    NoColumn { table: Name, column: Name },
    /// The question has no answer that is a graph.
    NoGraph,
    /// The line that was to be supposed says no change that would be done.
    Undone(Undone),
}

impl From<NoMemory> for Unanswered {
    ghost use Rattle.std.specs.Prelude.{◌≡◌};
    ghost use Rattle.explain_text.specs.declared.fault.Unanswered.TheVariants as reasons;

    ghost from_gives = { λ _ e. e ≡ reasons.NoMemory };

    fn from(_error: NoMemory) -> Unanswered {
        Unanswered::NoMemory
    }
}

impl From<Unanswered> for ExplainFault {
    ghost use Rattle.std.specs.Prelude.{◌≡◌};
    ghost use Rattle.explain_text.specs.declared.fault.ExplainFault.TheVariants as faults;

    ghost from_gives = { λ why e. e ≡ faults.Unanswered why };

    fn from(why: Unanswered) -> ExplainFault {
        ExplainFault::Unanswered(why)
    }
}

impl From<Broken> for ExplainFault {
    ghost use Rattle.std.specs.Prelude.{◌≡◌};
    ghost use Rattle.explain_text.specs.declared.fault.ExplainFault.TheVariants as faults;

    ghost from_gives = { λ _ e. e ≡ faults.Write };

    fn from(_error: Broken) -> ExplainFault {
        ExplainFault::Write
    }
}

impl Unanswered {
    /// Whether there is no answer at all, and not only for want of memory.
    fn is_final(&self) -> bool
        ensures { result ≡ is_final self.now }
    {
        match self {
            Unanswered::NoMemory => false,
            Unanswered::NoUser
            | Unanswered::NoTableName
            | Unanswered::NoPrivilege
            | Unanswered::NoTable(_)
            | Unanswered::NoColumn { .. }
            | Unanswered::NoGraph
            | Unanswered::Undone(_) => true,
        }
    }
}

impl ExplainFault {
    /// Whether it is the question that has no answer: its words name nothing that is there, its
    /// line would not be done, or there is no graph of it. False where the writer failed, or a
    /// request for memory was refused.
    pub fn is_of_the_question(&self) -> bool
        ensures { result ≡ is_of_the_question self.now }
    {
        match self {
            ExplainFault::Write => false,
            ExplainFault::Unanswered(why) => why.is_final(),
        }
    }
}

/// These parts in new memory, one after another.
fn joined(alloc: Global, first: &[u8], second: &[u8]) -> Result<Vec<u8>, NoMemory>
    ensures { IfOk result (λ text. text.items ≡ first.now ++ second.now) }
{
    let mut text = Vec::new(alloc);
    text.extend_from_slice(first)?;
    text.extend_from_slice(second)?;
    Ok(text)
}

/// These bytes in new memory.
fn owned(alloc: Global, bytes: &[u8]) -> Result<Vec<u8>, NoMemory>
    ensures { IfOk result (λ text. text.items ≡ bytes.now) }
{
    let mut text = Vec::new(alloc);
    text.extend_from_slice(bytes)?;
    Ok(text)
}

/// The bytes without the last.
fn without_last(text: &[u8]) -> &[u8]
    ensures { result.now ≡ without_last text.now }
{
    &text[..text.len().saturating_sub(1)]
}

/// The text of a line's fault, with its line feed.
fn fault_line(alloc: Global, code: Code, offset: usize) -> Result<Vec<u8>, NoMemory>
    ensures { IfOk result (λ text. text.items ≡ fault_text code offset) }
{
    let mut buffer = ReplyBuffer::new(alloc)?;
    let mut gathered = Gathered::new(alloc);
    match write_fault(&mut buffer, code, offset, &mut gathered) {
        Ok(()) => Ok(gathered.text),
        Err(Broken) => Err(NoMemory),
    }
}

/// Why a line says no change that would be done: what a session would be told of it.
fn undone_text(alloc: Global, why: &Undone) -> Result<Vec<u8>, NoMemory>
    ensures { IfOk result (λ text. text.items ≡ supposed_text why.now) }
{
    match why {
        Undone::Fault { code, offset } => {
            let line = fault_line(alloc, *code, *offset)?;
            owned(alloc, without_last(line.as_slice()))
        }
        Undone::Unread => owned(alloc, b"no memory"),
        Undone::NoChange => owned(alloc, b"no change: only a change can take a right"),
        Undone::Answer(reply) => {
            let line = reply_text(alloc, reply)?;
            owned(alloc, without_last(line.as_slice()))
        }
    }
}

/// The words that were given, in quotes, and what they are not.
fn given(alloc: Global, words: &str, told: &[u8]) -> Result<Vec<u8>, NoMemory>
    ensures { IfOk result (λ text. text.items ≡ given words.now told.now) }
{
    let mut text = Vec::new(alloc);
    text.extend_from_slice(b"'")?;
    text.extend_from_slice(words.as_bytes())?;
    text.extend_from_slice(b"' ")?;
    text.extend_from_slice(told)?;
    Ok(text)
}

/// That the table has no such column.
fn no_column(alloc: Global, table: &Name, column: &Name) -> Result<Vec<u8>, NoMemory>
    ensures { IfOk result (λ text. text.items
        ≡ codes "no column " ++ (column.now ++ (codes " in " ++ table.now))) }
{
    let mut text = Vec::new(alloc);
    text.extend_from_slice(b"no column ")?;
    text.extend_from_slice(column.as_bytes())?;
    text.extend_from_slice(b" in ")?;
    text.extend_from_slice(table.as_bytes())?;
    Ok(text)
}

/// Why the question has no answer.
fn unanswered_text(
    alloc: Global,
    question: &Question<'_>,
    why: &Unanswered,
) -> Result<Vec<u8>, NoMemory>
    ensures { IfOk result (λ text. text.items ≡ unanswered_text question.now why.now) }
{
    match why {
        Unanswered::NoMemory => owned(alloc, b"no memory"),
        Unanswered::NoUser => given(alloc, question.user(), NO_NAME),
        Unanswered::NoTableName => given(alloc, question.table(), NO_NAME),
        Unanswered::NoPrivilege => given(alloc, question.privilege(), NO_PRIVILEGE),
        Unanswered::NoTable(table) => joined(alloc, b"no table ", table.as_bytes()),
        Unanswered::NoColumn { table, column } => no_column(alloc, table, column),
        Unanswered::NoGraph => joined(
            alloc,
            question.word(),
            b" has no dot: its formats are text and csv",
        ),
        Unanswered::Undone(why) => undone_text(alloc, why),
    }
}

/// What is told of a fault of this question, in new memory and without a line end: `write fault`,
/// `no memory`, the words that are none in quotes and what they are not, the table or the column
/// that is not there, that the question has no graph, or what a session would be told of the line
/// that was to be supposed. `NoMemory` where a request for memory was refused.
pub fn explain_fault_text(
    alloc: Global,
    question: &Question<'_>,
    fault: &ExplainFault,
) -> Result<Vec<u8>, NoMemory>
    ensures { IfOk result (λ text. text.items ≡ explain_fault_text question.now fault.now) }
{
    match fault {
        ExplainFault::Write => owned(alloc, b"write fault"),
        ExplainFault::Unanswered(why) => unanswered_text(alloc, question, why),
    }
}
