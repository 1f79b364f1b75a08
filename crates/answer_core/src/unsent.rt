//! What is still to be sent of an answer, piece by piece.
ghost use Rattle.std.specs.Prelude.{◌≡◌, None, Some, false, true, IfOk, MatchResult, OnErr};
ghost use Rattle.base_core.specs.Streams.{Writes, WritesFrontOf};
ghost use Rattle.answer_core.specs.Answers.{AnswersUnsent, IsUnsentText, IsBelow, SendsMore};
ghost use Rattle.answer_core.specs.Remaining.{rows_to_come};
ghost use Rattle.answer_core.specs.Replies.{unsent_of};

use crate::formats::Formats;
use crate::items::Items;
use crate::records::Records;
use crate::steps::{RecordStep, Stop, asked_behind, next_part, next_step, write_part, write_step};
use crate::tag::Tag;
use base_core::{Broken, Gate, Moment, Sink};
use reply_core::ReplyBuffer;

/// What the rows of an answer have in common: the kind of the statement that they answer, the moment of
/// the reply, and the format of each column.
#[derive(Drop)]
pub struct Frame {
    pub tag: Tag,
    pub at: Moment,
    pub formats: Formats,
}

/// The rows of a reply that are to come: those of a list from a place on, or the records of an export of
/// which so many were sent.
#[derive(Drop)]
pub enum Remainder {
    Listed { items: Items, next: usize },
    Export { records: Records, sent: u64 },
}

/// An answer with rows that rests until more of them are asked for.
#[derive(Drop)]
pub struct Portal {
    pub remainder: Remainder,
    pub frame: Frame,
}

/// What is still to be written of an answer: the rows of a portal, as many as are asked for, or all.
#[derive(Drop)]
pub struct Unsent {
    pub portal: Portal,
    pub most: Option<usize>,
}

/// How far an answer has come.
#[derive(Drop)]
pub enum Progress {
    /// It was written whole.
    Whole,
    /// All rows were written that were asked for, and others are left.
    Suspended(Portal),
    /// This is still to be written.
    Part(Unsent),
}

impl Portal {
    /// Goes on with the next rows: at most so many, or all. It writes nothing yet.
    pub fn resume(self, most: Option<usize>) -> Unsent
        ensures portal { result.portal ≡ self }
        ensures most { result.most ≡ most }
    {
        Unsent { portal: self, most }
    }
}

/// Writes the next rows of a list.
pub(crate) fn go_on_listed<W: Sink>(
    buffer: &mut ReplyBuffer,
    items: Items,
    next: usize,
    frame: Frame,
    most: Option<usize>,
    writer: &mut W,
) -> Result<Progress, Broken>
    requires { W.failed writer.old ≡ false }
    ensures failed { MatchResult result (λ _. W.failed writer.new ≡ false)
        (λ _. W.failed writer.new ≡ true) }
    ensures ok { IfOk result (λ progress. Writes
        (SendsMore (unsent_of (Remainder.Listed items next) frame most) progress)
        (W.taken writer.old) (W.taken writer.new)) }
    ensures progress { IfOk result
        (IsBelow (rows_to_come (unsent_of (Remainder.Listed items next) frame most))) }
    ensures err { OnErr result (WritesFrontOf
        (IsUnsentText (unsent_of (Remainder.Listed items next) frame most))
        (W.taken writer.old) (W.taken writer.new)) }
{
    let part = next_part(most, items.len().saturating_sub(next));
    write_part(buffer, &frame, &items, next, part, writer)?;
    let (count, stop) = part;
    let next = next + count;
    let remainder = Remainder::Listed { items, next };
    let portal = Portal { remainder, frame };
    match stop {
        Stop::Later => {
            let most = asked_behind(most, count);
            Ok(Progress::Part(Unsent { portal, most }))
        }
        Stop::Suspended => Ok(Progress::Suspended(portal)),
        Stop::Whole => Ok(Progress::Whole),
    }
}

/// Writes the next record of an export, or what ends the answer.
// By itself, so that no other answer takes the room for it.
#[inline(never)]
fn go_on_export<W: Sink, G: Gate>(
    buffer: &mut ReplyBuffer,
    records: Records,
    sent: u64,
    frame: Frame,
    most: Option<usize>,
    writer: &mut W,
    gate: &G,
) -> Result<Progress, Broken>
    requires { W.failed writer.old ≡ false }
    ensures failed { MatchResult result (λ _. W.failed writer.new ≡ false)
        (λ _. W.failed writer.new ≡ true) }
    ensures ok { IfOk result (λ progress. Writes
        (SendsMore (unsent_of (Remainder.Export records sent) frame most) progress)
        (W.taken writer.old) (W.taken writer.new)) }
    ensures progress { IfOk result
        (IsBelow (rows_to_come (unsent_of (Remainder.Export records sent) frame most))) }
    ensures err { OnErr result (WritesFrontOf
        (IsUnsentText (unsent_of (Remainder.Export records sent) frame most))
        (W.taken writer.old) (W.taken writer.new)) }
{
    gate.before_record(sent);
    let mut records = records;
    let step = next_step(&mut records, most, sent);
    write_step(buffer, &frame, sent, &step, writer)?;
    match step {
        RecordStep::Next(_) => {
            let sent = sent + 1;
            let remainder = Remainder::Export { records, sent };
            let portal = Portal { remainder, frame };
            let most = asked_behind(most, 1);
            Ok(Progress::Part(Unsent { portal, most }))
        }
        RecordStep::Suspended => {
            let remainder = Remainder::Export { records, sent };
            Ok(Progress::Suspended(Portal { remainder, frame }))
        }
        RecordStep::Whole => Ok(Progress::Whole),
        RecordStep::Cut => Ok(Progress::Whole),
    }
}

impl Unsent {
    /// Writes some of what is to come: at most 64 rows of a list, or the next record of an export,
    /// before which the gate is called. Behind the last row that is asked for it writes what ends the
    /// answer, or that the portal is suspended. The buffer may have any text; what it has then means
    /// nothing.
    ///
    /// Only an export's records take memory: where there is none for the next, an error is written in
    /// place of the rest, and nothing is to come. `Broken` exactly where the writer has failed, and then
    /// a front was written.
    pub fn go_on<W: Sink, G: Gate>(
        self,
        buffer: &mut ReplyBuffer,
        writer: &mut W,
        gate: &G,
    ) -> Result<Progress, Broken>
        requires { W.failed writer.old ≡ false }
        ensures failed { MatchResult result (λ _. W.failed writer.new ≡ false)
            (λ _. W.failed writer.new ≡ true) }
        ensures ok { IfOk result (λ progress. Writes (SendsMore self progress)
            (W.taken writer.old) (W.taken writer.new)) }
        ensures progress { IfOk result (IsBelow (rows_to_come self)) }
        ensures err { OnErr result (WritesFrontOf (IsUnsentText self)
            (W.taken writer.old) (W.taken writer.new)) }
    {
        let Unsent { portal, most } = self;
        let Portal { remainder, frame } = portal;
        match remainder {
            Remainder::Listed { items, next } => {
                go_on_listed(buffer, items, next, frame, most, writer)
            }
            Remainder::Export { records, sent } => {
                go_on_export(buffer, records, sent, frame, most, writer, gate)
            }
        }
    }

    /// Writes all that is to come. Gives the portal, if it is then suspended. The buffer may have any
    /// text; what it has then means nothing. Memory and errors are as of [`Unsent::go_on`].
    pub fn finish<W: Sink, G: Gate>(
        self,
        buffer: &mut ReplyBuffer,
        writer: &mut W,
        gate: &G,
    ) -> Result<Option<Portal>, Broken>
        requires { W.failed writer.old ≡ false }
        ensures failed { MatchResult result (λ _. W.failed writer.new ≡ false)
            (λ _. W.failed writer.new ≡ true) }
        ensures ok { IfOk result (λ left. Writes (λ text. AnswersUnsent self text left)
            (W.taken writer.old) (W.taken writer.new)) }
        ensures err { OnErr result (WritesFrontOf (IsUnsentText self)
            (W.taken writer.old) (W.taken writer.new)) }
    {
        let mut unsent = self;
        'parts: loop {
            match unsent.go_on(buffer, writer, gate)? {
                Progress::Whole => return Ok(None),
                Progress::Suspended(portal) => return Ok(Some(portal)),
                Progress::Part(rest) => unsent = rest,
            }
        }
    }
}
