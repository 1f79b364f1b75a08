//! One line of a user.
ghost use Rattle.std.specs.Prelude.{◌≡◌, ◌≤◌, Some, Ok, Err, true, false, IfOk, OnOk, OnErr, MatchResult};
ghost use Rattle.lexer_core.specs.declared.lexer.TheConstants.{MAX_LINE};
ghost use Rattle.base_core.specs.Streams.{Writes, WritesFrontOf};
ghost use Rattle.turnstile.specs.Passes.{IsSamePass};
ghost use Rattle.session_core.specs.Session.{last_moment, AnswersNoted, BeginsNoted, Withholds};

use crate::witness::Witness;
use base_core::{Broken, Gate, Moment, Sink, User};
use desk_core::{Desk, Pass, Unkept};
use journal_core::Keeper;
use lexer_core::{Code, MAX_LINE, ReadFault, Token};
use reader_core::read_with;
use reply_core::{Pending, ReplyBuffer, begin_reply, write_fault, write_rest, write_unread};
use std::alloc::Global;
use std::sync::Wait;

/// The last moment that was told, behind a reply that bears this one, if it bears one.
fn last_moment(at: Option<Moment>, before: Option<Moment>) -> Option<Moment>
    ensures { result ≡ last_moment at before }
{
    match at {
        Some(at) => Some(at),
        None => before,
    }
}

/// Tells the gate of a line that was answered: what is still to be written of the answer.
fn tell<G: Gate>(
    gate: &G,
    at: Option<Moment>,
    written: Result<Option<Pending>, Broken>,
) -> Result<Result<Option<Pending>, Unkept>, Broken>
    ensures { MatchResult written (λ pending. result ≡ Ok (Ok pending)) (λ e. result ≡ Err e) }
{
    let pending = written?;
    gate.answered(at);
    Ok(Ok(pending))
}

/// Nothing is still to be written of what was written so.
fn whole(written: Result<(), Broken>) -> Result<Option<Pending>, Broken>
    ensures { MatchResult written (λ _. result ≡ Ok None) (λ e. result ≡ Err e) }
{
    written?;
    Ok(None)
}

/// As [`serve_line`], but that a long reply is only begun: what is still to be written of it is given.
pub(crate) fn begin_line<K: Keeper + Drop, R: Wait, W: Sink, G: Witness>(
    rt: &R,
    alloc: Global,
    desk: &Desk<K>,
    pass: &mut Pass<K>,
    user: User,
    line: &[u8],
    tokens: &mut Vec<Token>,
    buffer: &mut ReplyBuffer,
    writer: &mut W,
    gate: &G,
    moment: &mut Option<Moment>,
) -> Result<Result<Option<Pending>, Unkept>, Broken>
    requires pass { pass.old.lock ≡ Some desk.now }
    requires sink { W.failed writer.old ≡ false }
    ensures same { IsSamePass pass.old pass.new }
    ensures failed { MatchResult result (λ _. W.failed writer.new ≡ false)
        (λ _. W.failed writer.new ≡ true) }
    ensures ok { IfOk result (λ told. IfOk told (λ pending.
        Writes (BeginsNoted desk.now user line.now pass.old moment.old pass.new moment.new pending)
        (W.taken writer.old) (W.taken writer.new))) }
    ensures withheld { IfOk result (λ told. OnErr told
        ((writer.new ≡ writer.old) × Withholds desk.now user line.now pass.old pass.new)) }
    ensures unnoted { IfOk result (λ told. OnErr told (moment.new ≡ moment.old)) }
    ensures err { OnErr result
        (WritesFrontOf (AnswersNoted desk.now user line.now pass.old moment.old pass.new moment.new)
        (W.taken writer.old) (W.taken writer.new)) }
{
    if line.len() > MAX_LINE {
        gate.faulty();
        let written = write_fault(buffer, Code::TooLong, MAX_LINE, writer);
        return tell(gate, None, whole(written));
    }
    match read_with(alloc, tokens, line) {
        Ok(statement) => {
            gate.said(&statement);
            let reply = match desk.execute(rt, pass, user, statement) {
                Ok(reply) => reply,
                Err(Unkept) => return Ok(Err(Unkept)),
            };
            gate.replied(&user, &reply);
            let at = reply.moment();
            *moment = last_moment(at, *moment);
            let written = begin_reply(buffer, reply, writer);
            tell(gate, at, written)
        }
        Err(ReadFault::At { code, offset }) => {
            gate.faulty();
            tell(gate, None, whole(write_fault(buffer, code, offset, writer)))
        }
        Err(ReadFault::NoMemory) => {
            gate.unread();
            tell(gate, None, whole(write_unread(writer)))
        }
    }
}

/// One line of a user, answered through a pass of the desk: what it says is asked in a turn, and
/// the reply is written after it, with the records of an export. The gate is told of each. The moment is
/// that of the last reply that bore one, before this line and then with it. `Unkept` where the desk
/// withholds the reply, which is that to a change: then nothing is written. `Broken` exactly where
/// the writer failed: then a front of an answer was written. What the vector of tokens and the buffer
/// have before and behind the call means nothing.
pub fn serve_line<K: Keeper + Drop, R: Wait, W: Sink, G: Witness>(
    rt: &R,
    alloc: Global,
    desk: &Desk<K>,
    pass: &mut Pass<K>,
    user: User,
    line: &[u8],
    tokens: &mut Vec<Token>,
    buffer: &mut ReplyBuffer,
    writer: &mut W,
    gate: &G,
    moment: &mut Option<Moment>,
) -> Result<Result<(), Unkept>, Broken>
    requires pass { pass.old.lock ≡ Some desk.now }
    requires sink { W.failed writer.old ≡ false }
    ensures same { IsSamePass pass.old pass.new }
    ensures failed { MatchResult result (λ _. W.failed writer.new ≡ false)
        (λ _. W.failed writer.new ≡ true) }
    ensures ok { IfOk result (λ told. OnOk told
        (Writes (AnswersNoted desk.now user line.now pass.old moment.old pass.new moment.new)
        (W.taken writer.old) (W.taken writer.new))) }
    ensures withheld { IfOk result (λ told. OnErr told
        ((writer.new ≡ writer.old) × Withholds desk.now user line.now pass.old pass.new)) }
    ensures unnoted { IfOk result (λ told. OnErr told (moment.new ≡ moment.old)) }
    ensures err { OnErr result
        (WritesFrontOf (AnswersNoted desk.now user line.now pass.old moment.old pass.new moment.new)
        (W.taken writer.old) (W.taken writer.new)) }
{
    let begun = begin_line(
        rt, alloc, desk, pass, user, line, tokens, buffer, writer, gate, moment,
    )?;
    match begun {
        Ok(pending) => {
            write_rest(pending, buffer, writer, gate)?;
            Ok(Ok(()))
        }
        Err(Unkept) => Ok(Err(Unkept)),
    }
}
