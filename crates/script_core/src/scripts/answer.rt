//! What is said of a line, and what is written for it.
ghost use Rattle.std.specs.Prelude.{◌≡◌, ℕ, List, false, true, Ok};
ghost use Rattle.base_core.specs.Streams.{MayWrite};
ghost use Rattle.reader_core.specs.Language.{Spells};
ghost use Rattle.monitor_core.specs.Verdict.{is_change};
ghost use Rattle.system_core.specs.Journal.{verdict_at};
ghost use Rattle.system_core.specs.Step.{Step, change_reply};
ghost use Rattle.system_core.specs.declared.machine.event.Entry.{Entry};
ghost use Rattle.journal_core.specs.Recorder.{with_keeper, event_of_entry};
ghost use Rattle.script_core.specs.Replying.{TellsAsked, TellsSaid, TellsThen, TellsKept};
ghost use Rattle.script_core.specs.Keeping.{AnswersKept};

use crate::scripts::address::read_addressed;
use base_core::{Broken, Moment, NoGate, NoMemory, Sink};
use journal_core::{Keeper, enter};
use lexer_core::{MAX_LINE, ReadFault, Token};
use monitor_core::is_change;
use reply_core::{ReplyBuffer, write_done, write_fault, write_reply, write_unread};
use std::alloc::Global;
use system_core::{Entry, Event, Reply, System};

/// What is said of a line.
#[derive(Drop)]
pub enum Said {
    /// It has this fault, or there was no memory to read it.
    Fault(ReadFault),
    /// It was read, and this is the reply.
    Answer(Reply),
}

fn write_said<W: Sink>(buffer: &mut ReplyBuffer, said: Said, writer: &mut W) -> Result<(), Broken>
    requires { W.failed writer.old ≡ false }
    ensures { MayWrite W.failed W.taken (TellsSaid said) result writer.old writer.new }
{
    match said {
        Said::Fault(ReadFault::At { code, offset }) => write_fault(buffer, code, offset, writer),
        Said::Fault(ReadFault::NoMemory) => write_unread(writer),
        Said::Answer(reply) => write_reply(buffer, reply, writer, &NoGate),
    }
}

/// Lets the checkpointer do a step, and writes what is said of a line and then what is to be said
/// of the step: where it found no memory, that the checkpoint is given up. Both are written after
/// the step, so that a writer that fails leaves none undone.
fn tell<W: Sink>(
    buffer: &mut ReplyBuffer,
    system: &mut System,
    writer: &mut W,
    said: Said,
) -> Result<(), Broken>
    requires { W.failed writer.old ≡ false }
    ensures { MayWrite W.failed W.taken (TellsThen said system.old system.new)
        result writer.old writer.new }
{
    let reply = system.step(Event::Step);
    let refused = reply.is_refused();
    drop(reply);
    if !refused {
        system.let_go();
        return write_said(buffer, said, writer);
    }
    let given_up = system.step(Event::Abandon);
    system.let_go();
    match write_said(buffer, said, writer) {
        Ok(()) => write_reply(buffer, given_up, writer, &NoGate),
        Err(Broken) => {
            drop(given_up);
            Err(Broken)
        }
    }
}

/// Tells why a line was not read.
// Not inlined, here and below: the large stack frame would otherwise be cleared for every INSERT.
#[inline(never)]
fn tell_fault<W: Sink>(
    buffer: &mut ReplyBuffer,
    system: &mut System,
    writer: &mut W,
    fault: ReadFault,
) -> Result<(), Broken>
    requires { W.failed writer.old ≡ false }
    ensures { MayWrite W.failed W.taken (TellsThen (Said.Fault fault) system.old system.new)
        result writer.old writer.new }
{
    tell(buffer, system, writer, Said::Fault(fault))
}

/// Tells the reply. Where no checkpoint is active the checkpointer's step does nothing, and is left
/// out.
fn tell_reply<W: Sink>(
    buffer: &mut ReplyBuffer,
    system: &mut System,
    writer: &mut W,
    reply: Reply,
) -> Result<(), Broken>
    requires { W.failed writer.old ≡ false }
    ensures { MayWrite W.failed W.taken (TellsThen (Said.Answer reply) system.old system.new)
        result writer.old writer.new }
{
    if system.is_idle() {
        return write_reply(buffer, reply, writer, &NoGate);
    }
    tell(buffer, system, writer, Said::Answer(reply))
}

/// Tells what an allowed change that was asked at this moment came to.
#[inline(never)]
fn tell_change<W: Sink>(
    buffer: &mut ReplyBuffer,
    system: &mut System,
    writer: &mut W,
    at: Moment,
    made: Result<Moment, NoMemory>,
) -> Result<(), Broken>
    requires { W.failed writer.old ≡ false }
    ensures { MayWrite W.failed W.taken
        (TellsThen (Said.Answer (change_reply at made)) system.old system.new)
        result writer.old writer.new }
{
    tell_reply(buffer, system, writer, Reply::to_change(at, made))
}

/// Enters an allowed change, and then tells what it came to. Of one that could not be kept nothing is
/// told, and no step of the checkpointer follows.
fn ask_change<W: Sink, K: Keeper>(
    buffer: &mut ReplyBuffer,
    system: &mut System,
    writer: &mut W,
    keeper: &mut K,
    entry: Entry,
) -> Result<(), Broken>
    requires writes { W.failed writer.old ≡ false }
    requires settled { K.owing keeper.old ≡ false }
    requires spelled { (line : List ℕ) × Spells line entry.statement }
    requires allowed { let now = system.old in
        verdict_at now.limits now.journal entry.user entry.statement ≡ Ok tt }
    requires change { is_change entry.statement ≡ true }
    ensures { MayWrite W.failed W.taken
        (TellsKept K.Keeper entry
        (with_keeper system.old keeper.old) (with_keeper system.new keeper.new))
        result writer.old writer.new }
{
    let at = system.moment();
    let Ok(made) = enter(system, keeper, entry) else {
        return Ok(());
    };
    if !system.is_idle() {
        return tell_change(buffer, system, writer, at, made);
    }
    match made {
        Ok(made) => write_done(buffer, made, writer),
        Err(NoMemory) => tell_change(buffer, system, writer, at, made),
    }
}

/// The reply to what is no allowed change.
fn reply_to(system: &mut System, entry: Entry) -> Reply
    requires { let now = system.old in
        (verdict_at now.limits now.journal entry.user entry.statement ≡ Ok tt)
        × (is_change entry.statement ≡ true) → ⊥ }
    ensures { Step system.old (event_of_entry entry) result system.new }
{
    if is_change(&entry.statement) {
        return system.deny(entry);
    }
    let Entry {
        pass,
        user,
        statement,
    } = entry;
    system.step(Event::Say {
        pass,
        user,
        statement,
    })
}

/// Asks what is no allowed change, and tells the reply.
#[inline(never)]
fn ask_any<W: Sink>(
    buffer: &mut ReplyBuffer,
    system: &mut System,
    writer: &mut W,
    entry: Entry,
) -> Result<(), Broken>
    requires writes { W.failed writer.old ≡ false }
    requires unchanged { let now = system.old in
        (verdict_at now.limits now.journal entry.user entry.statement ≡ Ok tt)
        × (is_change entry.statement ≡ true) → ⊥ }
    ensures { MayWrite W.failed W.taken (TellsAsked entry system.old system.new)
        result writer.old writer.new }
{
    let reply = reply_to(system, entry);
    tell_reply(buffer, system, writer, reply)
}

/// Asks what a user says, keeps a change, lets the checkpointer do a step, and writes what is said.
fn ask<W: Sink, K: Keeper>(
    buffer: &mut ReplyBuffer,
    system: &mut System,
    writer: &mut W,
    keeper: &mut K,
    entry: Entry,
) -> Result<(), Broken>
    requires writes { W.failed writer.old ≡ false }
    requires settled { K.owing keeper.old ≡ false }
    requires spelled { (line : List ℕ) × Spells line entry.statement }
    ensures { MayWrite W.failed W.taken
        (TellsKept K.Keeper entry
        (with_keeper system.old keeper.old) (with_keeper system.new keeper.new))
        result writer.old writer.new }
{
    if system.may_change(&entry) {
        return ask_change(buffer, system, writer, keeper, entry);
    }
    ask_any(buffer, system, writer, entry)
}

/// Reads a line, asks what it says, keeps a change, lets the checkpointer do a step, and writes what
/// is said. Where the change could not be kept it is owed, and nothing is written.
pub fn answer<W: Sink, K: Keeper>(
    alloc: Global,
    tokens: &mut Vec<Token>,
    buffer: &mut ReplyBuffer,
    system: &mut System,
    writer: &mut W,
    keeper: &mut K,
    line: &[u8],
) -> Result<(), Broken>
    requires writes { W.failed writer.old ≡ false }
    requires settled { K.owing keeper.old ≡ false }
    ensures { MayWrite W.failed W.taken
        (λ text. AnswersKept K.Keeper
        (with_keeper system.old keeper.old) line.now text (with_keeper system.new keeper.new))
        result writer.old writer.new }
{
    match read_addressed(alloc, tokens, MAX_LINE, line) {
        Ok((user, statement)) => {
            let entry = Entry {
                pass: 0,
                user,
                statement,
            };
            ask(buffer, system, writer, keeper, entry)
        }
        Err(fault) => tell_fault(buffer, system, writer, fault),
    }
}
