//! Changes kept as the lines of a script.
ghost use Rattle.std.specs.Prelude.{◌≡◌, ◌≤◌, ◌<◌, ℕ, List, None, true, false, IfOk, IfErr, length, take, is_some, OnOk, OnErr, MatchResult};
ghost use Rattle.std.specs.Io.KnownBytes.{Appends};
ghost use Rattle.reader_core.specs.Language.{Spells};
ghost use Rattle.system_core.specs.declared.machine.event.Entry.{Entry};
ghost use Rattle.journal_core.specs.Keeping.{LineKeeperState, line_keeper_state, owing_nothing, KeepsLine, OwesLine};

use crate::errands::Errands;
use crate::keeper::Keeper;
use crate::unwritten::Unwritten;
use base_core::{Broken, NoMemory, Resume, Sink};
use folder_core::Errand;
use printer_core::{Page, journal_line_is_short};
use std::alloc::Global;
use std::marker::Model;
use system_core::Entry;

/// Writes the line of each change, `user: statement` with its line feed, and has the sink hand it
/// on before the next. What the sink could not take of a line it tries again. Contracts see what the
/// sink took and what of it was handed on, and what is still to be written of the last line.
#[derive(Drop)]
pub struct LineKeeper<W: Sink + Drop> {
    page: Page,
    sink: W,
    unwritten: Unwritten,
}

impl<W: Sink + Drop> Model for LineKeeper<W> {
    ghost use Rattle.std.specs.Prelude.{◌≡◌, is_some};
    ghost use Rattle.journal_core.specs.Keeping.{LineKeeperState};

    ghost Value = { LineKeeperState };

    ghost view = { λ k. record {
      taken = W.taken k.sink;
      handed_on = W.handed_on k.sink;
      owed = k.unwritten;
    } };

    ghost invariant = { λ k. W.failed k.sink ≡ is_some k.unwritten };
}

impl<W: Sink + Drop> LineKeeper<W> {
    /// A keeper that writes to this sink. `NoMemory` where a request for room, of a line twice, was
    /// refused.
    pub fn new(alloc: Global, sink: W) -> Result<LineKeeper<W>, NoMemory>
        requires { W.failed sink ≡ false }
        ensures { IfOk result
            (λ keeper. keeper ≡ owing_nothing (W.taken sink) (W.handed_on sink)) }
    {
        let page = Page::new(alloc)?;
        let unwritten = Unwritten::new(alloc)?;
        Ok(LineKeeper {
            page,
            sink,
            unwritten,
        })
    }
}

/// Writes the bytes as far as the sink takes them, and says how many it took: all exactly if it has
/// not failed.
fn write_front<W: Sink>(sink: &mut W, bytes: &[u8]) -> usize
    requires { W.failed sink.old ≡ false }
    ensures within { result ≤ length bytes.now }
    ensures wrote { Appends (W.taken sink.old) (W.taken sink.new) (take result bytes.now) }
    ensures whole { result ≡ length bytes.now → W.failed sink.new ≡ false }
    ensures failed { result < length bytes.now → W.failed sink.new ≡ true }
{
    let mut count = 0;
    while count < bytes.len() {
        match sink.write(&bytes[count..]) {
            Ok(more) => count += more,
            Err(Broken) => return count,
        }
    }
    count
}

/// Writes the bytes, and has them handed on. Where the sink failed, says how many it took before.
fn write_through<W: Sink>(sink: &mut W, bytes: &[u8]) -> Result<(), usize>
    requires { W.failed sink.old ≡ false }
    ensures failed { MatchResult result (λ _. W.failed sink.new ≡ false)
        (λ _. W.failed sink.new ≡ true) }
    ensures ok { OnOk result (Appends (W.taken sink.old) (W.taken sink.new) bytes.now) }
    ensures handed_on { OnOk result (W.handed_on sink.new ≡ W.taken sink.new) }
    ensures within { IfErr result (λ count. count ≤ length bytes.now) }
    ensures err { IfErr result
        (λ count. Appends (W.taken sink.old) (W.taken sink.new) (take count bytes.now)) }
{
    let count = write_front(sink, bytes);
    if count < bytes.len() {
        return Err(count);
    }
    match sink.flush() {
        Ok(()) => Ok(()),
        Err(Broken) => Err(count),
    }
}

/// Writes the line of an entry, and has the sink hand it on.
fn write_entry<W: Sink>(
    page: &mut Page,
    sink: &mut W,
    unwritten: &mut Unwritten,
    entry: &Entry,
) -> Result<(), Broken>
    requires works { W.failed sink.old ≡ false }
    requires settled { unwritten.old ≡ None }
    requires spelled { (line : List ℕ) × Spells line entry.now.statement }
    ensures failed { W.failed sink.new ≡ is_some unwritten.new }
    ensures owing { MatchResult result (λ _. is_some unwritten.new ≡ false)
        (λ _. is_some unwritten.new ≡ true) }
    ensures ok { OnOk result (KeepsLine
        (line_keeper_state (W.taken sink.old) (W.handed_on sink.old) unwritten.old) entry.now
        (line_keeper_state (W.taken sink.new) (W.handed_on sink.new) unwritten.new)) }
    ensures err { OnErr result (OwesLine
        (line_keeper_state (W.taken sink.old) (W.handed_on sink.old) unwritten.old) entry.now
        (line_keeper_state (W.taken sink.new) (W.handed_on sink.new) unwritten.new)) }
{
    // A user's name is one, as its type keeps it, and so the line has room.
    let _ = entry.user.0.as_bytes();
    journal_line_is_short();
    let line = page.line(entry.user, &entry.statement);
    match write_through(sink, line) {
        Ok(()) => Ok(()),
        Err(count) => {
            unwritten.set(&line[count..]);
            Err(Broken)
        }
    }
}

/// Writes what is still to be written of a line, and has the sink hand it on.
fn write_rest<W: Sink + Resume>(sink: &mut W, unwritten: &mut Unwritten) -> Result<(), Broken>
    requires { is_some unwritten.old ≡ true }
    ensures failed { W.failed sink.new ≡ is_some unwritten.new }
    ensures owing { MatchResult result (λ _. is_some unwritten.new ≡ false)
        (λ _. is_some unwritten.new ≡ true) }
    ensures ok { OnOk result ((start : LineKeeperState) (entry : Entry)
        → OwesLine start entry
        (line_keeper_state (W.taken sink.old) (W.handed_on sink.old) unwritten.old)
        → KeepsLine start entry
        (line_keeper_state (W.taken sink.new) (W.handed_on sink.new) unwritten.new)) }
    ensures err { OnErr result ((start : LineKeeperState) (entry : Entry)
        → OwesLine start entry
        (line_keeper_state (W.taken sink.old) (W.handed_on sink.old) unwritten.old)
        → OwesLine start entry
        (line_keeper_state (W.taken sink.new) (W.handed_on sink.new) unwritten.new)) }
{
    sink.resume();
    match write_through(sink, unwritten.as_slice()) {
        Ok(()) => {
            unwritten.clear();
            Ok(())
        }
        Err(count) => {
            unwritten.advance(count);
            Err(Broken)
        }
    }
}

impl<W: Resume + Errands + Drop> Keeper for LineKeeper<W> {
    ghost use Rattle.std.specs.Prelude.{◌≡◌, is_some, true};
    ghost use Rattle.journal_core.specs.Keeping.{KeepsLine, OwesLine};

    ghost keeps = { KeepsLine };

    ghost owes = { OwesLine };

    ghost owing = { λ k. is_some k.owed };

    ghost may_run = { λ k errand. W.knows ≡ true → W.may_run k.taken errand };

    fn is_owing(&self) -> bool {
        self.unwritten.is_owed()
    }

    fn keep(&mut self, entry: &Entry) -> Result<(), Broken> {
        write_entry(&mut self.page, &mut self.sink, &mut self.unwritten, entry)
    }

    fn settle(&mut self) -> Result<(), Broken> {
        if !self.unwritten.is_owed() {
            return Ok(());
        }
        write_rest(&mut self.sink, &mut self.unwritten)
    }

    fn run(&mut self, errand: Errand) -> bool {
        self.sink.run(errand)
    }
}
