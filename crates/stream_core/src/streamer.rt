//! A core that tells what the changes do which lines say, up to the first line that says none.
ghost use Rattle.std.specs.Prelude.{◌≡◌, ◌+◌, ◌<◌, ◌^◌, ◌++◌, ◌∷◌, [], true, false, length, map, None, Ok, Some, IfOk, IfNone, IfSome};
ghost use Rattle.graph_core.specs.Indices.{standing_of};
ghost use Rattle.monitor_core.specs.Verdict.{is_change};
ghost use Rattle.system_core.specs.Journal.{rights_at, verdict_at};
ghost use Rattle.stream_core.specs.Losses.{is_revoking};
ghost use Rattle.stream_core.specs.Streams.{stream_text};
ghost use Rattle.stream_core.specs.Streamer.{EntersTelling, TellsEntry, TellsLine, TellsLosses, stopped_at};
ghost use Rattle.load_core.specs.Loader.{line_at};

use crate::effect::Effect;
use crate::foretelling::{foretold, is_revoking, standings_of};
use crate::losses::losses;
use crate::records::Records;
use base_core::{Broken, NoMemory, Sink, write_all};
use lexer_core::{ReadFault, Token};
use lines_core::{LONGEST_LINE, LineServer};
use links_core::Standing;
use load_core::{Undone, line_at};
use monitor_core::is_change;
use script_core::read_addressed;
use std::alloc::Global;
use std::marker::Model;
use std::mem;
use system_core::{Entry, Reply, System};

/// Contracts see the world whose changes were told, why it stopped, if it did, and up to which moment
/// nothing is told.
#[derive(Drop)]
pub struct Streamer {
    alloc: Global,
    tokens: Vec<Token>,
    system: System,
    /// Of the grants in force.
    standings: Vec<Standing>,
    from: u64,
    records: Records,
    /// Whether the last change was carried out, and could not be told for want of memory.
    untold: bool,
    stop: Option<Undone>,
}

impl Model for Streamer {
    ghost use Rattle.std.specs.Prelude.{◌≡◌, None};
    ghost use Rattle.stream_core.specs.Streamer.{IsCurrent, StreamerState, told_world};

    ghost Value = { StreamerState };

    ghost view = { λ s. record {
      world = told_world s.untold s.system;
      stop = s.stop;
      from = s.from;
    } };

    ghost invariant = { λ s. s.stop ≡ None → IsCurrent s.untold s.standings.items s.system };
}

/// The records of the effects of a moment, unless it is one up to the given one.
fn told_text(
    alloc: Global,
    records: &mut Records,
    from: u64,
    moment: u64,
    effects: &[Effect],
) -> Result<Vec<u8>, NoMemory>
    ensures { IfOk result (λ text. text.items
        ≡ stream_text from (record { moment = moment; all = effects.now } ∷ [])) }
{
    if moment > from {
        records.of_moment(moment, effects)
    } else {
        Ok(Vec::new(alloc))
    }
}

/// The records of what an allowed change would do that is no revocation, and the standings of the grants
/// that it would make.
fn foretold_text(
    alloc: Global,
    records: &mut Records,
    from: u64,
    system: &System,
    entry: &Entry,
) -> Result<(Vec<Standing>, Vec<u8>), NoMemory>
    requires allowed { let asked = entry.now.statement in
        verdict_at system.now.limits system.now.journal entry.now.user asked ≡ Ok tt }
    requires change { is_change entry.now.statement ≡ true }
    requires gives { is_revoking entry.now.statement ≡ false }
    ensures text { IfOk result
        (λ told. TellsEntry from system.now.journal entry.now told.1.items) }
    ensures standings { let after = system.now.journal ++ entry.now ∷ [] in
        IfOk result (λ told. map standing_of (rights_at after).in_force
        ≡ map standing_of (rights_at system.now.journal).in_force ++ told.0.items) }
{
    let moment = system.journal().len() as u64 + 1;
    let grants = system.grants_of(entry)?;
    let effects = foretold(alloc, system, entry, &grants)?;
    let text = told_text(alloc, records, from, moment, &effects)?;
    let standings = standings_of(alloc, &grants)?;
    Ok((standings, text))
}

/// The records of what a revocation took, which was the last change, and the standings of the grants in
/// force now; these were those before it.
fn losses_text(
    alloc: Global,
    records: &mut Records,
    from: u64,
    system: &System,
    before: &[Standing],
) -> Result<(Vec<Standing>, Vec<u8>), NoMemory>
    ensures text { IfOk result
        (λ told. TellsLosses from system.now.journal before.now told.1.items) }
    ensures standings { IfOk result (λ told. told.0.items
        ≡ map standing_of (rights_at system.now.journal).in_force) }
{
    let moment = system.journal().len() as u64;
    let after = system.standings()?;
    let effects = losses(alloc, before, &after)?;
    let text = told_text(alloc, records, from, moment, &effects)?;
    Ok((after, text))
}

/// Stops for this reason.
fn stop_for(stop: &mut Option<Undone>, why: Undone)
    ensures { stop.new ≡ Some why }
{
    drop(mem::replace(stop, Some(why)));
}

impl Streamer {
    /// Nothing was told yet, and nothing will be of the moments up to this one. The core's journal is empty.
    pub fn new(alloc: Global, system: System, from: u64) -> Streamer
        requires { system.journal ≡ [] }
        ensures { result ≡ record { world = system; stop = None; from = from } }
    {
        Streamer {
            alloc,
            tokens: Vec::new(alloc),
            system,
            standings: Vec::new(alloc),
            from,
            records: Records::new(alloc),
            untold: false,
            stop: None,
        }
    }

    /// Enters an allowed change that is no revocation, and gives the records of what it does.
    fn make(&mut self, entry: Entry) -> Option<Vec<u8>>
        requires open { self.old.stop ≡ None }
        requires allowed { let world = self.old.world in
            verdict_at world.limits world.journal entry.user entry.statement ≡ Ok tt }
        requires change { is_change entry.statement ≡ true }
        requires gives { is_revoking entry.statement ≡ false }
        ensures { EntersTelling self.old entry result self.new }
    {
        let Ok((standings, text)) = foretold_text(
            self.alloc,
            &mut self.records,
            self.from,
            &self.system,
            &entry,
        ) else {
            drop(entry);
            stop_for(&mut self.stop, Undone::Unread);
            return None;
        };
        if self.standings.extend_from_slice(&standings).is_err() {
            drop(entry);
            stop_for(&mut self.stop, Undone::Unread);
            return None;
        }
        let at = self.system.moment();
        match self.system.change(entry) {
            Ok(_) => Some(text),
            Err(NoMemory) => {
                let why = Undone::Answer(Reply::to_change(at, Err(NoMemory)));
                stop_for(&mut self.stop, why);
                None
            }
        }
    }

    /// Enters an allowed revocation, and gives the records of what it took.
    fn revoke(&mut self, entry: Entry) -> Option<Vec<u8>>
        requires open { self.old.stop ≡ None }
        requires allowed { let world = self.old.world in
            verdict_at world.limits world.journal entry.user entry.statement ≡ Ok tt }
        requires change { is_change entry.statement ≡ true }
        requires takes { is_revoking entry.statement ≡ true }
        ensures { EntersTelling self.old entry result self.new }
    {
        let at = self.system.moment();
        if let Err(NoMemory) = self.system.change(entry) {
            stop_for(
                &mut self.stop,
                Undone::Answer(Reply::to_change(at, Err(NoMemory))),
            );
            return None;
        }
        match losses_text(
            self.alloc,
            &mut self.records,
            self.from,
            &self.system,
            &self.standings,
        ) {
            Ok((standings, text)) => {
                self.standings = standings;
                Some(text)
            }
            Err(NoMemory) => {
                self.untold = true;
                stop_for(&mut self.stop, Undone::Unread);
                None
            }
        }
    }

    /// Enters an allowed change, and gives the records of what it does. Else it stops.
    fn enter(&mut self, entry: Entry) -> Option<Vec<u8>>
        requires { self.old.stop ≡ None }
        ensures { EntersTelling self.old entry result self.new }
    {
        if !is_change(&entry.statement) {
            drop(entry);
            stop_for(&mut self.stop, Undone::NoChange);
            return None;
        }
        if !self.system.may_change(&entry) {
            let reply = self.system.deny(entry);
            stop_for(&mut self.stop, Undone::Answer(reply));
            return None;
        }
        if is_revoking(&entry.statement) {
            self.revoke(entry)
        } else {
            self.make(entry)
        }
    }

    /// Goes on by a line, and gives the records of what the change does that it says. Else it stops.
    fn take(&mut self, line: &[u8]) -> Option<Vec<u8>>
        requires { self.old.stop ≡ None }
        ensures told { IfSome result (λ text.
            TellsLine self.old (line_at self.old.world.journal line.now) text.items
            self.new.stop self.new) }
        ensures stopped { IfNone result
            (TellsLine self.old (line_at self.old.world.journal line.now) []
            self.new.stop self.new) }
    {
        let line = line_at(&self.system, line);
        match read_addressed(self.alloc, &mut self.tokens, LONGEST_LINE, line) {
            Ok((user, statement)) => self.enter(Entry {
                pass: 0,
                user,
                statement,
            }),
            Err(ReadFault::At { code, offset }) => {
                stop_for(&mut self.stop, Undone::Fault { code, offset });
                None
            }
            Err(ReadFault::NoMemory) => {
                stop_for(&mut self.stop, Undone::Unread);
                None
            }
        }
    }

    /// The line at which it stopped, by its number from 1 and why, if it did. It frees all that it holds.
    pub fn finish(self) -> Option<(u64, Undone)>
        requires { length self.world.journal + 1 < 2 ^ 64 }
        ensures { result ≡ stopped_at self }
    {
        let Streamer {
            tokens,
            system,
            standings,
            records,
            untold,
            stop,
            ..
        } = self;
        let told = system.moment().0.saturating_sub(untold as u64);
        system.free();
        drop(tokens);
        drop(standings);
        drop(records);
        let why = stop?;
        Some((told + 1, why))
    }
}

impl LineServer for Streamer {
    ghost use Rattle.stream_core.specs.Streamer.{StreamsLine, is_stopped, StreamsLine-too_long};

    ghost answers = { StreamsLine };

    ghost over = { is_stopped };

    fn is_over(&self) -> bool {
        self.stop.is_some()
    }

    fn answer<W: Sink>(&mut self, writer: &mut W, line: &[u8]) -> Result<(), Broken> {
        if self.stop.is_some() {
            return Ok(());
        }
        match self.take(line) {
            Some(text) => write_all(writer, &text),
            None => Ok(()),
        }
    }

    ghost too_long = { StreamsLine-too_long };
}
