//! A core that enters the changes which lines say.
ghost use Rattle.std.specs.Prelude.{◌≡◌, ◌<◌, ◌+◌, ◌^◌, length, None, Some};
ghost use Rattle.load_core.specs.Loading.{unmarked};
ghost use Rattle.load_core.specs.Loader.{line_at, EntersEntry, EntersUpTo, loaded_of};

use crate::fault::{LoadFault, Undone};
use crate::loading::Loaded;
use base_core::{Broken, NoMemory, Sink};
use lexer_core::{ReadFault, Token};
use lines_core::{LONGEST_LINE, LineServer};
use monitor_core::is_change;
use script_core::read_addressed;
use std::alloc::Global;
use std::marker::Model;
use std::mem;
use system_core::{Entry, Reply, System};

/// U+FEFF in UTF-8.
const BYTE_ORDER_MARK: [u8; 3] = [0xEF, 0xBB, 0xBF];

/// A core that enters the changes which lines say, up to the first that is none. Contracts see how
/// far it has come.
#[derive(Drop)]
pub struct Loader {
    alloc: Global,
    tokens: Vec<Token>,
    system: System,
    stop: Option<Undone>,
}

impl Model for Loader {
    ghost use Rattle.load_core.specs.Loader.{LoaderState};

    ghost Value = { LoaderState };

    ghost view = { λ l. record { world = l.system; stop = l.stop } };
}

impl Loader {
    /// A loader that goes on from what the core stands for.
    pub fn new(alloc: Global, system: System) -> Loader
        ensures world { result.world ≡ system }
        ensures stop { result.stop ≡ None }
    {
        Loader {
            alloc,
            tokens: Vec::new(alloc),
            system,
            stop: None,
        }
    }

    /// The core, beside the front of a line that was cut off; or the line at which the loader stopped.
    pub fn finish(self, cut: Option<Vec<u8>>) -> Result<Loaded, LoadFault>
        requires { length self.world.journal + 1 < 2 ^ 64 }
        ensures { result ≡ loaded_of self.world self.stop cut }
    {
        let Loader { system, stop, .. } = self;
        match stop {
            None => Ok(Loaded { system, cut }),
            Some(why) => {
                let number = system.moment().0 + 1;
                system.free();
                drop(cut);
                Err(LoadFault::Line { number, why })
            }
        }
    }

    /// Frees all that the loader holds.
    pub fn free(self) {
        let Loader {
            tokens,
            system,
            stop,
            ..
        } = self;
        system.free();
        drop(tokens);
        drop(stop);
    }
}

/// The line without the byte order mark at its front. One that is too long keeps it.
pub fn unmarked(line: &[u8]) -> &[u8]
    ensures { result.now ≡ unmarked line.now }
{
    if line.len() <= LONGEST_LINE && line.starts_with(&BYTE_ORDER_MARK) {
        &line[3..]
    } else {
        line
    }
}

/// The line as it is read behind this core's journal: the first, before which nothing was entered, without
/// the byte order mark at its front.
pub fn line_at<'l>(system: &System, line: &'l [u8]) -> &'l [u8]
    ensures { result.now ≡ line_at system.now.journal line.now }
{
    if system.journal().is_empty() {
        unmarked(line)
    } else {
        line
    }
}

/// Enters an allowed change. Else it gives why not.
fn enter(system: &mut System, entry: Entry) -> Option<Undone>
    ensures { EntersEntry system.old entry result system.new }
{
    if !is_change(&entry.statement) {
        drop(entry);
        return Some(Undone::NoChange);
    }
    if !system.may_change(&entry) {
        return Some(Undone::Answer(system.deny(entry)));
    }
    let at = system.moment();
    match system.change(entry) {
        Ok(_) => None,
        Err(NoMemory) => Some(Undone::Answer(Reply::to_change(at, Err(NoMemory)))),
    }
}

/// Enters the change that the line says, which may have so many bytes, through pass 0. Else it gives
/// why not, and leaves the core as it was. The tokens are room for those of a line.
pub fn enter_line(
    alloc: Global,
    tokens: &mut Vec<Token>,
    system: &mut System,
    most: usize,
    line: &[u8],
) -> Option<Undone>
    ensures { EntersUpTo most system.old line.now result system.new }
{
    match read_addressed(alloc, tokens, most, line) {
        Ok((user, statement)) => {
            let entry = Entry {
                pass: 0,
                user,
                statement,
            };
            enter(system, entry)
        }
        Err(ReadFault::At { code, offset }) => Some(Undone::Fault { code, offset }),
        Err(ReadFault::NoMemory) => Some(Undone::Unread),
    }
}

/// Stops for this reason.
#[inline(never)]
pub(crate) fn stop_for(stop: &mut Option<Undone>, why: Undone)
    ensures { stop.new ≡ Some why }
{
    drop(mem::replace(stop, Some(why)));
}

impl LineServer for Loader {
    ghost use Rattle.load_core.specs.Loader.{GoesOn, has_stopped, GoesOn-too_long};

    ghost answers = { GoesOn };

    ghost over = { has_stopped };

    fn is_over(&self) -> bool {
        self.stop.is_some()
    }

    fn answer<W: Sink>(&mut self, _writer: &mut W, line: &[u8]) -> Result<(), Broken> {
        if self.stop.is_none() {
            let line = line_at(&self.system, line);
            let (tokens, system) = (&mut self.tokens, &mut self.system);
            self.stop = enter_line(self.alloc, tokens, system, LONGEST_LINE, line);
        }
        Ok(())
    }

    ghost too_long = { GoesOn-too_long };
}
