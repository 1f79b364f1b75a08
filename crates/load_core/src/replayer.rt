//! A core that enters the changes which lines say, and leaves the other lines out.
ghost use Rattle.std.specs.Prelude.{◌≡◌, ◌+◌, ◌<◌, ◌^◌, None, Some};
ghost use Rattle.load_core.specs.Replaying.{is_out_of_memory, is_too_long, ends_reading, says_no_change};
ghost use Rattle.load_core.specs.Replayer.{line_behind, new_replayer, undone_noted, left_out_last, NotesEntered, TakesLine, dropped_at, leavings_of};

use crate::fault::Undone;
use crate::loader::{enter_line, stop_for, unmarked};
use crate::manner::{CutLine, Form, Manner};
use crate::replayed::{CutFront, LeftOut, ReplayFault, Replayed};
use base_core::{Broken, Sink};
use lexer_core::{Code, MAX_LINE, Token};
use lines_core::LineServer;
use std::alloc::Global;
use std::marker::Model;
use std::mem;
use system_core::System;

/// A core that enters the allowed changes which lines say, notes the lines that it leaves out, and
/// stops where memory runs out. Contracts see how far it has come.
#[derive(Drop)]
pub struct Replayer {
    alloc: Global,
    tokens: Vec<Token>,
    manner: Manner,
    system: System,
    lines: Vec<u64>,
    left_out: u64,
    first_left_out: Option<LeftOut>,
    /// How many lines came.
    count: u64,
    stop: Option<Undone>,
}

impl Model for Replayer {
    ghost use Rattle.std.specs.Prelude.{◌≤◌};
    ghost use Rattle.load_core.specs.Replayer.{ReplayerState};

    ghost Value = { ReplayerState };

    ghost view = { λ r. record {
      manner = r.manner;
      world = r.system;
      numbers = r.lines.items;
      left_out = r.left_out;
      first_left_out = r.first_left_out;
      count = r.count;
      stop = r.stop;
    } };

    ghost invariant = { λ r. r.left_out ≤ r.count };
}

/// Whether a line came to nothing since memory ran out.
pub fn is_out_of_memory(why: &Undone) -> bool
    ensures { result ≡ is_out_of_memory why.now }
{
    match why {
        Undone::Unread => true,
        Undone::Answer(reply) => reply.is_refused_memory(),
        Undone::Fault { .. } | Undone::NoChange => false,
    }
}

/// Whether it is the fault of a line that is too long, and not of a text in it.
fn is_too_long(why: &Undone) -> bool
    ensures { result ≡ is_too_long why.now }
{
    match why {
        Undone::Fault {
            code: Code::TooLong,
            offset,
        } => *offset >= MAX_LINE,
        _ => false,
    }
}

/// Whether the reading of lines in this form ends at a line that came to nothing so.
fn ends_reading(form: Form, why: &Undone) -> bool
    ensures { result ≡ ends_reading form why.now }
{
    match form {
        Form::Journal => is_out_of_memory(why) || is_too_long(why),
        Form::Script => is_out_of_memory(why),
    }
}

/// Whether a line says a statement that is no change.
fn says_no_change(why: &Undone) -> bool
    ensures { result ≡ says_no_change why.now }
{
    match why {
        Undone::NoChange => true,
        Undone::Fault { .. } | Undone::Unread | Undone::Answer(_) => false,
    }
}

/// The line as it is read behind so many: the first without its byte order mark.
fn line_behind(count: u64, line: &[u8]) -> &[u8]
    ensures { result.now ≡ line_behind count line.now }
{
    if count == 0 { unmarked(line) } else { line }
}

/// Notes the first line that is left out.
#[inline(never)]
fn note_first(first: &mut Option<LeftOut>, line: LeftOut)
    ensures { first.new ≡ Some line }
{
    drop(mem::replace(first, Some(line)));
}

impl Replayer {
    /// Nothing came yet.
    pub fn new(alloc: Global, system: System, manner: Manner) -> Replayer
        ensures { result ≡ new_replayer manner system }
    {
        Replayer {
            alloc,
            tokens: Vec::new(alloc),
            manner,
            system,
            lines: Vec::new(alloc),
            left_out: 0,
            first_left_out: None,
            count: 0,
            stop: None,
        }
    }

    /// Notes what the line that came last came to, which says no change that is done.
    fn note_undone(&mut self, why: Undone)
        requires { self.old.left_out < self.old.count }
        ensures { self.new ≡ undone_noted self.old why }
    {
        if ends_reading(self.manner.form, &why) {
            stop_for(&mut self.stop, why);
        } else if !says_no_change(&why) {
            self.leave_out(why);
        } else {
            drop(why);
        }
    }

    /// Leaves the line out that came last.
    fn leave_out(&mut self, why: Undone)
        requires { self.old.left_out < self.old.count }
        ensures { self.new ≡ left_out_last self.old why }
    {
        self.left_out += 1;
        if self.first_left_out.is_none() {
            let number = self.count;
            note_first(&mut self.first_left_out, LeftOut { number, why });
        } else {
            drop(why);
        }
    }

    /// Notes the number of the line that came last, whose change was entered. Where there is no
    /// memory for it, it stops.
    fn note_entered(&mut self)
        ensures { NotesEntered self.old self.new }
    {
        if self.lines.push(self.count).is_err() {
            stop_for(&mut self.stop, Undone::Unread);
        }
    }

    /// Goes on by the next line.
    fn take(&mut self, line: &[u8])
        requires few { self.old.count + 1 < 2 ^ 64 }
        requires open { self.old.stop ≡ None }
        ensures { TakesLine self.old (line_behind self.old.count line.now) self.new }
    {
        let line = line_behind(self.count, line);
        self.count += 1;
        if self.system.moment().0 >= self.manner.most {
            return;
        }
        let most = self.manner.form.longest();
        match enter_line(self.alloc, &mut self.tokens, &mut self.system, most, line) {
            None => self.note_entered(),
            Some(why) => self.note_undone(why),
        }
    }

    /// What it leaves, where the reading ended so: with the front of a line that was cut off, or
    /// without.
    pub fn finish(self, front: Option<Vec<u8>>) -> Result<Replayed, ReplayFault>
        requires { self.count + 1 < 2 ^ 64 }
        ensures { result
            ≡ leavings_of self (dropped_at self.count self.stop self.manner.cut_line front) }
    {
        let Replayer {
            manner,
            system,
            lines,
            left_out,
            first_left_out,
            count,
            stop,
            ..
        } = self;
        match dropped_at(count, stop, manner.cut_line, front) {
            Ok(dropped) => Ok(Replayed {
                system,
                lines,
                left_out,
                first_left_out,
                dropped,
            }),
            Err(fault) => {
                system.free();
                drop(first_left_out);
                Err(fault)
            }
        }
    }

    /// Frees all that the replayer holds.
    pub fn free(self) {
        let Replayer {
            tokens,
            system,
            lines,
            first_left_out,
            stop,
            ..
        } = self;
        system.free();
        drop(tokens);
        drop(lines);
        drop(first_left_out);
        drop(stop);
    }
}

/// The cut line that is dropped behind so many lines, if one is, or the fault of the reading.
fn dropped_at(
    count: u64,
    stop: Option<Undone>,
    cut_line: CutLine,
    front: Option<Vec<u8>>,
) -> Result<Option<CutFront>, ReplayFault>
    requires { count + 1 < 2 ^ 64 }
    ensures { result ≡ dropped_at count stop cut_line front }
{
    if let Some(why) = stop {
        let number = count;
        return Err(ReplayFault::Line { number, why });
    }
    let Some(front) = front else {
        return Ok(None);
    };
    let number = count + 1;
    match cut_line {
        CutLine::Refuse => Err(ReplayFault::CutOff { number, front }),
        CutLine::Drop => Ok(Some(CutFront { number, front })),
    }
}

impl LineServer for Replayer {
    ghost use Rattle.load_core.specs.Replayer.{ReplaysLine, has_ended, ReplaysLine-too_long};

    ghost answers = { ReplaysLine };

    ghost over = { has_ended };

    fn is_over(&self) -> bool {
        self.stop.is_some()
    }

    fn answer<W: Sink>(&mut self, _writer: &mut W, line: &[u8]) -> Result<(), Broken> {
        if self.stop.is_none() && self.count < u64::MAX {
            self.take(line);
        }
        Ok(())
    }

    ghost too_long = { ReplaysLine-too_long };
}
