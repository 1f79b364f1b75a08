//! What came, fell and changed since a moment, as records.
ghost use Rattle.std.specs.Prelude.{◌≡◌, ◌++◌, ◌∷◌, [], map, IfOk, OnOk};
ghost use Rattle.std.specs.List.{flat_map};
ghost use Rattle.std.specs.Option.{option_map_or};
ghost use Rattle.export_core.specs.Record.{IsBetween, record_line, text_in};
ghost use Rattle.explain_core.specs.Ends.{is_before};
ghost use Rattle.explain_core.specs.Lives.{lives_of};
ghost use Rattle.explain_records.specs.Cells.{cell_text, word_text};
ghost use Rattle.explain_records.specs.Telling.{lines, numbered_records};
ghost use Rattle.explain_records.specs.Records.{any_moment_text, line_number};
ghost use Rattle.explain_records.specs.Differences.{diff_answer, difference_of, difference_record};
ghost use Rattle.explain_records.specs.Differences.{difference_records, difference_text, had_option};
ghost use Rattle.explain_records.specs.Differences.{how_then, moment_then, option_then};
ghost use Rattle.explain_records.specs.Differences.{owner_difference, owner_differences_by, was_there};

use crate::cell::{Cell, Word, any, any_moment, word_text};
use crate::past::Numbered;
use crate::writing::{below, finished};
use base_core::{Moment, Name, NoMemory, User};
use csv::Writer;
use explain_core::Life;
use export_core::record::put_line;
use grants_core::Change;
use std::alloc::Global;

const HEAD: &[u8] = b"change,table,user,privilege,option,since,by,at,how,line\n";

/// What became of a grant since a moment.
#[derive(Clone, Copy, PartialEq, Eq)]
pub enum Difference {
    /// It is in force, and was not.
    Came,
    /// It was in force, and fell.
    Fell,
    /// It was in force with its option, and is without.
    LostOption,
}

/// Whether a moment is before the end. None is never.
fn is_before(at: Moment, end: Option<Moment>) -> bool
    ensures { result ≡ is_before at.0 end }
{
    match end {
        Some(end) => at.0 < end.0,
        None => true,
    }
}

fn was_there(life: &Life, at: Moment) -> bool
    ensures { result ≡ was_there at.0 life.now }
{
    life.grant.moment.0 <= at.0 && is_before(at, life.fell)
}

fn had_option(life: &Life, at: Moment) -> bool
    ensures { result ≡ had_option at.0 life.now }
{
    life.grant.moment.0 <= at.0 && is_before(at, life.option_end)
}

/// What became of the life's grant since the moment, if anything did.
pub fn difference_of(life: &Life, at: Moment) -> Option<Difference>
    ensures { result ≡ difference_of at.0 life.now }
{
    if was_there(life, at) {
        if life.fell.is_some() {
            Some(Difference::Fell)
        } else if had_option(life, at) && life.option_end.is_some() {
            Some(Difference::LostOption)
        } else {
            None
        }
    } else if life.fell.is_none() {
        Some(Difference::Came)
    } else {
        None
    }
}

fn difference_word(difference: Difference) -> Word
    ensures { word_text result ≡ difference_text difference }
{
    match difference {
        Difference::Came => Word::Came,
        Difference::Fell => Word::Fell,
        Difference::LostOption => Word::LostOption,
    }
}

fn option_then(life: &Life, at: Moment, difference: Difference) -> bool
    ensures { result ≡ option_then at.0 life.now difference }
{
    match difference {
        Difference::Came => life.option_end.is_none(),
        Difference::Fell => had_option(life, at),
        Difference::LostOption => false,
    }
}

fn moment_then(life: &Life, difference: Difference) -> Option<Moment>
    ensures { result ≡ moment_then life.now difference }
{
    match difference {
        Difference::Came => Some(life.grant.moment),
        Difference::Fell => life.fell,
        Difference::LostOption => life.option_end,
    }
}

impl<'a> Numbered<'a> {
    /// The line that made the change of a moment, if there is one.
    fn line_then(&self, at: Option<Moment>) -> Cell
        ensures { cell_text result ≡ option_map_or (line_number self.now.numbers.now) at [] }
    {
        match at {
            Some(at) => any(self.line_of(at)),
            None => Cell::Nothing,
        }
    }

    fn how_then(&self, life: &Life, difference: Difference) -> Cell
        ensures { cell_text result ≡ how_then self.now.history.now life.now difference }
    {
        match difference {
            Difference::Came => Cell::Word(Word::Granted),
            Difference::Fell => self.how(life),
            Difference::LostOption => Cell::Word(Word::OptionRevoked),
        }
    }

    /// The fields of what became of a grant, behind the first.
    fn difference_cells(&self, life: &Life, at: Moment, difference: Difference) -> [Cell; 9]
        ensures { difference_text difference ∷ map cell_text result ≡ difference_record
            self.now.history.now self.now.numbers.now at.0 life.now difference }
    {
        let when = moment_then(life, difference);
        [
            Cell::Name(life.grant.atom.table),
            Cell::Name(life.grant.grantee.0),
            Cell::Kind(life.grant.atom.kind),
            Cell::Flag(option_then(life, at, difference)),
            Cell::Number(life.grant.moment.0),
            Cell::Name(life.grant.grantor.0),
            any_moment(when),
            self.how_then(life, difference),
            self.line_then(when),
        ]
    }

    /// Writes what became of a grant.
    fn put_difference(
        &self,
        writer: &mut Writer<Vec<u8>>,
        life: &Life,
        at: Moment,
        difference: Difference,
    ) -> Result<(), NoMemory>
        requires { IsBetween writer.old }
        ensures text { OnOk result (text_in writer.new ≡ text_in writer.old ++ record_line
            (difference_record self.now.history.now self.now.numbers.now at.0 life.now
            difference)) }
        ensures between { OnOk result (IsBetween writer.new) }
    {
        let cells = self.difference_cells(life, at, difference);
        put_line(writer, word_text(difference_word(difference)), &cells)
    }

    /// Writes what became of a grant, if anything did.
    fn put_any_difference(
        &self,
        writer: &mut Writer<Vec<u8>>,
        life: &Life,
        at: Moment,
    ) -> Result<(), NoMemory>
        requires { IsBetween writer.old }
        ensures text { OnOk result (text_in writer.new ≡ text_in writer.old ++ lines
            (difference_records self.now.history.now self.now.numbers.now at.0 life.now)) }
        ensures between { OnOk result (IsBetween writer.new) }
    {
        match difference_of(life, at) {
            Some(difference) => self.put_difference(writer, life, at, difference),
            None => Ok(()),
        }
    }

    fn put_grant_differences(
        &self,
        writer: &mut Writer<Vec<u8>>,
        at: Moment,
    ) -> Result<(), NoMemory>
        requires { IsBetween writer.old }
        ensures { OnOk result (text_in writer.new ≡ text_in writer.old ++ lines (flat_map
            (difference_records self.now.history.now self.now.numbers.now at.0)
            (lives_of self.now.history.now))) }
    {
        for life in self.history.lives() {
            self.put_any_difference(writer, life, at)?;
        }
        Ok(())
    }

    /// Writes the right of an owner that came.
    fn put_new_owner(
        &self,
        writer: &mut Writer<Vec<u8>>,
        table: &Name,
        owner: &User,
        since: u64,
    ) -> Result<(), NoMemory>
        requires { IsBetween writer.old }
        ensures text { OnOk result (text_in writer.new ≡ text_in writer.old ++ record_line
            (owner_difference self.now.numbers.now table.now owner.now since)) }
        ensures between { OnOk result (IsBetween writer.new) }
    {
        let cells = [
            Cell::Name(*table),
            Cell::Name(owner.0),
            Cell::Word(Word::Owner),
            Cell::Flag(true),
            Cell::Number(since),
            Cell::Nothing,
            Cell::Number(since),
            Cell::Word(Word::Created),
            any(self.line_of(Moment(since))),
        ];
        put_line(writer, word_text(Word::Came), &cells)
    }

    /// Writes the right of the owner whose table a change creates, if that is behind the moment.
    fn put_owner_difference(
        &self,
        writer: &mut Writer<Vec<u8>>,
        at: Moment,
        now: u64,
        change: &Change,
    ) -> Result<(), NoMemory>
        requires { IsBetween writer.old }
        ensures text { OnOk result (text_in writer.new ≡ text_in writer.old ++ lines
            (owner_differences_by self.now.numbers.now at.0 now change.now)) }
        ensures between { OnOk result (IsBetween writer.new) }
    {
        match change {
            Change::Create { table, owner } if at.0 < now => {
                self.put_new_owner(writer, table, owner, now)
            }
            Change::Create { .. }
            | Change::Grant { .. }
            | Change::Revoke { .. }
            | Change::RevokeOption { .. }
            | Change::Other => Ok(()),
        }
    }

    fn put_owner_differences(
        &self,
        writer: &mut Writer<Vec<u8>>,
        at: Moment,
    ) -> Result<(), NoMemory>
        requires { IsBetween writer.old }
        ensures text { OnOk result (text_in writer.new ≡ text_in writer.old ++ lines
            (numbered_records (owner_differences_by self.now.numbers.now at.0) 1
            self.now.history.now)) }
        ensures between { OnOk result (IsBetween writer.new) }
    {
        let mut now = 0;
        for change in self.history.changes() {
            now += 1;
            self.put_owner_difference(writer, at, now, change)?;
        }
        Ok(())
    }

    fn put_differences(&self, writer: &mut Writer<Vec<u8>>, at: Moment) -> Result<(), NoMemory>
        requires { IsBetween writer.old }
        ensures { OnOk result (text_in writer.new ≡ text_in writer.old ++ lines
            (numbered_records (owner_differences_by self.now.numbers.now at.0) 1
            self.now.history.now
            ++ flat_map (difference_records self.now.history.now self.now.numbers.now at.0)
            (lives_of self.now.history.now))) }
    {
        self.put_owner_differences(writer, at)?;
        self.put_grant_differences(writer, at)
    }
}

/// What came, fell and lost its option since the moment: of each such right a record. `NoMemory` where a request for
/// memory was refused.
pub fn differences_records(
    alloc: Global,
    past: &Numbered<'_>,
    at: Moment,
) -> Result<Vec<u8>, NoMemory>
    ensures { IfOk result
        (λ text. text.items ≡ diff_answer past.now.history.now past.now.numbers.now at.0) }
{
    let mut writer = below(alloc, HEAD)?;
    let written = past.put_differences(&mut writer, at);
    finished(writer, written)
}
