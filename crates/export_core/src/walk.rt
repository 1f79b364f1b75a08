//! The records of an export whose tables are judged, one after another.
ghost use Rattle.std.specs.Prelude.{◌≡◌, ◌↔◌, [], true, false, ℕ, if◌then◌else◌, slice_get, option_map, option_copied, Some, IfSome, IfOk, IfErr, IsOk, IsErrOf, OnOk, OnErr};
ghost use Rattle.std.specs.List.{concat};
ghost use Rattle.std.specs.Io.KnownBytes.{Appends};
ghost use Rattle.csv.specs.Writing.{writer_pending};
ghost use Rattle.export_core.specs.Export.{cut};
ghost use Rattle.export_core.specs.Record.{IsBetween, row_line};
ghost use Rattle.export_core.specs.Ticket.{after_giving, finished, WritesRecords, WritesSome, Stops};

use crate::fault::ExportFault;
use crate::judgement::Judgement;
use crate::lines::{end_line, next_index, row_at, told_line};
use crate::marks::Marks;
use crate::passage::Passage;
use crate::record::writer_after;
use crate::rows::append_row;
use base_core::{Broken, Gate, Moment, NoMemory, Row, Sink, write_all};
use capture_core::Image;
use csv::Writer;
use std::marker::Model;
use std::sync::Arc;

// How many rows one writer of records writes: so many that its buffer costs little, and so few that
// what it holds stays small.
const ROWS_OF_A_WRITER: usize = 128;

/// A walk over the tables of an export, each of which is judged. Contracts see the export.
#[derive(Drop)]
pub(crate) struct Walk {
    pub(crate) image: Arc<Image>,
    pub(crate) at: Moment,
    /// Where the export's tables begin among those of the image.
    pub(crate) first: usize,
    /// One for each of the export's tables.
    pub(crate) judgements: Vec<Judgement>,
    /// How many of the tables were told whole.
    pub(crate) told: usize,
    /// How many lines of the next one were given.
    pub(crate) lines: usize,
    /// Whether the last line was given.
    pub(crate) ended: bool,
}

impl Model for Walk {
    ghost use Rattle.export_core.specs.Ticket.{TicketState};
    ghost use Rattle.export_core.specs.Walk.{exporting, IsUnderWay};

    ghost Value = { TicketState };

    ghost view = { exporting };

    ghost invariant = { IsUnderWay };
}

fn judgement_at(judgements: &[Judgement], index: usize) -> Option<&Judgement>
    ensures { option_copied result ≡ slice_get judgements.now index }
{
    judgements.get(index)
}

impl Walk {
    pub(crate) fn number(&self) -> u64
        ensures { result ≡ self.now.number }
    {
        self.image.number
    }

    pub(crate) fn point(&self) -> Moment
        ensures { result ≡ self.now.point }
    {
        self.image.point
    }

    pub(crate) fn at(&self) -> Moment
        ensures { result ≡ self.now.at }
    {
        self.at
    }

    // The next record.
    fn line(&self) -> Result<Option<Vec<u8>>, NoMemory>
        ensures line { IfOk result
            (λ line. option_map (λ bytes. bytes.items) line ≡ slice_get self.now.to_come 0) }
        ensures end { self.now.to_come ≡ [] → IsOk result }
    {
        if self.ended {
            return Ok(None);
        }
        let alloc = *self.judgements.allocator();
        let Some(judgement) = judgement_at(&self.judgements, self.told) else {
            return Ok(Some(end_line(alloc, self.image.number)?));
        };
        let table = &self.image.tables.as_slice()[self.first + self.told];
        Ok(Some(told_line(alloc, table, judgement, self.lines)?))
    }

    // The next record counts as given.
    fn pass(&mut self)
        ensures { self.new ≡ after_giving 1 self.old }
    {
        let Some(judgement) = judgement_at(&self.judgements, self.told) else {
            self.ended = true;
            return;
        };
        let table = &self.image.tables.as_slice()[self.first + self.told];
        match next_index(table, judgement, self.lines) {
            Some(lines) => self.lines = lines,
            None => {
                self.told += 1;
                self.lines = 0;
            }
        }
    }

    /// The next record, with its line feed, which then counts as given. None exactly at the end. On
    /// `NoMemory`, where a request for memory was refused, the same record comes next.
    pub(crate) fn next_record(&mut self) -> Result<Option<Vec<u8>>, NoMemory>
        ensures line { IfOk result
            (λ line. option_map (λ bytes. bytes.items) line ≡ slice_get self.old.to_come 0) }
        ensures ok { OnOk result (self.new ≡ after_giving 1 self.old) }
        ensures err { OnErr result (self.new ≡ self.old) }
        ensures end { self.old.to_come ≡ [] → IsOk result }
    {
        let line = self.line()?;
        self.pass();
        Ok(line)
    }

    // The row whose record is the next, if that is a row's, and the marks of its table's columns.
    fn next_row(&self) -> Option<(&Marks, &Row)>
        ensures { IfSome result (λ next. slice_get self.now.to_come 0
            ≡ Some (row_line (cut next.0.now next.1.now.values))) }
    {
        let Some(Judgement::Listed(marks)) = judgement_at(&self.judgements, self.told) else {
            return None;
        };
        let table = &self.image.tables.as_slice()[self.first + self.told];
        match row_at(table, self.lines) {
            Some(row) => Some((marks, row)),
            None => None,
        }
    }

    // Gives the next record and writes it. At the end nothing changes.
    fn write_next<W: Sink, G: Gate>(
        &mut self,
        writer: &mut W,
        passage: &mut Passage<G>,
    ) -> Result<(), ExportFault>
        requires { W.failed writer.old ≡ false }
        ensures write { IsErrOf result ExportFault.Write ↔ (W.failed writer.new ≡ true) }
        ensures ok { OnOk result
            (WritesRecords 1 self.old self.new (W.taken writer.old) (W.taken writer.new)) }
        ensures err { IfErr result
            (λ fault. Stops fault self.old self.new (W.taken writer.old) (W.taken writer.new)) }
    {
        let Ok(next) = self.next_record() else {
            return Err(ExportFault::NoMemory);
        };
        let Some(line) = next else {
            return Ok(());
        };
        passage.before_record();
        match write_all(writer, line.as_slice()) {
            Ok(()) => Ok(()),
            Err(Broken) => Err(ExportFault::Write),
        }
    }

    // Gives the next record and writes it by this writer of records, if it is a row's. Else nothing
    // changes.
    fn write_row<W: Sink, G: Gate>(
        &mut self,
        records: &mut Writer<Vec<u8>>,
        writer: &mut W,
        passage: &mut Passage<G>,
    ) -> Result<bool, ExportFault>
        requires failed { W.failed writer.old ≡ false }
        requires between { IsBetween records.old }
        requires pending { writer_pending records.old ≡ [] }
        ensures write { IsErrOf result ExportFault.Write ↔ (W.failed writer.new ≡ true) }
        ensures ok { IfOk result
            (λ row. WritesRecords (if row then 1 else 0) self.old self.new (W.taken writer.old)
            (W.taken writer.new)) }
        ensures between { OnOk result (IsBetween records.new) }
        ensures pending { OnOk result (writer_pending records.new ≡ []) }
        ensures err { IfErr result
            (λ fault. Stops fault self.old self.new (W.taken writer.old) (W.taken writer.new)) }
    {
        let Some((marks, row)) = self.next_row() else {
            return Ok(false);
        };
        let start = records.get_ref().len();
        let Ok(()) = append_row(records, marks, row) else {
            return Err(ExportFault::NoMemory);
        };
        self.pass();
        passage.before_record();
        match write_all(writer, &records.get_ref()[start..]) {
            Ok(()) => Ok(true),
            Err(Broken) => Err(ExportFault::Write),
        }
    }

    // Gives the rows that come next and writes them, so many as one writer of records takes.
    fn write_rows<W: Sink, G: Gate>(
        &mut self,
        writer: &mut W,
        passage: &mut Passage<G>,
    ) -> Result<(), ExportFault>
        requires { W.failed writer.old ≡ false }
        ensures write { IsErrOf result ExportFault.Write ↔ (W.failed writer.new ≡ true) }
        ensures ok { OnOk result ((n : ℕ)
            × WritesRecords n self.old self.new (W.taken writer.old) (W.taken writer.new)) }
        ensures err { IfErr result
            (λ fault. Stops fault self.old self.new (W.taken writer.old) (W.taken writer.new)) }
    {
        let mut records = writer_after(Vec::new(*self.judgements.allocator()));
        for _ in 0..ROWS_OF_A_WRITER {
            if !self.write_row(&mut records, writer, passage)? {
                return Ok(());
            }
        }
        Ok(())
    }

    // Whether all records were given.
    fn is_over(&self) -> bool
        ensures { (result ≡ true) ↔ (self.now.to_come ≡ []) }
    {
        self.ended
    }

    /// Gives the next record and the rows that come behind it, so many as one writer of records
    /// takes, and writes them. Whether records are still to come. Each record goes through the
    /// passage, and the errors are those of [`Walk::write_to`].
    pub(crate) fn write_some<W: Sink, G: Gate>(
        &mut self,
        writer: &mut W,
        passage: &mut Passage<G>,
    ) -> Result<bool, ExportFault>
        requires { W.failed writer.old ≡ false }
        ensures write { IsErrOf result ExportFault.Write ↔ (W.failed writer.new ≡ true) }
        ensures more { IfOk result (λ more. (more ≡ false) ↔ (self.new.to_come ≡ [])) }
        ensures ok { OnOk result
            (WritesSome self.old self.new (W.taken writer.old) (W.taken writer.new)) }
        ensures err { IfErr result
            (λ fault. Stops fault self.old self.new (W.taken writer.old) (W.taken writer.new)) }
    {
        self.write_next(writer, passage)?;
        self.write_rows(writer, passage)?;
        Ok(!self.is_over())
    }

    /// Gives all records to come and writes them. Each, the last line too, goes through the passage.
    ///
    /// - `NoMemory` where a request for memory was refused: the records before it were given and
    ///   written, and the one that it was for comes next.
    /// - `Write` exactly where the writer failed: the records before it were given and written, and a
    ///   front of the one that it stopped at, which counts as given.
    pub(crate) fn write_to<W: Sink, G: Gate>(
        &mut self,
        writer: &mut W,
        passage: &mut Passage<G>,
    ) -> Result<(), ExportFault>
        requires { W.failed writer.old ≡ false }
        ensures write { IsErrOf result ExportFault.Write ↔ (W.failed writer.new ≡ true) }
        ensures ok { OnOk result (self.new ≡ finished self.old) }
        ensures written { OnOk result
            (Appends (W.taken writer.old) (W.taken writer.new) (concat self.old.to_come)) }
        ensures err { IfErr result
            (λ fault. Stops fault self.old self.new (W.taken writer.old) (W.taken writer.new)) }
    {
        while self.write_some(writer, passage)? {}
        Ok(())
    }
}
