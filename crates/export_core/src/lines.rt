//! The lines of an export.
ghost use Rattle.std.specs.Prelude.{◌≡◌, ◌+◌, ◌<◌, ◌≤◌, Bool, List, length, slice_get, Some, IfOk, MatchOption};
ghost use Rattle.export_core.specs.Export as lines;
ghost use Rattle.export_core.specs.Export.{cut};
ghost use Rattle.export_core.specs.Record.{IsPlain, row_line};
ghost use Rattle.export_core.specs.Walk.{told};

use crate::cut_record::{put_marked, write_record};
use crate::judgement::Judgement;
use crate::marks::Marks;
use crate::record::{Field, begin, end, finish, put_field, writer_after};
use base_core::{Name, NoMemory, Row};
use capture_core::TableImage;
use itoa::Buffer;
use std::alloc::Global;

fn table_line(alloc: Global, marks: &Marks, table: &TableImage) -> Result<Vec<u8>, NoMemory>
    ensures { IfOk result (λ line. line.items ≡ lines.table_line marks.now table.now) }
{
    let mut writer = writer_after(Vec::new(alloc));
    begin(&mut writer, b"table")?;
    table.name.put(&mut writer)?;
    put_marked(&mut writer, marks, table.columns.as_slice())?;
    end(&mut writer)?;
    finish(writer)
}

fn withheld_line(alloc: Global, table: &Name, missing: &[u8]) -> Result<Vec<u8>, NoMemory>
    requires { IsPlain missing.now }
    ensures { IfOk result (λ line. line.items ≡ lines.withheld_line table.now missing.now) }
{
    let mut writer = writer_after(Vec::new(alloc));
    begin(&mut writer, b"withheld")?;
    table.put(&mut writer)?;
    put_field(&mut writer, missing)?;
    end(&mut writer)?;
    finish(writer)
}

/// The last line, with the number of the checkpoint.
pub fn end_line(alloc: Global, number: u64) -> Result<Vec<u8>, NoMemory>
    ensures { IfOk result (λ line. line.items ≡ lines.end_line number) }
{
    let mut digits = Buffer::new();
    let mut line = Vec::new(alloc);
    line.extend_from_slice(b"end ")?;
    line.extend_from_slice(digits.format(number).as_bytes())?;
    line.push(b'\n')?;
    Ok(line)
}

/// The row whose line is the one at `index` of a table that is listed. None where that is the line
/// of the table itself.
pub fn row_at(table: &TableImage, index: usize) -> Option<&Row>
    requires { index ≤ length table.now.rows }
    ensures { (marks : List Bool) → MatchOption result (index ≡ 0)
        (λ row. slice_get (lines.listed_lines marks table.now) index
        ≡ Some (row_line (cut marks row.now.values))) }
{
    if index == 0 {
        return None;
    }
    Some(&table.rows.as_slice()[index - 1])
}

fn listed_line(
    alloc: Global,
    marks: &Marks,
    table: &TableImage,
    index: usize,
) -> Result<Vec<u8>, NoMemory>
    requires { index < length (lines.listed_lines marks.now table.now) }
    ensures { IfOk result
        (λ line. slice_get (lines.listed_lines marks.now table.now) index ≡ Some line.items) }
{
    match row_at(table, index) {
        None => table_line(alloc, marks, table),
        Some(row) => write_record(Vec::new(alloc), b"row", marks, row.values.as_slice()),
    }
}

/// The line at `index` of those that are told of the table.
pub fn told_line(
    alloc: Global,
    table: &TableImage,
    judgement: &Judgement,
    index: usize,
) -> Result<Vec<u8>, NoMemory>
    requires { index < length (told judgement.now table.now) }
    ensures { IfOk result
        (λ line. slice_get (told judgement.now table.now) index ≡ Some line.items) }
{
    match judgement {
        Judgement::Listed(marks) => listed_line(alloc, marks, table, index),
        Judgement::WithheldThen => withheld_line(alloc, &table.name, b"point"),
        Judgement::WithheldNow => withheld_line(alloc, &table.name, b"now"),
    }
}

/// The index of the line after the one at `index`. None where that is the last that is told of the
/// table.
pub fn next_index(table: &TableImage, judgement: &Judgement, index: usize) -> Option<usize>
    requires { index < length (told judgement.now table.now) }
    ensures { MatchOption result (index + 1 ≡ length (told judgement.now table.now))
        (λ next. (next ≡ index + 1) × (next < length (told judgement.now table.now))) }
{
    match judgement {
        Judgement::Listed(_) if index < table.rows.len() => Some(index + 1),
        Judgement::Listed(_) | Judgement::WithheldThen | Judgement::WithheldNow => None,
    }
}
