//! The tables of which a dump is written.
ghost use Rattle.std.specs.Prelude.{◌≡◌, ◌<◌, List, Some, false, length, map, slice_get};
ghost use Rattle.std.specs.List.{flat_map};
ghost use Rattle.base_core.specs.declared.name.Name.{Name};
ghost use Rattle.tables_core.specs.Contents.{Table};
ghost use Rattle.dump_core.specs.Dump as dumps;
ghost use Rattle.dump_core.specs.Dump.{insertions, as_table};
ghost use Rattle.dump_core.specs.Laws.{AreWellFormed};
ghost use Rattle.dump_core.specs.Ending.{IsLongAmong, IsLongIn, IsNowhere, EndsLines, is_write_fault};

use crate::fault::DumpFault;
use crate::writing::{write_creation, write_row};
use base_core::{Name, Sink};
use capture_core::{Image, TableImage};
use printer_core::Page;
use std::alloc::Global;
use tables_core::{TableView, Tables};

/// Tables of which a dump is written.
pub(crate) trait Contents {
    // The tables in the order of their creation, each with its name.
    ghost tables: { Self → List (Name × Table) };

    /// Writes the CREATE TABLE of each table, in order.
    fn write_creations<W: Sink>(
        &self,
        alloc: Global,
        page: &mut Page,
        writer: &mut W,
    ) -> Result<(), DumpFault>
        requires works { W.failed writer.old ≡ false }
        requires formed { AreWellFormed (map dumps.creation (tables self.now)) }
        ensures failed { W.failed writer.new ≡ is_write_fault result }
        ensures ends { EndsLines IsNowhere (map dumps.creation (tables self.now)) result
            (W.taken writer.old) (W.taken writer.new) };

    /// Writes the INSERT of each row, table by table.
    fn write_rows<W: Sink>(
        &self,
        alloc: Global,
        page: &mut Page,
        writer: &mut W,
    ) -> Result<(), DumpFault>
        requires works { W.failed writer.old ≡ false }
        requires formed { AreWellFormed (flat_map insertions (tables self.now)) }
        ensures failed { W.failed writer.new ≡ is_write_fault result }
        ensures ends { EndsLines (IsLongIn (tables self.now)) (flat_map insertions (tables self.now))
            result (W.taken writer.old) (W.taken writer.new) };
}

/// The table at this place in the order of creation.
fn table_at(tables: &Tables, index: usize) -> TableView<'_>
    requires { index < length tables.now.tables }
    ensures { slice_get tables.now.tables index
        ≡ Some (
          result.name,
          record {
            owner = result.owner;
            columns = result.columns.now;
            inserted = result.inserted;
            rows = result.rows.now.contents;
          },
        ) }
{
    match tables.at(index) {
        Some(table) => table,
        None => unreachable!(),
    }
}

/// Writes the INSERT of each row of a table, in order.
fn write_rows_of<W: Sink>(
    alloc: Global,
    page: &mut Page,
    writer: &mut W,
    table: &TableView<'_>,
) -> Result<(), DumpFault>
    requires works { W.failed writer.old ≡ false }
    requires formed { AreWellFormed
        (map (dumps.insertion table.now.name table.now.owner) table.now.rows.now.contents) }
    ensures failed { W.failed writer.new ≡ is_write_fault result }
    ensures ends { EndsLines
        (IsLongAmong table.now.name table.now.owner table.now.rows.now.contents)
        (map (dumps.insertion table.now.name table.now.owner) table.now.rows.now.contents)
        result (W.taken writer.old) (W.taken writer.new) }
{
    // So many rows fit in a number.
    let _ = table.rows.len();
    let mut number = 0;
    for (_, row) in table.rows.items() {
        number += 1;
        write_row(alloc, page, writer, table.name, table.owner, number, row)?;
    }
    Ok(())
}

impl Contents for Tables {
    ghost tables = { λ t. t.tables };

    fn write_creations<W: Sink>(
        &self,
        alloc: Global,
        page: &mut Page,
        writer: &mut W,
    ) -> Result<(), DumpFault> {
        for index in 0..self.len() {
            let table = table_at(self, index);
            write_creation(alloc, page, writer, table.name, table.owner, table.columns)?;
        }
        Ok(())
    }

    fn write_rows<W: Sink>(
        &self,
        alloc: Global,
        page: &mut Page,
        writer: &mut W,
    ) -> Result<(), DumpFault> {
        for index in 0..self.len() {
            let table = table_at(self, index);
            write_rows_of(alloc, page, writer, &table)?;
        }
        Ok(())
    }
}

/// Writes the INSERT of each row that was kept of a table, in order.
fn write_rows_kept<W: Sink>(
    alloc: Global,
    page: &mut Page,
    writer: &mut W,
    table: &TableImage,
) -> Result<(), DumpFault>
    requires works { W.failed writer.old ≡ false }
    requires formed { AreWellFormed (insertions (as_table table.now)) }
    ensures failed { W.failed writer.new ≡ is_write_fault result }
    ensures ends { let t = as_table table.now in
        EndsLines (IsLongAmong t.0 t.1.owner t.1.rows) (insertions t) result
        (W.taken writer.old) (W.taken writer.new) }
{
    let mut number = 0;
    for row in table.rows.as_slice() {
        number += 1;
        write_row(alloc, page, writer, table.name, table.owner, number, row)?;
    }
    Ok(())
}

impl Contents for Image {
    ghost use Rattle.std.specs.Prelude.{map};
    ghost use Rattle.dump_core.specs.Dump.{tables_kept};

    ghost tables = { tables_kept };

    fn write_creations<W: Sink>(
        &self,
        alloc: Global,
        page: &mut Page,
        writer: &mut W,
    ) -> Result<(), DumpFault> {
        for table in self.tables.as_slice() {
            let columns = table.columns.as_slice();
            write_creation(alloc, page, writer, table.name, table.owner, columns)?;
        }
        Ok(())
    }

    fn write_rows<W: Sink>(
        &self,
        alloc: Global,
        page: &mut Page,
        writer: &mut W,
    ) -> Result<(), DumpFault> {
        for table in self.tables.as_slice() {
            write_rows_kept(alloc, page, writer, table)?;
        }
        Ok(())
    }
}
