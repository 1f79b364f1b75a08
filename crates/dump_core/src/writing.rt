//! The text of a dump, written statement by statement.
ghost use Rattle.std.specs.Prelude.{◌≡◌, ◌∷◌, [], true, false, map, IfOk, OnOk};
ghost use Rattle.std.specs.List.{flat_map};
ghost use Rattle.reader_core.specs.declared.statement.Statement.TheVariants as statements;
ghost use Rattle.reader_core.specs.Forming.{AreNamed, IsShort};
ghost use Rattle.printer_core.specs.Printing.{has_literals};
ghost use Rattle.dump_core.specs.Dump as dumps;
ghost use Rattle.dump_core.specs.Dump.{insertions, grants_together, dump_of, dump_of_image, tables_kept};
ghost use Rattle.dump_core.specs.Laws.{AreWellFormed};
ghost use Rattle.dump_core.specs.Ending.{IsLongItself, IsLongRow, IsNowhere, EndsLines, EndsDump, is_write_fault};
ghost use Rattle.system_core.specs.World.{entry};

use crate::contents::Contents;
use crate::fault::DumpFault;
use crate::statements::{FirstGrants, creation, first_grants, insertion};
use crate::well_formed::entries_are_well_formed;
use base_core::{Column, Name, Row, Sink, User, write_all};
use capture_core::Image;
use grants_core::Grant;
use printer_core::Page;
use reader_core::Statement;
use std::alloc::Global;
use system_core::System;

/// Writes a statement without literals, which always has a line.
fn write_statement<W: Sink>(
    page: &mut Page,
    writer: &mut W,
    user: User,
    statement: &Statement,
) -> Result<(), DumpFault>
    requires works { W.failed writer.old ≡ false }
    requires plain { has_literals statement.now ≡ false }
    ensures failed { W.failed writer.new ≡ is_write_fault result }
    ensures ends { EndsLines IsNowhere (entry 0 user statement.now ∷ []) result
        (W.taken writer.old) (W.taken writer.new) }
{
    match page.line_if_short(user, statement) {
        Some(line) => Ok(write_all(writer, line)?),
        None => unreachable!(),
    }
}

/// Writes the CREATE TABLE of a table.
pub(crate) fn write_creation<W: Sink>(
    alloc: Global,
    page: &mut Page,
    writer: &mut W,
    name: Name,
    owner: User,
    columns: &[Column],
) -> Result<(), DumpFault>
    requires works { W.failed writer.old ≡ false }
    requires columns { AreNamed 32 (λ c. c.name) columns.now }
    ensures failed { W.failed writer.new ≡ is_write_fault result }
    ensures ends { EndsLines IsNowhere
        (entry 0 owner (statements.CreateTable name columns.now) ∷ [])
        result (W.taken writer.old) (W.taken writer.new) }
{
    let statement = creation(alloc, name, columns)?;
    let written = write_statement(page, writer, owner, &statement);
    drop(statement);
    written
}

/// Writes the INSERT of the row of this number in a table.
fn write_insertion<W: Sink>(
    page: &mut Page,
    writer: &mut W,
    owner: User,
    statement: &Statement,
    table: Name,
    row: u64,
) -> Result<(), DumpFault>
    requires { W.failed writer.old ≡ false }
    ensures failed { W.failed writer.new ≡ is_write_fault result }
    ensures ends { let e = entry 0 owner statement.now in
        EndsLines (IsLongItself table row e) (e ∷ []) result
        (W.taken writer.old) (W.taken writer.new) }
{
    let Some(line) = page.line_if_short(owner, statement) else {
        return Err(DumpFault::LongRow { table, row });
    };
    Ok(write_all(writer, line)?)
}

/// Writes the INSERT of a row of the table, which is the one of this number.
pub(crate) fn write_row<W: Sink>(
    alloc: Global,
    page: &mut Page,
    writer: &mut W,
    name: Name,
    owner: User,
    number: u64,
    row: &Row,
) -> Result<(), DumpFault>
    requires works { W.failed writer.old ≡ false }
    requires values { IsShort 32 row.now.values }
    ensures failed { W.failed writer.new ≡ is_write_fault result }
    ensures ends { let e = entry 0 owner (statements.Insert name row.now.values) in
        EndsLines (IsLongItself name number e) (e ∷ []) result
        (W.taken writer.old) (W.taken writer.new) }
{
    let statement = insertion(alloc, name, row.values.as_slice())?;
    let written = write_insertion(page, writer, owner, &statement, name, number);
    drop(statement);
    written
}

/// Writes the statement that makes the first of some grants, and says how many it makes.
fn write_made<W: Sink>(
    page: &mut Page,
    writer: &mut W,
    made: FirstGrants,
) -> Result<usize, DumpFault>
    requires works { W.failed writer.old ≡ false }
    requires plain { has_literals made.statement ≡ false }
    ensures failed { W.failed writer.new ≡ is_write_fault result }
    ensures count { IfOk result (λ count. count ≡ made.count) }
    ensures ends { EndsLines IsNowhere (entry 0 made.grantor made.statement ∷ []) result
        (W.taken writer.old) (W.taken writer.new) }
{
    let written = write_statement(page, writer, made.grantor, &made.statement);
    let count = made.count;
    drop(made);
    written?;
    Ok(count)
}

/// Writes the GRANTs of grants in force, neighbours of one statement together.
fn write_grants<W: Sink>(
    alloc: Global,
    page: &mut Page,
    writer: &mut W,
    grants: &[Grant],
) -> Result<(), DumpFault>
    requires { W.failed writer.old ≡ false }
    ensures failed { W.failed writer.new ≡ is_write_fault result }
    ensures ends { EndsLines IsNowhere (map dumps.granting (grants_together grants.now)) result
        (W.taken writer.old) (W.taken writer.new) }
{
    let mut rest = grants;
    while !rest.is_empty() {
        let made = first_grants(alloc, rest)?;
        let count = write_made(page, writer, made)?;
        (_, rest) = rest.split_at(count);
    }
    Ok(())
}

/// Writes the dump of tables and of grants in force, and has the writer hand it on.
fn write_contents<C: Contents, W: Sink>(
    alloc: Global,
    contents: &C,
    grants: &[Grant],
    writer: &mut W,
) -> Result<(), DumpFault>
    requires works { W.failed writer.old ≡ false }
    requires creations { AreWellFormed (map dumps.creation (C.tables contents.now)) }
    requires rows { AreWellFormed (flat_map insertions (C.tables contents.now)) }
    ensures failed { W.failed writer.new ≡ is_write_fault result }
    ensures flushed { OnOk result (W.flushed writer.new ≡ true) }
    ensures ends { EndsLines (IsLongRow (C.tables contents.now))
        (dump_of (C.tables contents.now) grants.now) result
        (W.taken writer.old) (W.taken writer.new) }
{
    let mut page = Page::new(alloc)?;
    contents.write_creations(alloc, &mut page, writer)?;
    contents.write_rows(alloc, &mut page, writer)?;
    write_grants(alloc, &mut page, writer, grants)?;
    Ok(writer.flush()?)
}

/// Writes the dump of what a core has, a line for each statement, and has the writer hand it on.
///
/// - `Write` exactly if the writer has failed. A front of the text was written.
/// - `NoMemory` if a request for memory was refused: for a page, for the grants in force, or for a
///   statement. A front of the text was written.
/// - `LongRow` if no line inserts a row. All lines before it were written. After `Ok` there is no
///   such row.
pub fn write_dump<W: Sink>(alloc: Global, system: &System, writer: &mut W) -> Result<(), DumpFault>
    requires { W.failed writer.old ≡ false }
    ensures failed { W.failed writer.new ≡ is_write_fault result }
    ensures flushed { OnOk result (W.flushed writer.new ≡ true) }
    ensures ends { EndsDump system.now.journal result
        (W.taken writer.old) (W.taken writer.new) }
{
    entries_are_well_formed(system.journal());
    let grants = system.in_force()?;
    write_contents(alloc, system.tables(), &grants, writer)
}

/// Writes the dump of what an image keeps, which is that of the journal at its point, a line for each
/// statement, and has the writer hand it on. The faults are those of [`write_dump`].
pub fn write_image<W: Sink>(alloc: Global, image: &Image, writer: &mut W) -> Result<(), DumpFault>
    requires works { W.failed writer.old ≡ false }
    requires formed { AreWellFormed (dump_of_image image.now) }
    ensures failed { W.failed writer.new ≡ is_write_fault result }
    ensures flushed { OnOk result (W.flushed writer.new ≡ true) }
    ensures ends { EndsLines (IsLongRow (tables_kept image.now)) (dump_of_image image.now) result
        (W.taken writer.old) (W.taken writer.new) }
{
    write_contents(alloc, image, image.grants.as_slice(), writer)
}
