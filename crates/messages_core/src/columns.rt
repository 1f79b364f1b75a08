//! The columns of a table, described one after another.
ghost use Rattle.std.specs.Prelude.{◌≡◌, ◌*◌, ◌≤◌, ◌<◌, ◌^◌, false, length, flat_map};
ghost use Rattle.base_core.specs.Streams.{MayWriteText};
ghost use Rattle.messages_core.specs.Columns.{column_in, format_at, table_columns};
ghost use Rattle.messages_core.specs.Rows.{described, row_description};

use crate::bytes::Bytes;
use crate::rows::{ColumnDescription, Format};
use crate::writing::{Field, counted_header};
use base_core::{Broken, Column, Sink, write_all};

/// The most bytes of a description: of a name, and of what stands behind it.
const MOST_COLUMN_BYTES: usize = 49;

/// The format of the column in this place, counted from 0: text, if there are not so many.
pub fn format_at(formats: &[Format], place: usize) -> Format
    ensures { result ≡ format_at formats.now place }
{
    if place < formats.len() {
        return formats[place];
    }
    Format::Text
}

/// A column of a table, in this format.
fn column_in(column: &Column, format: Format) -> ColumnDescription<'_>
    ensures column { result ≡ column_in column.now format }
    ensures short { length (described result) ≤ MOST_COLUMN_BYTES }
{
    ColumnDescription {
        name: Bytes::new(column.name.as_bytes()),
        ty: column.ty,
        format,
    }
}

/// How many bytes the descriptions have.
fn columns_size(columns: &[Column], formats: &[Format]) -> usize
    requires { length columns.now < 2 ^ 16 }
    ensures size { result ≡ length (flat_map described (table_columns columns.now formats.now)) }
    ensures short { result ≤ MOST_COLUMN_BYTES * length columns.now }
{
    let mut size = 0usize;
    for i in 0..columns.len() {
        size += column_in(&columns[i], format_at(formats, i)).size();
    }
    size
}

/// Writes the descriptions.
fn write_descriptions<W: Sink>(
    columns: &[Column],
    formats: &[Format],
    writer: &mut W,
) -> Result<(), Broken>
    requires { W.failed writer.old ≡ false }
    ensures { MayWriteText W.failed W.taken
        (flat_map described (table_columns columns.now formats.now)) result writer.old writer.new }
{
    for i in 0..columns.len() {
        column_in(&columns[i], format_at(formats, i)).write(writer)?;
    }
    Ok(())
}

/// Writes RowDescription of the columns of a table, each in the format of its place, and in text where
/// there are not so many formats. It takes no memory. `Broken` exactly where the writer has failed, and
/// then a front was written.
pub fn write_columns<W: Sink>(
    columns: &[Column],
    formats: &[Format],
    writer: &mut W,
) -> Result<(), Broken>
    requires works { W.failed writer.old ≡ false }
    requires few { length columns.now < 2 ^ 16 }
    ensures { MayWriteText W.failed W.taken
        (row_description (table_columns columns.now formats.now)) result writer.old writer.new }
{
    let length = 6 + columns_size(columns, formats) as u32;
    write_all(writer, &counted_header(b'T', length, columns.len() as u16))?;
    write_descriptions(columns, formats, writer)
}
