//! The descriptions of the columns of an answer's rows.
ghost use Rattle.std.specs.Prelude.{◌≡◌, ◌+◌, ◌<◌, ◌^◌, false, flat_map, length};
ghost use Rattle.base_core.specs.Streams.{MayWriteText};
ghost use Rattle.messages_core.specs.Rows.{described, row_description};
ghost use Rattle.answer_core.specs.RowTexts.{checkpoint_columns, column_named, description_text, export_columns};

use crate::formats::Formats;
use base_core::{Broken, ColType, Sink};
use messages_core::{Bytes, ColumnDescription, Format, format_at, write_row_description};
use system_core::Reply;

/// A column of this name, with the format that stands in its place.
fn column<'a>(
    name: &'a [u8],
    ty: ColType,
    formats: &[Format],
    place: usize,
) -> ColumnDescription<'a>
    ensures { result ≡ column_named name.now ty formats.now place }
{
    ColumnDescription {
        name: Bytes::new(name),
        ty,
        format: format_at(formats, place),
    }
}

/// Writes the description of what CHECKPOINTS lists: a state, and three numbers. It takes no memory.
/// `Broken` exactly where the writer has failed, and then a front was written.
pub fn write_checkpoint_columns<W: Sink>(formats: &Formats, writer: &mut W) -> Result<(), Broken>
    requires { W.failed writer.old ≡ false }
    ensures { MayWriteText W.failed W.taken (row_description (checkpoint_columns formats.now))
        result writer.old writer.new }
{
    let formats = formats.as_slice();
    let columns = [
        column(b"state", ColType::Text, formats, 0),
        column(b"n", ColType::Integer, formats, 1),
        column(b"point", ColType::Integer, formats, 2),
        column(b"left", ColType::Integer, formats, 3),
    ];
    write_row_description(&columns, writer)
}

/// Writes the description of the records of an export: a line each. It takes no memory. `Broken` exactly
/// where the writer has failed, and then a front was written.
pub fn write_export_columns<W: Sink>(formats: &Formats, writer: &mut W) -> Result<(), Broken>
    requires { W.failed writer.old ≡ false }
    ensures { MayWriteText W.failed W.taken (row_description (export_columns formats.now))
        result writer.old writer.new }
{
    let columns = [column(b"line", ColType::Text, formats.as_slice(), 0)];
    write_row_description(&columns, writer)
}

/// Writes the description of a reply's rows, which goes before the answer to Query: rows of a table have
/// these columns. Of a reply without rows it writes nothing. It takes no memory. `Broken` exactly where
/// the writer has failed, and then a front was written.
pub fn write_description<W: Sink>(
    reply: &Reply,
    columns: &[ColumnDescription<'_>],
    formats: &Formats,
    writer: &mut W,
) -> Result<(), Broken>
    requires works { W.failed writer.old ≡ false }
    requires few { length columns.now < 2 ^ 16 }
    requires short { length (flat_map described columns.now) + 6 < 2 ^ 31 }
    ensures { MayWriteText W.failed W.taken (description_text reply.now columns.now formats.now)
        result writer.old writer.new }
{
    match reply {
        Reply::Rows { .. } => write_row_description(columns, writer),
        Reply::Listed { .. } => write_checkpoint_columns(formats, writer),
        Reply::Export(_) => write_export_columns(formats, writer),
        _ => Ok(()),
    }
}
