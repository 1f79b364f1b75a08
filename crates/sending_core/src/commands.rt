//! What commands beside the language answer.
ghost use Rattle.std.specs.Prelude.{◌≡◌, ◌≤◌, ◌<◌, ◌^◌, [], ◌∷◌, Some, false, is_some, length};
ghost use Rattle.base_core.specs.Streams.{MayWriteText};
ghost use Rattle.messages_core.specs.Fields.{value};
ghost use Rattle.messages_core.specs.Rows.{cell_value, data_row, row_description};
ghost use Rattle.messages_core.specs.declared.rows.Format.{Format};
ghost use Rattle.sending_core.specs.CommandTexts.{cell_message, column_message, command_cell, command_column, command_tag, shown_column, tag_message};

use base_core::{Broken, ColType, Sink};
use messages_core::{
    Bytes, Cell, ColumnDescription, Format, ServerMessage, write_data_row, write_message,
    write_row_description,
};
use utility_core::Command;

/// Whether a command answers a row.
pub fn answers_row(command: Command) -> bool
    ensures { (f : Format) → result ≡ is_some (command_column command f) }
{
    match command {
        Command::Show(_) => true,
        Command::UnlockAll => true,
        Command::Version => true,
        Command::CurrentSchema => true,
        Command::One => true,
        _ => false,
    }
}

/// Writes RowDescription of one column.
fn write_column<W: Sink>(
    name: &[u8],
    ty: ColType,
    format: Format,
    writer: &mut W,
) -> Result<(), Broken>
    requires works { W.failed writer.old ≡ false }
    requires short { length name.now ≤ 100 }
    ensures { MayWriteText W.failed W.taken (row_description (shown_column name.now ty format ∷ []))
        result writer.old writer.new }
{
    let name = Bytes::new(name);
    let columns = [ColumnDescription { name, ty, format }];
    write_row_description(&columns, writer)
}

/// Writes DataRow of one value.
fn write_cell<W: Sink>(cell: Cell<'_>, writer: &mut W) -> Result<(), Broken>
    requires works { W.failed writer.old ≡ false }
    requires short { length (value (cell_value cell)) ≤ 100 }
    ensures { MayWriteText W.failed W.taken (data_row (cell_value cell.entry ∷ []))
        result writer.old writer.new }
{
    let cells = [cell];
    write_data_row(&cells, writer)
}

/// Writes DataRow of one text.
fn write_text<W: Sink>(text: &[u8], writer: &mut W) -> Result<(), Broken>
    requires works { W.failed writer.old ≡ false }
    requires short { length text.now ≤ 90 }
    ensures { MayWriteText W.failed W.taken (data_row (Some text.now ∷ []))
        result writer.old writer.new }
{
    write_cell(Cell::Text(Bytes::new(text)), writer)
}

/// Writes CommandComplete with this tag.
pub(crate) fn write_tag<W: Sink>(tag: &[u8], writer: &mut W) -> Result<(), Broken>
    requires works { W.failed writer.old ≡ false }
    requires short { length tag.now ≤ 100 }
    ensures { MayWriteText W.failed W.taken (tag_message (Some tag.now))
        result writer.old writer.new }
{
    write_message(&ServerMessage::CommandComplete(Bytes::new(tag)), writer)
}

/// Writes the description of the row that a command answers, if it answers one.
pub(crate) fn write_command_column<W: Sink>(
    command: Command,
    format: Format,
    writer: &mut W,
) -> Result<(), Broken>
    requires { W.failed writer.old ≡ false }
    ensures { MayWriteText W.failed W.taken (column_message (command_column command format))
        result writer.old writer.new }
{
    match command {
        Command::Show(setting) => {
            write_column(setting.name().as_bytes(), ColType::Text, format, writer)
        }
        Command::UnlockAll => {
            write_column(b"pg_advisory_unlock_all", ColType::Text, format, writer)
        }
        Command::Version => write_column(b"version", ColType::Text, format, writer),
        Command::CurrentSchema => write_column(b"current_schema", ColType::Text, format, writer),
        Command::One => write_column(b"?column?", ColType::Integer, format, writer),
        _ => Ok(()),
    }
}

/// Writes the row that a command answers, if it answers one.
pub(crate) fn write_command_row<W: Sink>(
    command: Command,
    format: Format,
    writer: &mut W,
) -> Result<(), Broken>
    requires { W.failed writer.old ≡ false }
    ensures { MayWriteText W.failed W.taken (cell_message (command_cell command format))
        result writer.old writer.new }
{
    match command {
        Command::Show(setting) => write_text(setting.value().as_bytes(), writer),
        Command::UnlockAll => write_text(b"", writer),
        Command::Version => write_text(b"PostgreSQL 15.0 (Bavgusen)", writer),
        Command::CurrentSchema => write_text(b"public", writer),
        Command::One => write_cell(Cell::Number { number: 1, format }, writer),
        _ => Ok(()),
    }
}

/// Writes the tag of a command, if it is one that is carried out.
pub(crate) fn write_command_tag<W: Sink>(command: Command, writer: &mut W) -> Result<(), Broken>
    requires { W.failed writer.old ≡ false }
    ensures { MayWriteText W.failed W.taken (tag_message (command_tag command))
        result writer.old writer.new }
{
    match command {
        Command::Begin => write_tag(b"BEGIN", writer),
        Command::Commit => write_tag(b"COMMIT", writer),
        Command::Rollback => write_tag(b"ROLLBACK", writer),
        Command::Set => write_tag(b"SET", writer),
        Command::Show(_) => write_tag(b"SHOW", writer),
        Command::Deallocate(_) => write_tag(b"DEALLOCATE", writer),
        Command::DeallocateUnderscored => write_tag(b"DEALLOCATE", writer),
        Command::DeallocateAll => write_tag(b"DEALLOCATE ALL", writer),
        Command::DiscardAll => write_tag(b"DISCARD ALL", writer),
        Command::ResetAll => write_tag(b"RESET", writer),
        Command::CloseAll => write_tag(b"CLOSE CURSOR ALL", writer),
        Command::UnlistenAll => write_tag(b"UNLISTEN", writer),
        Command::UnlockAll => write_tag(b"SELECT 1", writer),
        Command::Version => write_tag(b"SELECT 1", writer),
        Command::CurrentSchema => write_tag(b"SELECT 1", writer),
        Command::One => write_tag(b"SELECT 1", writer),
        Command::UnknownSetting => Ok(()),
        Command::Unserved => Ok(()),
    }
}
