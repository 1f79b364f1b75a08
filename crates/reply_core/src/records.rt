//! The lines of rows and of checkpoints, straight to a writer: no line of them takes memory.
ghost use Rattle.std.specs.Prelude.{◌≡◌, ◌+◌, ◌^◌, ◌<◌, ◌==◌, ◌++◌, ◌∷◌, [], false, length, position, IfSome};
ghost use Rattle.std.specs.List.{flat_map, list_any};
ghost use Rattle.base_core.specs.Streams.{MayWriteText};
ghost use Rattle.export_core.specs.Record.{doubled_byte, field_text, forces_quotes, quote, row_line, row_lines, value_field};
ghost use Rattle.reply_core.specs.Texts.{checkpoint_line, value_text};

use crate::buffer::ReplyBuffer;
use crate::wording::push_checkpoint;
use base_core::{Broken, Row, Sink, Value, write_all};
use itoa::Buffer;
use system_core::Checkpoint;

/// The index of the first quote.
fn quote_at(text: &[u8]) -> Option<usize>
    ensures at { result ≡ position (λ b. b == quote) text.now }
    ensures within { IfSome result (λ n. n < length text.now) }
    ensures fits { IfSome result (λ n. n + 1 < 2 ^ 64) }
{
    text.iter().position(|b| *b == b'"')
}

/// Whether a field stands in quotes.
fn needs_quotes(field: &[u8]) -> bool
    ensures { result ≡ list_any forces_quotes field.now }
{
    field.iter().any(|b| *b == b',' || *b == b'"')
}

/// Writes a run of bytes and a quote behind it.
fn write_run<W: Sink>(writer: &mut W, run: &[u8]) -> Result<(), Broken>
    requires { W.failed writer.old ≡ false }
    ensures { MayWriteText W.failed W.taken (run.now ++ quote ∷ []) result writer.old writer.new }
{
    write_all(writer, run)?;
    write_all(writer, b"\"")
}

/// Writes a text with each quote twice, in runs up to the next quote.
fn write_doubled<W: Sink>(writer: &mut W, text: &[u8]) -> Result<(), Broken>
    requires { W.failed writer.old ≡ false }
    ensures { MayWriteText W.failed W.taken (flat_map doubled_byte text.now)
        result writer.old writer.new }
{
    let mut rest = text;
    while let Some(n) = quote_at(rest) {
        write_run(writer, &rest[..n + 1])?;
        rest = &rest[n + 1..];
    }
    write_all(writer, rest)
}

/// Writes a text in quotes, with each quote inside doubled.
fn write_quoted<W: Sink>(writer: &mut W, text: &[u8]) -> Result<(), Broken>
    requires { W.failed writer.old ≡ false }
    ensures { MayWriteText W.failed W.taken (quote ∷ (flat_map doubled_byte text.now ++ quote ∷ []))
        result writer.old writer.new }
{
    write_all(writer, b"\"")?;
    write_doubled(writer, text)?;
    write_all(writer, b"\"")
}

/// Writes a field: in quotes exactly where it has a comma or a quote, with each quote doubled.
fn write_field<W: Sink>(writer: &mut W, field: &[u8]) -> Result<(), Broken>
    requires { W.failed writer.old ≡ false }
    ensures { MayWriteText W.failed W.taken (field_text field.now) result writer.old writer.new }
{
    if needs_quotes(field) {
        return write_quoted(writer, field);
    }
    write_all(writer, field)
}

/// Writes a value as a field: a number in plain decimal, and a text as it is or in quotes.
fn write_value<W: Sink>(writer: &mut W, value: &Value) -> Result<(), Broken>
    requires { W.failed writer.old ≡ false }
    ensures { MayWriteText W.failed W.taken (field_text (value_field value.now))
        result writer.old writer.new }
{
    match value {
        Value::Int(number) => {
            let mut digits = Buffer::new();
            write_all(writer, digits.format(*number).as_bytes())
        }
        Value::Text(text) => write_field(writer, text.as_bytes()),
    }
}

/// Writes a further field of a record: a comma and the value.
fn write_further<W: Sink>(writer: &mut W, value: &Value) -> Result<(), Broken>
    requires { W.failed writer.old ≡ false }
    ensures { MayWriteText W.failed W.taken (value_text value.now) result writer.old writer.new }
{
    write_all(writer, b",")?;
    write_value(writer, value)
}

fn write_values<W: Sink>(writer: &mut W, values: &[Value]) -> Result<(), Broken>
    requires { W.failed writer.old ≡ false }
    ensures { MayWriteText W.failed W.taken (flat_map value_text values.now)
        result writer.old writer.new }
{
    for value in values {
        write_further(writer, value)?;
    }
    Ok(())
}

/// Writes the line of a row: the word `row`, the values, and a line feed.
fn write_row<W: Sink>(writer: &mut W, values: &[Value]) -> Result<(), Broken>
    requires { W.failed writer.old ≡ false }
    ensures { MayWriteText W.failed W.taken (row_line values.now) result writer.old writer.new }
{
    write_all(writer, b"row")?;
    write_values(writer, values)?;
    write_all(writer, b"\n")
}

/// Writes the lines of rows.
pub fn write_rows<W: Sink>(writer: &mut W, rows: &[Row]) -> Result<(), Broken>
    requires { W.failed writer.old ≡ false }
    ensures { MayWriteText W.failed W.taken (row_lines rows.now) result writer.old writer.new }
{
    for row in rows {
        write_row(writer, row.values.as_slice())?;
    }
    Ok(())
}

/// Writes the line of a checkpoint, by way of the buffer.
fn write_checkpoint<W: Sink>(
    buffer: &mut ReplyBuffer,
    writer: &mut W,
    checkpoint: &Checkpoint,
) -> Result<(), Broken>
    requires { W.failed writer.old ≡ false }
    ensures { MayWriteText W.failed W.taken (checkpoint_line checkpoint.now)
        result writer.old writer.new }
{
    buffer.clear();
    push_checkpoint(buffer, checkpoint);
    write_all(writer, buffer.as_slice())
}

/// Writes the lines of checkpoints, each by way of the buffer.
pub fn write_checkpoints<W: Sink>(
    buffer: &mut ReplyBuffer,
    writer: &mut W,
    entries: &[Checkpoint],
) -> Result<(), Broken>
    requires { W.failed writer.old ≡ false }
    ensures { MayWriteText W.failed W.taken (flat_map checkpoint_line entries.now)
        result writer.old writer.new }
{
    for checkpoint in entries {
        write_checkpoint(buffer, writer, checkpoint)?;
    }
    Ok(())
}
