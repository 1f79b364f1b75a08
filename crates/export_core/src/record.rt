//! Records at the end of a text: lines of fields with commas between them.
//!
//! A field is in quotes exactly where it has a comma or a quote, and a quote inside is doubled; the line ends with a
//! line feed. A record is written field by field, where a request for memory may be refused: then a front of it may
//! stand in the text, which is of no use any more.
ghost use Rattle.std.specs.Prelude.{◌≡◌, ◌<◌, ◌++◌, ◌∷◌, [], ℕ, List, length, map, codes, IfOk, OnOk};
ghost use Rattle.csv.specs.Writing.{writer_pending};
ghost use Rattle.export_core.specs.Record.{IsBegun, IsBetween, IsPlain, comma, field_text, more_text, record_line, text_in};

use base_core::{Column, Name, NoMemory};
use csv::{Terminator, Writer, WriterBuilder};

/// What stands in a record as a field.
pub trait Field {
    // Its bytes.
    ghost bytes: { Self → List ℕ };

    /// Writes it as a further field.
    fn put(&self, writer: &mut Writer<Vec<u8>>) -> Result<(), NoMemory>
        requires { IsBegun writer.old }
        ensures text { OnOk result (text_in writer.new
            ≡ text_in writer.old ++ comma ∷ field_text (bytes self.now)) }
        ensures begun { OnOk result (IsBegun writer.new) };
}

/// Names as they are.
impl Field for Name {
    ghost bytes = { λ name. name };

    fn put(&self, writer: &mut Writer<Vec<u8>>) -> Result<(), NoMemory> {
        put_field(writer, self.as_bytes())
    }
}

/// Columns by their names.
impl Field for Column {
    ghost bytes = { λ column. column.name };

    fn put(&self, writer: &mut Writer<Vec<u8>>) -> Result<(), NoMemory> {
        self.name.put(writer)
    }
}

/// A writer of records after this text. Records of one writer may differ in length.
pub fn writer_after(text: Vec<u8>) -> Writer<Vec<u8>>
    ensures text { text_in result ≡ text.items }
    ensures between { IsBetween result }
    ensures pending { writer_pending result ≡ [] }
{
    WriterBuilder::new()
        .terminator(Terminator::Any(b'\n'))
        .flexible(true)
        .from_writer(text)
}

/// Writes the first field of a record.
pub fn begin(writer: &mut Writer<Vec<u8>>, first: &[u8]) -> Result<(), NoMemory>
    requires between { IsBetween writer.old }
    requires some { 0 < length first.now }
    requires plain { IsPlain first.now }
    ensures text { OnOk result (text_in writer.new ≡ text_in writer.old ++ field_text first.now) }
    ensures begun { OnOk result (IsBegun writer.new) }
{
    match writer.write_field(first) {
        Ok(()) => {}
        Err(_) => return Err(NoMemory),
    }
    Ok(())
}

/// Writes a further field, of bytes from 32 up.
pub fn put_field(writer: &mut Writer<Vec<u8>>, field: &[u8]) -> Result<(), NoMemory>
    requires begun { IsBegun writer.old }
    requires plain { IsPlain field.now }
    ensures text { OnOk result (text_in writer.new
        ≡ text_in writer.old ++ comma ∷ field_text field.now) }
    ensures begun { OnOk result (IsBegun writer.new) }
{
    match writer.write_field(field) {
        Ok(()) => {}
        Err(_) => return Err(NoMemory),
    }
    Ok(())
}

/// Writes further fields.
pub fn put_fields<F: Field>(writer: &mut Writer<Vec<u8>>, fields: &[F]) -> Result<(), NoMemory>
    requires { IsBegun writer.old }
    ensures text { OnOk result (text_in writer.new
        ≡ text_in writer.old ++ more_text (map F.bytes fields.now)) }
    ensures begun { OnOk result (IsBegun writer.new) }
{
    for field in fields {
        field.put(writer)?;
    }
    Ok(())
}

/// Writes the line of a record: the first field, which has to have a byte, and the further ones.
pub fn put_line<F: Field>(
    writer: &mut Writer<Vec<u8>>,
    first: &[u8],
    fields: &[F],
) -> Result<(), NoMemory>
    requires between { IsBetween writer.old }
    requires some { 0 < length first.now }
    requires plain { IsPlain first.now }
    ensures text { OnOk result (text_in writer.new
        ≡ text_in writer.old ++ record_line (first.now ∷ map F.bytes fields.now)) }
    ensures between { OnOk result (IsBetween writer.new) }
{
    begin(writer, first)?;
    put_fields(writer, fields)?;
    end(writer)
}

/// Ends the record.
pub fn end(writer: &mut Writer<Vec<u8>>) -> Result<(), NoMemory>
    requires { IsBegun writer.old }
    ensures text { OnOk result (text_in writer.new ≡ text_in writer.old ++ codes "\n") }
    ensures between { OnOk result (IsBetween writer.new) }
{
    match writer.end_record() {
        Ok(()) => {}
        Err(_) => return Err(NoMemory),
    }
    Ok(())
}

/// The text with the records at its end.
pub fn finish(writer: Writer<Vec<u8>>) -> Result<Vec<u8>, NoMemory>
    ensures { IfOk result (λ text. text.items ≡ text_in writer) }
{
    match writer.into_inner() {
        Ok(text) => Ok(text),
        Err(_) => Err(NoMemory),
    }
}
