//! Records cut to the fields that are marked.
ghost use Rattle.std.specs.Prelude.{◌≡◌, ◌<◌, ◌++◌, ◌∷◌, length, map, IfOk, OnOk};
ghost use Rattle.export_core.specs.Export.{cut};
ghost use Rattle.export_core.specs.Record.{IsBegun, IsBetween, IsPlain, more_text, record_line, text_in};

use crate::marks::{Marks, is_set};
use crate::record::{Field, begin, end, finish, put_fields, writer_after};
use base_core::NoMemory;
use csv::Writer;

/// The text with the line of a record at its end: the first field and those that are marked, with
/// commas between them, and a line feed. A field is in quotes exactly where it has a comma or a
/// quote, and a quote inside is doubled. The first field has to have a byte, and none below 32.
/// `NoMemory` where a request for memory was refused.
pub fn write_record<F: Field>(
    text: Vec<u8>,
    first: &[u8],
    marks: &Marks,
    fields: &[F],
) -> Result<Vec<u8>, NoMemory>
    requires some { 0 < length first.now }
    requires plain { IsPlain first.now }
    ensures { IfOk result (λ longer. longer.items
        ≡ text.items ++ record_line (first.now ∷ map F.bytes (cut marks.now fields.now))) }
{
    let mut writer = writer_after(text);
    put_record(&mut writer, first, marks, fields)?;
    finish(writer)
}

/// Writes the line of a record: the first field, which has to have a byte, and those of the further
/// ones that are marked.
pub fn put_record<F: Field>(
    writer: &mut Writer<Vec<u8>>,
    first: &[u8],
    marks: &Marks,
    fields: &[F],
) -> Result<(), NoMemory>
    requires between { IsBetween writer.old }
    requires some { 0 < length first.now }
    requires plain { IsPlain first.now }
    ensures text { OnOk result (text_in writer.new
        ≡ text_in writer.old
        ++ record_line (first.now ∷ map F.bytes (cut marks.now fields.now))) }
    ensures between { OnOk result (IsBetween writer.new) }
{
    begin(writer, first)?;
    put_marked(writer, marks, fields)?;
    end(writer)
}

// Writes further fields, but for those at places that are marked false.
fn put_cut<F: Field>(
    writer: &mut Writer<Vec<u8>>,
    marks: &[bool],
    fields: &[F],
) -> Result<(), NoMemory>
    requires { IsBegun writer.old }
    ensures text { OnOk result (text_in writer.new
        ≡ text_in writer.old ++ more_text (map F.bytes (cut marks.now fields.now))) }
    ensures begun { OnOk result (IsBegun writer.new) }
{
    for (at, field) in fields.iter().enumerate() {
        if is_set(marks, at) {
            field.put(writer)?;
        }
    }
    Ok(())
}

/// Writes further fields, those that are marked.
pub fn put_marked<F: Field>(
    writer: &mut Writer<Vec<u8>>,
    marks: &Marks,
    fields: &[F],
) -> Result<(), NoMemory>
    requires { IsBegun writer.old }
    ensures text { OnOk result (text_in writer.new
        ≡ text_in writer.old ++ more_text (map F.bytes (cut marks.now fields.now))) }
    ensures begun { OnOk result (IsBegun writer.new) }
{
    match marks.cut() {
        None => put_fields(writer, fields),
        Some(marks) => put_cut(writer, marks, fields),
    }
}
