//! The line of a row.
ghost use Rattle.std.specs.Prelude.{◌≡◌, ◌++◌, [], OnOk};
ghost use Rattle.csv.specs.Writing.{writer_pending, writer_under};
ghost use Rattle.export_core.specs.Export.{cut};
ghost use Rattle.export_core.specs.Record.{IsBetween, row_line, text_in, value_field};

use crate::cut_record::put_record;
use crate::marks::Marks;
use crate::record::{Field, put_field};
use base_core::{NoMemory, Row, Value};
use csv::Writer;
use itoa::Buffer;

/// Numbers in plain decimal, and texts as they are.
impl Field for Value {
    ghost bytes = { value_field };

    fn put(&self, writer: &mut Writer<Vec<u8>>) -> Result<(), NoMemory> {
        match self {
            Value::Int(number) => {
                let mut digits = Buffer::new();
                put_field(writer, digits.format(*number).as_bytes())
            }
            Value::Text(text) => put_field(writer, text.as_bytes()),
        }
    }
}

// Writes the line of a row: the word `row` and the values that are marked.
fn put_row(writer: &mut Writer<Vec<u8>>, marks: &Marks, values: &[Value]) -> Result<(), NoMemory>
    requires { IsBetween writer.old }
    ensures text { OnOk result (text_in writer.new
        ≡ text_in writer.old ++ row_line (cut marks.now values.now)) }
    ensures between { OnOk result (IsBetween writer.new) }
{
    put_record(writer, b"row", marks, values)
}

/// Writes the line of a row, cut to the columns that are marked, behind what the writer's text is,
/// with nothing held back.
pub fn append_row(writer: &mut Writer<Vec<u8>>, marks: &Marks, row: &Row) -> Result<(), NoMemory>
    requires between { IsBetween writer.old }
    requires pending { writer_pending writer.old ≡ [] }
    ensures text { OnOk result ((writer_under writer.new).items
        ≡ (writer_under writer.old).items ++ row_line (cut marks.now row.now.values)) }
    ensures between { OnOk result (IsBetween writer.new) }
    ensures pending { OnOk result (writer_pending writer.new ≡ []) }
{
    put_row(writer, marks, row.values.as_slice())?;
    match writer.flush() {
        Ok(()) => {}
        Err(_) => return Err(NoMemory),
    }
    Ok(())
}
