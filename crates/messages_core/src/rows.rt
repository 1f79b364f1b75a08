//! Rows, and what they are described by.
ghost use Rattle.std.specs.Prelude.{◌≡◌, ◌+◌, ◌*◌, ◌≤◌, ◌<◌, ◌^◌, ◌++◌, false, length, flat_map, map, Some};
ghost use Rattle.base_core.specs.Streams.{MayWriteText};
ghost use Rattle.messages_core.specs.Fields.{int32, value};
ghost use Rattle.messages_core.specs.Rows.{cell_value, column_tail, data_row, described, number_value, parameter_description, row_description, row_values, formatted_value, value_bytes};

use crate::bytes::Bytes;
use crate::writing::{Field, counted_header, write_counted};
use base_core::{Broken, ColType, Sink, Value, write_all};
use itoa::Buffer;

/// How a value stands in a message.
#[derive(Clone, Copy, Debug, PartialEq, Eq)]
pub enum Format {
    Text,
    Binary,
}

/// A column of rows.
#[derive(Drop)]
pub struct ColumnDescription<'a> {
    pub name: Bytes<'a>,
    pub ty: ColType,
    pub format: Format,
}

/// The bytes of a description behind the name.
const TAIL_BYTES: usize = 19;

/// What stands behind the name of a column: its zero byte, no table and no column of one, the type, its
/// size, no modifier, and the format.
fn column_tail(ty: ColType, format: Format) -> [u8; TAIL_BYTES]
    ensures { result ≡ column_tail ty format }
{
    let (oid, [high, low]) = match ty {
        ColType::Integer => (20, [0, 8]),
        ColType::Text => (25, [255, 255]),
    };
    let format = match format {
        Format::Text => 0,
        Format::Binary => 1,
    };
    [
        0, 0, 0, 0, 0, 0, 0, 0, 0, 0, oid, high, low, 255, 255, 255, 255, 0, format,
    ]
}

impl<'a> Field for ColumnDescription<'a> {
    ghost spelled = { described };

    fn size(&self) -> usize {
        self.name.as_slice().len() + TAIL_BYTES
    }

    fn write<W: Sink>(&self, writer: &mut W) -> Result<(), Broken> {
        write_all(writer, self.name.as_slice())?;
        write_all(writer, &column_tail(self.ty, self.format))
    }
}

/// A value in a row.
#[derive(Drop)]
pub enum Cell<'a> {
    Null,
    Text(Bytes<'a>),
    Number { number: i64, format: Format },
}

/// Writes a value that is not NULL: how many bytes it has, and these.
fn write_value<W: Sink>(bytes: &[u8], writer: &mut W) -> Result<(), Broken>
    requires works { W.failed writer.old ≡ false }
    requires short { length bytes.now < 2 ^ 31 }
    ensures { MayWriteText W.failed W.taken (int32 (length bytes.now) ++ bytes.now)
        result writer.old writer.new }
{
    let length = bytes.len() as u32;
    write_all(writer, &length.to_be_bytes())?;
    write_all(writer, bytes)
}

/// Writes a number as a value.
fn write_number<W: Sink>(number: i64, format: Format, writer: &mut W) -> Result<(), Broken>
    requires { W.failed writer.old ≡ false }
    ensures { MayWriteText W.failed W.taken (value (Some (number_value format number)))
        result writer.old writer.new }
{
    match format {
        Format::Text => {
            let mut digits = Buffer::new();
            write_value(digits.format(number).as_bytes(), writer)
        }
        Format::Binary => write_value(&number.to_be_bytes(), writer),
    }
}

/// How many bytes a number has as a value.
fn number_size(number: i64, format: Format) -> usize
    ensures size { result ≡ length (number_value format number) }
    ensures short { result ≤ 40 }
{
    match format {
        Format::Text => {
            let mut digits = Buffer::new();
            digits.format(number).len()
        }
        Format::Binary => 8,
    }
}

/// The bytes of a value's length.
const LENGTH_BYTES: usize = 4;

const NULL: [u8; 4] = [255; 4];

impl<'a> Field for Cell<'a> {
    ghost spelled = { λ cell. value (cell_value cell) };

    fn size(&self) -> usize {
        match self {
            Cell::Null => LENGTH_BYTES,
            Cell::Text(text) => LENGTH_BYTES + text.as_slice().len(),
            Cell::Number { number, format } => LENGTH_BYTES + number_size(*number, *format),
        }
    }

    fn write<W: Sink>(&self, writer: &mut W) -> Result<(), Broken> {
        match self {
            Cell::Null => write_all(writer, &NULL),
            Cell::Text(text) => write_value(text.as_slice(), writer),
            Cell::Number { number, format } => write_number(*number, *format, writer),
        }
    }
}

impl<'a> Cell<'a> {
    /// A value of a row, in this format.
    fn of(value: &'a Value, format: Format) -> Cell<'a>
        ensures { cell_value result ≡ formatted_value value.now format }
    {
        match value {
            Value::Int(number) => Cell::Number {
                number: *number,
                format,
            },
            Value::Text(text) => Cell::Text(Bytes::new(text.as_bytes())),
        }
    }
}

impl Field for u32 {
    ghost spelled = { int32 };

    fn size(&self) -> usize {
        4
    }

    fn write<W: Sink>(&self, writer: &mut W) -> Result<(), Broken> {
        write_all(writer, &self.to_be_bytes())
    }
}

/// Writes RowDescription.
pub fn write_row_description<W: Sink>(
    columns: &[ColumnDescription<'_>],
    writer: &mut W,
) -> Result<(), Broken>
    requires works { W.failed writer.old ≡ false }
    requires few { length columns.now < 2 ^ 16 }
    requires short { length (flat_map described columns.now) + 6 < 2 ^ 31 }
    ensures { MayWriteText W.failed W.taken (row_description columns.now)
        result writer.old writer.new }
{
    write_counted(b'T', columns, writer)
}

/// Writes ParameterDescription, of the types of the parameters.
pub fn write_parameter_description<W: Sink>(types: &[u32], writer: &mut W) -> Result<(), Broken>
    requires works { W.failed writer.old ≡ false }
    requires few { length types.now < 2 ^ 16 }
    ensures { MayWriteText W.failed W.taken (parameter_description types.now)
        result writer.old writer.new }
{
    write_counted(b't', types, writer)
}

/// Writes DataRow. It takes no memory.
pub fn write_data_row<W: Sink>(cells: &[Cell<'_>], writer: &mut W) -> Result<(), Broken>
    requires works { W.failed writer.old ≡ false }
    requires few { length cells.now < 2 ^ 16 }
    requires short { length (flat_map (λ c. value (cell_value c)) cells.now) + 6 < 2 ^ 31 }
    ensures { MayWriteText W.failed W.taken (data_row (map cell_value cells.now))
        result writer.old writer.new }
{
    write_counted(b'D', cells, writer)
}

/// The most bytes of a value of a row: of its length, and of the longest text.
const MOST_VALUE_BYTES: usize = 1028;

/// How many bytes a value of a row has, with those of its length.
fn value_size(value: &Value, format: Format) -> usize
    ensures size { result ≡ length (value_bytes value.now format) }
    ensures short { result ≤ MOST_VALUE_BYTES }
{
    match value {
        Value::Int(number) => LENGTH_BYTES + number_size(*number, format),
        Value::Text(text) => LENGTH_BYTES + text.as_bytes().len(),
    }
}

/// How many bytes the values of a row have.
fn row_size(values: &[Value], formats: &[Format]) -> usize
    requires same { length formats.now ≡ length values.now }
    requires few { length values.now < 2 ^ 16 }
    ensures size { result ≡ length (flat_map value (row_values values.now formats.now)) }
    ensures short { result ≤ MOST_VALUE_BYTES * length values.now }
{
    let mut size = 0usize;
    for i in 0..values.len() {
        size += value_size(&values[i], formats[i]);
    }
    size
}

/// Writes the values of a row.
fn write_cells<W: Sink>(values: &[Value], formats: &[Format], writer: &mut W) -> Result<(), Broken>
    requires works { W.failed writer.old ≡ false }
    requires same { length formats.now ≡ length values.now }
    requires short { length (flat_map value (row_values values.now formats.now)) < 2 ^ 31 }
    ensures { MayWriteText W.failed W.taken (flat_map value (row_values values.now formats.now))
        result writer.old writer.new }
{
    for i in 0..values.len() {
        Cell::of(&values[i], formats[i]).write(writer)?;
    }
    Ok(())
}

/// Writes DataRow, of a row of a table, each value in the format of its column. It takes no memory.
pub fn write_row<W: Sink>(
    values: &[Value],
    formats: &[Format],
    writer: &mut W,
) -> Result<(), Broken>
    requires works { W.failed writer.old ≡ false }
    requires same { length formats.now ≡ length values.now }
    requires few { length values.now < 2 ^ 16 }
    ensures { MayWriteText W.failed W.taken (data_row (row_values values.now formats.now))
        result writer.old writer.new }
{
    let length = 6 + row_size(values, formats) as u32;
    write_all(writer, &counted_header(b'D', length, values.len() as u16))?;
    write_cells(values, formats, writer)
}
