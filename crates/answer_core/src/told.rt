//! The rows of an answer, each a message of its own: none takes memory.
ghost use Rattle.std.specs.Prelude.{◌≡◌, ◌≤◌, List, ℕ, false, length, flat_map};
ghost use Rattle.base_core.specs.Streams.{MayWriteText};
ghost use Rattle.messages_core.specs.declared.rows.Format.{Format};
ghost use Rattle.system_core.specs.declared.machine.event.Checkpoint.TheVariants as checkpoints;
ghost use Rattle.answer_core.specs.RowTexts.{checkpoint_row, int8_value, record_row, table_row, unended};

use arrayvec::ArrayVec;
use base_core::{Broken, Moment, Row, Sink};
use itoa::Buffer;
use messages_core::{Bytes, Cell, Format, format_at, write_data_row};
use reader_core::MAX_ITEMS;
use system_core::Checkpoint;

/// What is told in a row.
pub trait Told {
    // Its row, in these formats.
    ghost told: { List Format → Self → List ℕ };

    /// Writes its row.
    fn write_row<W: Sink>(&self, formats: &[Format], writer: &mut W) -> Result<(), Broken>
        requires works { W.failed writer.old ≡ false }
        requires few { length formats.now ≤ MAX_ITEMS }
        ensures { MayWriteText W.failed W.taken (told formats.now self.now)
            result writer.old writer.new };
}

impl Told for Row {
    ghost told = { table_row };

    fn write_row<W: Sink>(&self, formats: &[Format], writer: &mut W) -> Result<(), Broken> {
        let values = self.values.as_slice();
        let count = values.len().min(formats.len());
        messages_core::write_row(&values[..count], &formats[..count], writer)
    }
}

/// The most bytes of a number in decimal.
const INT8_BYTES: usize = 20;

/// Room with these bytes in it.
fn filled(part: &[u8]) -> ArrayVec<u8, INT8_BYTES>
    requires { length part.now ≤ INT8_BYTES }
    ensures { result.items ≡ part.now }
{
    let mut bytes = ArrayVec::new();
    bytes.try_extend_from_slice(part).unwrap();
    bytes
}

/// A number as an int8.
fn int8(number: u64, format: Format) -> ArrayVec<u8, INT8_BYTES>
    ensures { result.items ≡ int8_value format number }
{
    match format {
        Format::Text => {
            let mut digits = Buffer::new();
            filled(digits.format(number).as_bytes())
        }
        Format::Binary => filled(&number.to_be_bytes()),
    }
}

/// Writes the row of a checkpoint that is kept.
fn write_kept<W: Sink>(
    number: u64,
    point: Moment,
    formats: &[Format],
    writer: &mut W,
) -> Result<(), Broken>
    requires { W.failed writer.old ≡ false }
    ensures { MayWriteText W.failed W.taken
        (checkpoint_row formats.now (checkpoints.Kept number point)) result writer.old writer.new }
{
    let number = int8(number, format_at(formats, 1));
    let point = int8(point.0, format_at(formats, 2));
    let cells = [
        Cell::Text(Bytes::new(b"finished")),
        Cell::Text(Bytes::new(number.as_slice())),
        Cell::Text(Bytes::new(point.as_slice())),
        Cell::Null,
    ];
    write_data_row(&cells, writer)
}

/// Writes the row of a checkpoint of which so many records are left.
fn write_active<W: Sink>(
    number: u64,
    point: Moment,
    left: u64,
    formats: &[Format],
    writer: &mut W,
) -> Result<(), Broken>
    requires { W.failed writer.old ≡ false }
    ensures { MayWriteText W.failed W.taken
        (checkpoint_row formats.now (checkpoints.Active number point left))
        result writer.old writer.new }
{
    let number = int8(number, format_at(formats, 1));
    let point = int8(point.0, format_at(formats, 2));
    let left = int8(left, format_at(formats, 3));
    let cells = [
        Cell::Text(Bytes::new(b"active")),
        Cell::Text(Bytes::new(number.as_slice())),
        Cell::Text(Bytes::new(point.as_slice())),
        Cell::Text(Bytes::new(left.as_slice())),
    ];
    write_data_row(&cells, writer)
}

impl Told for Checkpoint {
    ghost told = { checkpoint_row };

    fn write_row<W: Sink>(&self, formats: &[Format], writer: &mut W) -> Result<(), Broken> {
        match self {
            Checkpoint::Kept { number, point } => write_kept(*number, *point, formats, writer),
            Checkpoint::Active {
                number,
                point,
                left,
            } => write_active(*number, *point, *left, formats, writer),
        }
    }
}

/// The most bytes of a line that a row can tell, by far: a message tells its length in 31 bits.
pub const MOST_LINE_BYTES: usize = 1_073_741_824;

/// A line without the line feed at its end.
pub(crate) fn unended(line: &[u8]) -> &[u8]
    ensures line { result.now ≡ unended line.now }
    ensures short { length result.now ≤ length line.now }
{
    &line[..line.len().saturating_sub(1)]
}

/// Writes the row of a record.
pub(crate) fn write_record<W: Sink>(line: &[u8], writer: &mut W) -> Result<(), Broken>
    requires works { W.failed writer.old ≡ false }
    requires short { length line.now ≤ MOST_LINE_BYTES }
    ensures { MayWriteText W.failed W.taken (record_row line.now) result writer.old writer.new }
{
    let cells = [Cell::Text(Bytes::new(unended(line)))];
    write_data_row(&cells, writer)
}

/// Writes the rows of all of these.
pub(crate) fn write_rows<T: Told, W: Sink>(
    items: &[T],
    formats: &[Format],
    writer: &mut W,
) -> Result<(), Broken>
    requires works { W.failed writer.old ≡ false }
    requires few { length formats.now ≤ MAX_ITEMS }
    ensures { MayWriteText W.failed W.taken (flat_map (T.told formats.now) items.now)
        result writer.old writer.new }
{
    for item in items {
        item.write_row(formats, writer)?;
    }
    Ok(())
}
