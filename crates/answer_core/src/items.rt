//! A list that rows tell.
ghost use Rattle.std.specs.Prelude.{◌≡◌, ◌-◌, ◌≤◌, false, drop, length, take};
ghost use Rattle.std.specs.List.{concat};
ghost use Rattle.base_core.specs.Streams.{MayWriteText};
ghost use Rattle.answer_core.specs.Remaining.{item_count, item_rows};

use crate::formats::Formats;
use crate::told::write_rows;
use base_core::{Broken, Row, Sequence, Sink};
use system_core::Checkpoint;

/// What rows tell one after another.
#[derive(Drop)]
pub enum Items {
    Rows(Sequence<Row>),
    Checkpoints(Sequence<Checkpoint>),
}

/// So many items from a place on.
fn part_of<T>(items: &[T], next: usize, count: usize) -> &[T]
    requires { count ≤ length items.now - next }
    ensures { result.now ≡ take count (drop next items.now) }
{
    let rest = &items[next.min(items.len())..];
    &rest[..count]
}

impl Items {
    /// How many there are.
    pub(crate) fn len(&self) -> usize
        ensures { result ≡ item_count self.now }
    {
        match self {
            Items::Rows(rows) => rows.len(),
            Items::Checkpoints(entries) => entries.len(),
        }
    }

    /// Writes the rows of so many of them, from a place on.
    pub(crate) fn write_some<W: Sink>(
        &self,
        next: usize,
        count: usize,
        formats: &Formats,
        writer: &mut W,
    ) -> Result<(), Broken>
        requires works { W.failed writer.old ≡ false }
        requires fits { count ≤ item_count self.now - next }
        ensures { MayWriteText W.failed W.taken
            (concat (take count (drop next (item_rows self.now formats.now))))
            result writer.old writer.new }
    {
        match self {
            Items::Rows(rows) => {
                let part = part_of(rows.as_slice(), next, count);
                write_rows(part, formats.as_slice(), writer)
            }
            Items::Checkpoints(entries) => {
                let part = part_of(entries.as_slice(), next, count);
                write_rows(part, formats.as_slice(), writer)
            }
        }
    }
}
