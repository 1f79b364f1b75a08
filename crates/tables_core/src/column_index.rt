//! The index of one column, how it is made, and when it is given up.
ghost use Rattle.std.specs.Prelude.{◌≡◌, ◌<◌, IfOk, IfSome, OnOk, Some};
ghost use Rattle.std.specs.List.{All};
ghost use Rattle.tables_core.specs.Indexing.{Numbered, IsReached, Lists, ColumnLists};

use crate::question::Question;
use crate::reach::Reach;
use crate::rows::NumberedRow;
use base_core::{NoMemory, Row};
use copyup_core::Store;
use index_core::{Index, Key};
use std::alloc::Global;

/// So many changes to rows an index outlasts at least without being asked for.
const PATIENCE: usize = 4096;

/// Where more rows than these are changed at once, the index is given up.
const MANY_CHANGED: usize = 256;

/// Each question adds so many rows at least to an index that is being made,
const STEP: usize = 8192;

/// or such a part of all rows, where that is more.
const STEPS: usize = 64;

/// So many questions go by before rows are looked at again, where an index would not have served.
const PAUSE: usize = 16;

/// A column that was asked for, and its index.
#[derive(Drop)]
pub struct ColumnIndex {
    /// Where the column stands among those of its table.
    pub place: usize,
    /// By which keys it was asked for: by ranks for values from one to another, by fingerprints for
    /// one value.
    pub key: Key,
    /// None where the column was asked for only once, no index would serve, or it was given up.
    pub index: Option<Index>,
    /// Which rows the index lists.
    pub reach: Reach,
    /// How many more changes to rows the index outlasts, unless it is asked for.
    pub left: usize,
    /// How many numbers are listed, at most, that need not be.
    pub stale: usize,
    /// How many more questions go by before rows are looked at again.
    pub pause: usize,
}

/// Notes a row for the value that it has at this place, if there is one.
fn note_row(index: &mut Index, place: usize, number: u64, row: &Row) -> Result<(), NoMemory>
    ensures kept { OnOk result
        ((r : Numbered) → Lists index.old place r → Lists index.new place r) }
    ensures noted { OnOk result (Lists index.new place (number, row.now)) }
{
    let Some(value) = row.values.as_slice().get(place) else {
        return Ok(());
    };
    index.note(value, number)?;
    Ok(())
}

/// Notes the next rows from this number on, so many or all that are left, and says how far it came.
fn extend(
    index: &mut Index,
    place: usize,
    from: u64,
    rows: &Store<Row>,
    count: usize,
) -> Result<Reach, NoMemory>
    ensures { IfOk result (λ reach.
        All (λ r. r.0 < from → Lists index.old place r) rows.now.contents
        → All (λ r. IsReached reach r.0 → Lists index.new place r) rows.now.contents) }
{
    // The numbers of rows rise, as `len` tells.
    let _len = rows.len();
    let mut next = from;
    for _ in 0..count {
        let Some((number, row)) = rows.next_from(next) else {
            return Ok(Reach::Whole);
        };
        note_row(index, place, number, row)?;
        next = number.saturating_add(1);
    }
    Ok(Reach::Below(next))
}

impl ColumnIndex {
    /// A column that was asked for once.
    pub fn asked_once(place: usize, key: Key) -> ColumnIndex
        ensures { (r : Numbered) → ColumnLists result r }
    {
        ColumnIndex {
            place,
            key,
            index: None,
            reach: Reach::Below(0),
            left: 0,
            stale: 0,
            pause: 0,
        }
    }

    /// Turns to another column, which was asked for once.
    pub fn turn_to(&mut self, place: usize, key: Key)
        ensures { (r : Numbered) → ColumnLists self.new r }
    {
        self.place = place;
        self.key = key;
        self.index = None;
        self.pause = 0;
    }

    /// The index, where it lists all rows.
    pub fn whole(&self) -> Option<&Index>
        ensures { IfSome result (λ index.
            (r : Numbered) → ColumnLists self.now r → Lists index.now self.now.place r) }
    {
        match self.reach {
            Reach::Whole => self.index.as_ref(),
            Reach::Below(_) => None,
        }
    }

    /// Notes a row, unless the index comes to it later. Where memory is refused, the index is given
    /// up.
    pub fn note(&mut self, number: u64, row: &Row)
        ensures kept { (r : Numbered) → ColumnLists self.old r → ColumnLists self.new r }
        ensures noted { ColumnLists self.new (number, row.now) }
    {
        if !self.reach.has(number) {
            return;
        }
        if let Some(index) = &mut self.index {
            if note_row(index, self.place, number, row).is_err() {
                self.index = None;
            }
        }
    }

    /// Notes each of these rows.
    fn note_all(&mut self, rows: &[NumberedRow])
        ensures kept { (r : Numbered) → ColumnLists self.old r → ColumnLists self.new r }
        ensures noted { All (λ r. ColumnLists self.new r) rows.now }
    {
        for (number, row) in rows {
            self.note(*number, row);
        }
    }

    /// Notes rows that were changed, or gives the index up where they are many.
    pub fn note_changed(&mut self, changed: &[NumberedRow])
        ensures kept { (r : Numbered) → ColumnLists self.old r → ColumnLists self.new r }
        ensures noted { All (λ r. ColumnLists self.new r) changed.now }
    {
        if changed.len() > MANY_CHANGED {
            self.index = None;
            return;
        }
        self.note_all(changed);
    }

    /// Counts changes to rows, and the numbers that they leave listed, in a table that has so many
    /// rows. An index that was not asked for in a long time is given up, and one with more stale
    /// numbers than there are rows.
    pub fn age(&mut self, changes: usize, stale: usize, rows: usize)
        ensures { (r : Numbered) → ColumnLists self.old r → ColumnLists self.new r }
    {
        self.left = self.left.saturating_sub(changes);
        self.stale = self.stale.saturating_add(stale);
        if self.left == 0 || self.stale > rows {
            self.index = None;
        }
    }

    /// Begins an index, which lists nothing yet, unless there is one or it would not serve what is
    /// asked.
    fn begin(&mut self, alloc: Global, question: &Question<'_>, rows: &Store<Row>)
        ensures { (r : Numbered) → ColumnLists self.old r → ColumnLists self.new r }
    {
        if self.index.is_some() {
            return;
        }
        if self.pause > 0 {
            self.pause -= 1;
            return;
        }
        if question.finds_few(rows) {
            self.index = Some(Index::new(alloc, self.key));
            self.reach = Reach::Below(0);
            self.stale = 0;
        } else {
            self.pause = PAUSE;
        }
    }

    /// Lists the next of these rows, where there is an index that does not list all. Where memory
    /// is refused, the index is given up.
    fn grow(&mut self, rows: &Store<Row>)
        ensures { All (λ r. ColumnLists self.old r) rows.now.contents
            → All (λ r. ColumnLists self.new r) rows.now.contents }
    {
        let Reach::Below(from) = self.reach else {
            return;
        };
        let Some(mut index) = self.index.take() else {
            return;
        };
        let count = (rows.len() / STEPS).max(STEP);
        if let Ok(reach) = extend(&mut index, self.place, from, rows, count) {
            self.index = Some(index);
            self.reach = reach;
        }
    }

    /// Puts what was noted lately in order. Where memory is refused, the index is given up.
    fn settle(&mut self)
        ensures { (r : Numbered) → ColumnLists self.old r → ColumnLists self.new r }
    {
        let Some(mut index) = self.index.take() else {
            return;
        };
        if let Ok(()) = index.settle() {
            self.index = Some(index);
        }
    }

    /// The column was asked for again: it gets an index of these rows, a part of them at each
    /// question, if memory allows it.
    pub fn ask(&mut self, alloc: Global, question: &Question<'_>, rows: &Store<Row>)
        ensures { All (λ r. ColumnLists self.old r) rows.now.contents
            → All (λ r. ColumnLists self.new r) rows.now.contents }
    {
        self.left = rows.len().saturating_mul(4).max(PATIENCE);
        self.begin(alloc, question, rows);
        self.grow(rows);
        self.settle();
    }
}
