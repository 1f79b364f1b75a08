//! The indexes of one table.
ghost use Rattle.std.specs.Prelude.{◌≡◌, ◌<◌, [], List, Some, IfSome, filter, length, map, not};
ghost use Rattle.std.specs.List.Sorted.{IsStrictlyIncreasing};
ghost use Rattle.base_core.specs.Filter.{column_index};
ghost use Rattle.index_core.specs.Listed.{listed};
ghost use Rattle.tables_core.specs.Contents.{assigned_row, satisfies};
ghost use Rattle.tables_core.specs.Indexing.{Numbered, EachLists, ListAll, ListsEachPassing, assigns};
ghost use Rattle.tables_core.specs.Picking.{rows_at, without_rows};

use crate::column_index::ColumnIndex;
use crate::interval::interval_at;
use crate::listed::keep_chosen;
use crate::question::{Question, are_few};
use crate::resolved::Resolved;
use crate::rows::NumberedRow;
use base_core::{Assignment, Column, Comparison, Condition, Row, column_index};
use copyup_core::Store;
use index_core::{Index, Interval, Key};
use std::alloc::Global;

/// How many columns of a table are kept in mind. One that is asked for in both ways counts twice.
const MOST: usize = 8;

/// The columns that were asked for, with their indexes.
#[derive(Drop)]
pub struct Indexes {
    alloc: Global,
    /// A table of fewer rows gets no index.
    least: usize,
    kept: Vec<ColumnIndex>,
}

/// The place of the column that a condition compares with a value of its type, and the keys by which
/// it asks: by fingerprints for `=`, by ranks for values in their order. None for `<>`, which no
/// index serves.
fn asked_of(columns: &[Column], condition: &Condition) -> Option<(usize, Key)>
    ensures { IfSome result (λ asked.
        column_index columns.now condition.now.column ≡ Some asked.0) }
{
    let key = match condition.comparison {
        Comparison::Equal => Key::Fingerprint,
        Comparison::NotEqual => return None,
        _ => Key::Rank,
    };
    let place = column_index(columns, condition.column)?;
    let column = columns.get(place)?;
    if condition.literal.has_type(column.ty) {
        Some((place, key))
    } else {
        None
    }
}

/// Whether one of the assignments is to the column at this place.
fn assigns(columns: &[Column], sets: &[Assignment], place: usize) -> bool
    ensures { result ≡ assigns columns.now sets.now place }
{
    sets.iter()
        .any(|set| column_index(columns, set.column) == Some(place))
}

impl Indexes {
    /// No indexes, of a table that gets some from so many rows on. It takes no memory.
    pub fn new(alloc: Global, least: usize) -> Indexes
        ensures { result.kept.items ≡ [] }
    {
        Indexes {
            alloc,
            least,
            kept: Vec::new(alloc),
        }
    }

    /// Notes a row that is new in a table of so many rows.
    #[inline(always)]
    pub fn note(&mut self, number: u64, row: &Row, rows: usize)
        ensures kept { (r : Numbered)
            → EachLists self.old.kept.items r
            → EachLists self.new.kept.items r }
        ensures noted { EachLists self.new.kept.items (number, row.now) }
    {
        if !self.kept.is_empty() {
            self.note_in_each(number, row, rows);
        }
    }

    fn note_in_each(&mut self, number: u64, row: &Row, rows: usize)
        ensures kept { (r : Numbered)
            → EachLists self.old.kept.items r
            → EachLists self.new.kept.items r }
        ensures noted { EachLists self.new.kept.items (number, row.now) }
    {
        for at in 0..self.kept.len() {
            let column = &mut self.kept[at];
            column.note(number, row);
            column.age(1, 0, rows);
        }
    }

    /// Notes rows in which the assignments were made, in a table of so many rows: what is listed of
    /// the rows that they were made of is listed of the rows that were made.
    pub fn note_changed(
        &mut self,
        columns: &[Column],
        sets: &[Assignment],
        changed: &[NumberedRow],
        rows: usize,
    )
        ensures kept { (r : Numbered)
            → EachLists self.old.kept.items r
            → EachLists self.new.kept.items r }
        ensures noted { (was : List Numbered)
            → changed.now ≡ map (assigned_row columns.now sets.now) was
            → ListAll self.old.kept.items was
            → ListAll self.new.kept.items changed.now }
    {
        for at in 0..self.kept.len() {
            let column = &mut self.kept[at];
            if !assigns(columns, sets, column.place) {
                continue;
            }
            column.note_changed(changed);
            column.age(changed.len(), changed.len(), rows);
        }
    }

    /// Notes that so many rows were dropped of a table, and how many are left.
    pub fn note_dropped(&mut self, dropped: usize, rows: usize)
        ensures { (r : Numbered)
            → EachLists self.old.kept.items r
            → EachLists self.new.kept.items r }
    {
        for at in 0..self.kept.len() {
            self.kept[at].age(dropped, dropped, rows);
        }
    }

    /// Where the column at this place is kept in mind, as asked for by such keys.
    fn position(&self, place: usize, key: Key) -> Option<usize>
        ensures { IfSome result (λ at. at < length self.now.kept.items) }
    {
        self.kept
            .iter()
            .position(|column| column.place == place && column.key == key)
    }

    /// A column without an index, among those that are kept in mind.
    fn idle(&self) -> Option<usize>
        ensures { IfSome result (λ at. at < length self.now.kept.items) }
    {
        self.kept.iter().position(|column| column.index.is_none())
    }

    /// Keeps in mind that a column was asked for, and makes some more of its index where it was
    /// before.
    fn ask(&mut self, question: &Question<'_>, rows: &Store<Row>)
        ensures { ListAll self.old.kept.items rows.now.contents
            → ListAll self.new.kept.items rows.now.contents }
    {
        if let Some(at) = self.position(question.place, question.key) {
            self.kept[at].ask(self.alloc, question, rows);
        } else if self.kept.len() < MOST {
            drop(
                self.kept
                    .push(ColumnIndex::asked_once(question.place, question.key)),
            );
        } else if let Some(at) = self.idle() {
            self.kept[at].turn_to(question.place, question.key);
        }
    }

    /// Prepares for a look-up of the rows that a filter chooses, in a table into which so many rows
    /// were ever inserted: a column gets an index once it is asked for again, where there are many
    /// rows. Both ends of an interval are one question, where they stand side by side.
    pub fn prepare(
        &mut self,
        columns: &[Column],
        rows: &Store<Row>,
        inserted: u64,
        filter: &[Condition],
    )
        ensures { ListAll self.old.kept.items rows.now.contents
            → ListAll self.new.kept.items rows.now.contents }
    {
        if rows.len() < self.least {
            return;
        }
        let mut last = None;
        for condition in filter {
            let Some((place, key)) = asked_of(columns, condition) else {
                continue;
            };
            if key == Key::Rank && last == Some(place) {
                continue;
            }
            let question = Question {
                columns,
                filter,
                place,
                key,
                inserted,
            };
            self.ask(&question, rows);
            last = Some(place);
        }
    }

    /// Of the indexes that list few of so many rows for the filter the one that lists fewest, and
    /// the interval in which it lists all that the filter chooses.
    fn narrowest<'a>(
        &'a self,
        conditions: &Resolved<'_, Condition>,
        rows: usize,
    ) -> Option<(&'a Index, Interval)>
        ensures { IfSome result (λ best. ListsEachPassing self.now.kept.items
            (satisfies conditions.now.columns.now conditions.now.items.now)
            (listed best.0.now best.1)) }
    {
        let mut best = None;
        let mut fewest = usize::MAX;
        for column in self.kept.as_slice() {
            let Some(index) = column.whole() else {
                continue;
            };
            let key = index.key();
            let Some(interval) = interval_at(conditions, column.place, key) else {
                continue;
            };
            let count = index.count(interval);
            if count >= fewest || !are_few(key, count, rows) {
                continue;
            }
            fewest = count;
            best = Some((index, interval));
        }
        best
    }

    /// Numbers in rising order, among which are those of all rows that the filter chooses, in a
    /// table of so many rows. None where no index lists few rows for it, or memory is refused.
    fn candidates(&self, conditions: &Resolved<'_, Condition>, rows: usize) -> Option<Vec<u64>>
        ensures rising { IfSome result (λ numbers. IsStrictlyIncreasing numbers.items) }
        ensures all { IfSome result (λ numbers. ListsEachPassing self.now.kept.items
            (satisfies conditions.now.columns.now conditions.now.items.now)
            numbers.items) }
    {
        let (index, interval) = self.narrowest(conditions, rows)?;
        let Ok(numbers) = index.numbers(interval) else {
            return None;
        };
        Some(numbers)
    }

    /// The numbers of the rows that the filter chooses, in rising order, found by an index. None
    /// where no index lists few rows for it, or memory is refused.
    pub fn find(&self, conditions: &Resolved<'_, Condition>, rows: &Store<Row>) -> Option<Vec<u64>>
        requires { ListAll self.now.kept.items rows.now.contents }
        ensures found { IfSome result (λ numbers. rows_at numbers.items rows.now.contents
            ≡ filter (satisfies conditions.now.columns.now conditions.now.items.now)
            rows.now.contents) }
        ensures left { IfSome result (λ numbers. without_rows numbers.items rows.now.contents
            ≡ filter
            (λ r. not (satisfies conditions.now.columns.now conditions.now.items.now r))
            rows.now.contents) }
    {
        if self.kept.is_empty() {
            return None;
        }
        let mut numbers = self.candidates(conditions, rows.len())?;
        keep_chosen(conditions, rows, &mut numbers);
        Some(numbers)
    }
}
