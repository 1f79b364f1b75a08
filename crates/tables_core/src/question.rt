//! What a filter asks of one column, and whether an index would serve it.

use crate::interval::interval_at;
use crate::resolved::Resolved;
use base_core::{Column, Condition, Row};
use copyup_core::Store;
use index_core::{Interval, Key};

/// So many rows are looked at before an index is made.
const SAMPLE: usize = 64;

/// An index by fingerprints serves where there are more than so many times the rows that it lists.
const VALUE_FRACTION: usize = 8;

/// An index by ranks serves where there are at least so many times the rows that it lists.
const ORDER_FRACTION: usize = 4;

/// Whether so many of these rows are few enough that an index by such keys serves.
pub fn are_few(key: Key, listed: usize, rows: usize) -> bool {
    match key {
        Key::Fingerprint => listed < rows / VALUE_FRACTION,
        Key::Rank => listed <= rows / ORDER_FRACTION,
    }
}

/// What a filter asks of one column of a table.
#[derive(Drop)]
pub struct Question<'a> {
    pub columns: &'a [Column],
    pub filter: &'a [Condition],
    /// Where the column stands among them.
    pub place: usize,
    /// By which keys an index finds the rows.
    pub key: Key,
    /// How many rows were ever inserted into the table.
    pub inserted: u64,
}

impl Question<'_> {
    /// Whether the row has a value within the interval.
    fn admits(&self, interval: Interval, row: &Row) -> bool {
        match row.values.as_slice().get(self.place) {
            Some(value) => interval.has(self.key, value),
            None => false,
        }
    }

    /// Whether it finds so few of the rows that an index serves, by a sample of them that is spread
    /// evenly over their numbers.
    pub fn finds_few(&self, rows: &Store<Row>) -> bool {
        let conditions = Resolved::new(self.columns, self.filter);
        let Some(interval) = interval_at(&conditions, self.place, self.key) else {
            return false;
        };
        let Some((first, _)) = rows.next_from(0) else {
            return false;
        };
        let step = self.inserted.saturating_sub(first) / SAMPLE as u64 + 1;
        let mut number = first;
        let mut found = 0;
        for seen in 0..SAMPLE {
            let Some((at, row)) = rows.next_from(number) else {
                return are_few(self.key, found, seen);
            };
            if self.admits(interval, row) {
                found += 1;
            }
            number = at.saturating_add(step);
        }
        are_few(self.key, found, SAMPLE)
    }
}
