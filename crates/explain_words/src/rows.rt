//! Rows of a text, with what stands behind them in one column.

use crate::prose::Prose;
use crate::shortage::found_or_short;
use base_core::NoMemory;
use std::alloc::Global;

/// How many lines of one kind stand under one another before they are folded.
const MOST_LINES: usize = 24;

/// How many of the first, and of the last, are shown then.
const ENDS: usize = 10;

/// How far a row reaches whose right side stands in the column.
const WIDEST_ROW: usize = 100;

/// What stands on the left, and what behind it.
#[derive(Drop)]
struct Row {
    left: Prose,
    right: Prose,
}

/// Rows that share a column. Where a request for memory is refused, some are left out, and the text
/// that they are written to says so.
#[derive(Drop)]
pub struct Rows {
    alloc: Global,
    rows: Vec<Row>,
    is_short: bool,
}

/// What is shown of a list at one of its places.
#[derive(Clone, Copy)]
pub enum Shown {
    Item,
    /// That so many more stand there.
    More(usize),
    Nothing,
}

/// What is shown at this place of a list of so many.
pub fn shown_at(at: usize, count: usize) -> Shown {
    if count <= MOST_LINES || at < ENDS || at >= count - ENDS {
        return Shown::Item;
    }
    if at == ENDS {
        Shown::More(count - 2 * ENDS)
    } else {
        Shown::Nothing
    }
}

/// That so many more stand here: `.. 7 more ..`.
pub fn put_more(text: &mut Prose, count: usize) {
    text.put(b".. ");
    text.put_number(count as u64);
    text.put(b" more ..");
}

/// The blanks at the front of a text.
fn indent_of(left: &[u8]) -> usize {
    match left.iter().position(|byte| *byte != b' ') {
        Some(at) => at,
        None => 0,
    }
}

impl Rows {
    /// No rows yet.
    pub fn new(alloc: Global) -> Rows {
        Rows {
            alloc,
            rows: Vec::new(alloc),
            is_short: false,
        }
    }

    /// Whether there is no row.
    pub fn is_empty(&self) -> bool {
        self.rows.is_empty()
    }

    /// Notes whether something is left out.
    pub fn note(&mut self, is_short: bool) {
        self.is_short |= is_short;
    }

    /// What was found to be told. Nothing is, where a request for memory was refused.
    pub fn found<T: Drop>(&mut self, found: Result<Vec<T>, NoMemory>) -> Vec<T> {
        found_or_short(self.alloc, found, &mut self.is_short)
    }

    fn push_row(&mut self, row: Row) {
        let is_short = self.rows.push(row).is_err();
        self.note(is_short);
    }

    /// Appends a row of two columns.
    pub fn push(&mut self, left: Prose, right: Prose) {
        self.push_row(Row { left, right });
    }

    /// A row with nothing behind it.
    pub fn push_alone(&mut self, left: Prose) {
        self.push(left, Prose::new(self.alloc));
    }

    /// A row that says that so many more stand here, behind so many blanks.
    pub fn push_more(&mut self, indent: usize, count: usize) {
        let mut left = Prose::new(self.alloc);
        left.put_blanks(indent);
        put_more(&mut left, count);
        self.push_alone(left);
    }

    /// Appends other rows.
    pub fn append(&mut self, others: Rows) {
        let Rows { rows, is_short, .. } = others;
        self.note(is_short);
        for row in rows {
            self.push_row(row);
        }
    }

    /// Whether the other rows say the same, and nothing is left out of both.
    pub fn same(&self, others: &Rows) -> bool {
        if self.is_short || others.is_short || self.rows.len() != others.rows.len() {
            return false;
        }
        for at in 0..self.rows.len() {
            if !self.rows[at].same(&others.rows[at]) {
                return false;
            }
        }
        true
    }

    /// The column: behind the widest left side that has room for what is behind it.
    fn column(&self) -> usize {
        let mut widest = 0;
        for row in &self.rows {
            widest = widest.max(row.reach());
        }
        widest.saturating_add(2)
    }

    /// Writes the rows as lines. What does not fit behind its row stands below it.
    pub fn write(&self, text: &mut Prose) {
        let column = self.column();
        text.note(self.is_short);
        for row in &self.rows {
            row.write(text, column);
        }
    }
}

/// Whether a right side of so many bytes has room in the column.
fn has_room(column: usize, width: usize) -> bool {
    width <= WIDEST_ROW.saturating_sub(column)
}

impl Row {
    /// Whether the other row says the same, and nothing is left out of both.
    fn same(&self, other: &Row) -> bool {
        self.left.same(&other.left) && self.right.same(&other.right)
    }

    /// How far its left side reaches, if there is room behind it for the right side.
    fn reach(&self) -> usize {
        let (left, right) = (self.left.as_slice(), self.right.as_slice());
        let is_wide = left.len().saturating_add(right.len()) > WIDEST_ROW - 2;
        if right.is_empty() || is_wide {
            0
        } else {
            left.len()
        }
    }

    fn write(&self, text: &mut Prose, column: usize) {
        let (left, right) = (self.left.as_slice(), self.right.as_slice());
        text.append(&self.left);
        text.note(self.right.is_short());
        if right.is_empty() {
            return text.put(b"\n");
        }
        match column.checked_sub(left.len()) {
            Some(gap) if gap >= 2 && has_room(column, right.len()) => text.put_blanks(gap),
            _ => {
                text.put(b"\n");
                text.put_blanks(indent_of(left).saturating_add(4));
            }
        }
        text.append(&self.right);
        text.put(b"\n");
    }
}
