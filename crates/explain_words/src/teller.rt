//! Rows that quote the lines of the script.

use crate::past::Past;
use crate::prose::Prose;
use crate::quoting::Quotes;
use crate::rows::Rows;
use base_core::{Moment, NoMemory};
use std::alloc::Global;
use std::mem;

/// What gathers the rows of an answer.
#[derive(Drop)]
pub struct Teller<'a> {
    pub alloc: Global,
    pub past: Past<'a>,
    pub quotes: Quotes,
    pub rows: Rows,
}

impl<'a> Teller<'a> {
    /// Tells of this past. `NoMemory` where a request for memory was refused.
    pub fn new(alloc: Global, past: Past<'a>) -> Result<Teller<'a>, NoMemory> {
        let quotes = Quotes::new(alloc)?;
        Ok(Teller {
            alloc,
            past,
            quotes,
            rows: Rows::new(alloc),
        })
    }

    /// A text that begins with so many blanks.
    pub fn indented(&self, blanks: usize) -> Prose {
        let mut text = Prose::new(self.alloc);
        text.put_blanks(blanks);
        text
    }

    /// A row with the line of this moment behind it.
    pub fn push_quoted(&mut self, left: Prose, at: Moment) {
        let right = self.quotes.of(&self.past, at);
        self.rows.push(left, right);
    }

    /// The rows so far, which are taken away.
    pub fn take_rows(&mut self) -> Rows {
        mem::replace(&mut self.rows, Rows::new(self.alloc))
    }
}
