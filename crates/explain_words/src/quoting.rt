//! Lines of the script, quoted.

use crate::past::Past;
use crate::prose::Prose;
use base_core::{Moment, NoMemory};
use printer_core::Page;
use std::alloc::Global;

/// Room for the lines that are quoted.
#[derive(Drop)]
pub struct Quotes {
    alloc: Global,
    page: Page,
}

impl Quotes {
    /// A page to quote on. `NoMemory` where a request for memory was refused.
    pub fn new(alloc: Global) -> Result<Quotes, NoMemory> {
        let page = Page::new(alloc)?;
        Ok(Quotes { alloc, page })
    }

    /// What the change of this moment says, `di: GRANT SELECT ON pay TO eve`.
    pub fn put_statement(&mut self, text: &mut Prose, past: &Past<'_>, at: Moment) {
        let Some(entry) = past.entry_of(at) else {
            return;
        };
        if let Some(line) = self.page.line_if_short(entry.user, &entry.statement) {
            text.put(&line[..line.len().saturating_sub(1)]);
        }
    }

    /// The line that made the change of this moment, `line 15: di: GRANT SELECT ON pay TO eve`. Of
    /// a change that is only supposed there is no number.
    pub fn of(&mut self, past: &Past<'_>, at: Moment) -> Prose {
        let mut text = Prose::new(self.alloc);
        if let Some(number) = past.line_of(at) {
            text.put(b"line ");
            text.put_number(number);
            text.put(b": ");
        }
        self.put_statement(&mut text, past, at);
        text
    }
}
