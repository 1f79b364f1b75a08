//! The formats of a result's columns.
ghost use Rattle.std.specs.Prelude.{◌≡◌, ◌≤◌, ◌<◌, ◌++◌, ◌∷◌, [], length, replicate};

use messages_core::Format;
use reader_core::MAX_ITEMS;
use std::marker::Model;

/// The format of each column of a result, of which there are at most 32. Contracts see the list of them.
#[derive(Drop)]
pub struct Formats {
    formats: [Format; MAX_ITEMS],
    count: usize,
}

impl Model for Formats {
    ghost use Rattle.std.specs.Prelude.{◌≡◌, ◌≤◌, List, length, take};
    ghost use Rattle.messages_core.specs.declared.rows.Format.{Format as Item};
    ghost use Rattle.reader_core.specs.declared.statement.TheConstants.{MAX_ITEMS};

    ghost Value = { List Item };

    ghost view = { λ f. take f.count f.formats };

    ghost invariant = { λ f. (f.count ≤ MAX_ITEMS) × (length f.formats ≡ MAX_ITEMS) };
}

impl Formats {
    /// So many columns, all in this format. It takes no memory.
    pub fn all(format: Format, count: usize) -> Formats
        requires { count ≤ MAX_ITEMS }
        ensures { result ≡ replicate count format }
    {
        let formats = [format; MAX_ITEMS];
        Formats { formats, count }
    }

    /// One more column, behind the others. It takes no memory.
    pub fn push(&mut self, format: Format)
        requires { length self.old < MAX_ITEMS }
        ensures { self.new ≡ self.old ++ format ∷ [] }
    {
        let count = self.count;
        self.formats[count] = format;
        self.count = count + 1;
    }

    /// The formats, in the order of the columns.
    pub fn as_slice(&self) -> &[Format]
        ensures formats { result.now ≡ self.now }
        ensures few { length result.now ≤ MAX_ITEMS }
    {
        &self.formats[..self.count]
    }
}
