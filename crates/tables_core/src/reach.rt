//! How far an index was made.
ghost use Rattle.std.specs.Prelude.{◌↔◌, IsTrue};
ghost use Rattle.tables_core.specs.Indexing.{IsReached};

/// Which rows an index lists. It is made in the order of their numbers.
#[derive(Clone, Copy)]
pub enum Reach {
    /// Those with numbers below this one.
    Below(u64),
    /// All rows.
    Whole,
}

impl Reach {
    /// Whether the row of this number has to be listed.
    pub fn has(self, number: u64) -> bool
        ensures { IsTrue result ↔ IsReached self number }
    {
        match self {
            Reach::Below(end) => number < end,
            Reach::Whole => true,
        }
    }
}
