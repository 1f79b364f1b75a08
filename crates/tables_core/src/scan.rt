//! A filter for a walk over the rows of a table.
ghost use Rattle.std.specs.Prelude.{◌≡◌, [], List, true};
ghost use Rattle.base_core.specs.declared.value.Value.{Value as values};
ghost use Rattle.base_core.specs.Filter.{is_chosen};
ghost use Rattle.tables_core.specs.Bounding.{AdmitsRow};

use crate::bounds::{Bounds, bounds_of};
use crate::resolved::Resolved;
use base_core::{Condition, Row};

/// A filter for a walk over many rows. Most of those that it does not choose are told by one look
/// at one column. One without conditions looks at none.
#[derive(Drop)]
pub struct Scan<'a> {
    conditions: &'a Resolved<'a, Condition>,
    chooses_all: bool,
    bounds: Bounds,
    ghost found: { (row : List values)
        → is_chosen conditions.now.columns.now conditions.now.items.now row ≡ true
        → AdmitsRow bounds row },
    ghost all: { chooses_all ≡ true → conditions.now.items.now ≡ [] },
}

impl<'a> Scan<'a> {
    /// A walk over all rows for these conditions.
    pub fn new(conditions: &'a Resolved<'a, Condition>) -> Scan<'a>
        ensures { result.conditions.now ≡ conditions.now }
    {
        let bounds = bounds_of(conditions);
        let chooses_all = conditions.items().is_empty();
        Scan {
            conditions,
            chooses_all,
            bounds,
        }
    }

    /// Whether the row meets every condition.
    #[inline(always)]
    pub fn choose(&self, row: &Row) -> bool
        ensures { result
            ≡ is_chosen
            self.now.conditions.now.columns.now self.now.conditions.now.items.now
            row.now.values }
    {
        self.chooses_all || self.bounds.admit(row.values.as_slice()) && self.conditions.choose(row)
    }
}
