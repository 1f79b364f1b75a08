//! What a change of rows would find, and what it would make of a row.
ghost use Rattle.std.specs.Prelude.{◌≡◌, IfOk, filter};
ghost use Rattle.tables_core.specs.Contents.{assigned_values, satisfies};

use crate::chosen::{chosen_listed, chosen_scanned};
use crate::resolved::Resolved;
use crate::rows::NumberedRow;
use crate::table::Table;
use crate::update::with_assignments;
use base_core::{Assignment, Condition, NoMemory, Row};
use std::alloc::Global;

impl Table {
    /// The chosen rows, with their numbers.
    pub fn chosen(
        &self,
        alloc: Global,
        conditions: &[Condition],
    ) -> Result<Vec<NumberedRow>, NoMemory>
        ensures { IfOk result (λ rows. rows.items
            ≡ filter (satisfies self.now.contents.columns conditions.now) self.now.contents.rows) }
    {
        let resolved = Resolved::new(self.columns.as_slice(), conditions);
        match self.indexes.find(&resolved, &self.rows.store) {
            Some(numbers) => chosen_listed(alloc, &self.rows.store, numbers),
            None => chosen_scanned(alloc, &self.rows.store, &resolved),
        }
    }

    /// The row with the assignments made in it.
    pub fn assigned(&self, alloc: Global, sets: &[Assignment], row: &Row) -> Result<Row, NoMemory>
        ensures { IfOk result (λ made. made.values
            ≡ assigned_values self.now.contents.columns sets.now row.now.values) }
    {
        let sets = Resolved::new(self.columns.as_slice(), sets);
        with_assignments(alloc, &sets, row.values.as_slice())
    }
}
