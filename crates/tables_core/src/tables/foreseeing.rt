//! What a change of rows would find, and what it would make of a row.
ghost use Rattle.std.specs.Prelude.{◌≡◌, IfOk, IsSome, Some, filter, option_map};
ghost use Rattle.tables_core.specs.Contents.{assigned_values, satisfies, table_of};

use crate::rows::NumberedRow;
use crate::tables::Tables;
use base_core::{Assignment, Condition, Name, NoMemory, Row};

impl Tables {
    /// The rows that the filter chooses, each with its number, in the order of these: those that an
    /// [`update`](Tables::update) or a [`delete`](Tables::delete) with this filter would change. They share
    /// their values with the table's. An index serves where one is kept. The table must be there. `NoMemory`
    /// where a request for memory was refused.
    pub fn chosen(&self, name: Name, conditions: &[Condition]) -> Result<Vec<NumberedRow>, NoMemory>
        requires { IsSome (table_of self.now.tables name) }
        ensures { IfOk result
            (λ rows.
            option_map (λ t. filter (satisfies t.columns conditions.now) t.rows)
            (table_of self.now.tables name)
            ≡ Some rows.items) }
    {
        match self.find(name) {
            Some(table) => table.chosen(self.alloc, conditions),
            None => unreachable!(),
        }
    }

    /// The row as an [`update`](Tables::update) with these assignments would leave it. The table must be
    /// there. `NoMemory` where a request for memory was refused.
    pub fn assigned(&self, name: Name, sets: &[Assignment], row: &Row) -> Result<Row, NoMemory>
        requires { IsSome (table_of self.now.tables name) }
        ensures { IfOk result
            (λ made.
            option_map (λ t. assigned_values t.columns sets.now row.now.values)
            (table_of self.now.tables name)
            ≡ Some made.values) }
    {
        match self.find(name) {
            Some(table) => table.assigned(self.alloc, sets, row),
            None => unreachable!(),
        }
    }
}
