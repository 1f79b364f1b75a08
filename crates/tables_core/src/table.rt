//! One table.
ghost use Rattle.std.specs.Prelude.{◌≡◌, ◌+◌, ◌<◌, ◌^◌, ◌↔◌, ◌++◌, [], IfOk, OnOk, OnErr, IsTrue, min, length, take, drop};
ghost use Rattle.std.specs.Map.{values_of};
ghost use Rattle.tables_core.specs.Capture.{KeepsDue, due_for};
ghost use Rattle.tables_core.specs.Contents.{empty_table, with_row, without_chosen_rows, with_updated_rows, selected_rows};
ghost use Rattle.tables_core.specs.Fitting.{ColumnsDiffer, ValuesFit, AssignmentsFit, IsWellTyped};

mod foreseeing;

use crate::captured::Captured;
use crate::indexes::Indexes;
use crate::listed::rows_listed;
use crate::resolved::Resolved;
use crate::rows;
use crate::update::update_chosen;
use crate::walk::Walk;
use base_core::{Assignment, Column, Condition, Name, NoMemory, Row, Sequence, User, Value};
use copyup_core::Store;
use std::alloc::Global;
use std::marker::Model;

/// Its rows are in a store, which begins its numbers with 0: `inserted` is the next one.
#[derive(Drop)]
pub struct Table {
    owner: User,
    columns: Sequence<Column>,
    inserted: u64,
    rows: Captured,
    indexes: Indexes,
}

impl Model for Table {
    ghost use Rattle.std.specs.Prelude.{◌≡◌};
    ghost use Rattle.copyup_core.specs.Holding.{due};
    ghost use Rattle.tables_core.specs.Capture.{StoredTable};

    ghost Value = { StoredTable };

    ghost view = { λ t. record {
      contents = record {
        owner = t.owner;
        columns = t.columns;
        inserted = t.inserted;
        rows = t.rows.store.contents;
      };
      capture = t.rows.capture;
      due = due t.rows.store;
    } };

    ghost use Rattle.tables_core.specs.Fitting.{IsWellTyped};
    ghost use Rattle.tables_core.specs.Indexing.{ListAll};

    ghost invariant = { λ t. IsWellTyped (record {
      owner = t.owner;
      columns = t.columns;
      inserted = t.inserted;
      rows = t.rows.store.contents;
    }) × (t.inserted ≡ t.rows.store.next)
        × ListAll t.indexes.kept.items t.rows.store.contents };
}

impl Table {
    /// A table without rows, which has nothing to give for the capture of this number, and gets
    /// indexes from `least` rows on. It takes no memory.
    pub fn new(
        alloc: Global,
        owner: User,
        columns: Sequence<Column>,
        number: u64,
        least: usize,
    ) -> Table
        requires { ColumnsDiffer columns }
        ensures contents { result.contents ≡ empty_table owner columns }
        ensures capture { result.capture ≡ number }
        ensures due { result.due ≡ [] }
    {
        Table {
            owner,
            columns,
            inserted: 0,
            rows: Captured {
                store: Store::new(alloc),
                capture: number,
            },
            indexes: Indexes::new(alloc, least),
        }
    }

    /// Who created the table.
    pub fn owner(&self) -> User
        ensures { result ≡ self.now.contents.owner }
    {
        self.owner
    }

    /// The columns, in order.
    pub fn columns(&self) -> &[Column]
        ensures { result.now ≡ self.now.contents.columns }
    {
        self.columns.as_slice()
    }

    /// How many rows there are.
    pub fn row_count(&self) -> usize
        ensures { result ≡ length self.now.contents.rows }
    {
        self.rows.store.len()
    }

    /// How many rows were ever inserted.
    pub fn inserted(&self) -> u64
        ensures { result ≡ self.now.contents.inserted }
    {
        self.inserted
    }

    /// The rows, in the order of their numbers.
    pub fn rows(&self) -> &Store<Row>
        ensures rows { result.now.contents ≡ self.now.contents.rows }
        ensures typed { IsWellTyped self.now.contents }
    {
        &self.rows.store
    }

    /// Whether the values fit the columns.
    pub fn takes_row(&self, values: &[Value]) -> bool
        ensures { IsTrue result ↔ ValuesFit self.now.contents.columns values.now }
    {
        rows::fits(self.columns.as_slice(), values)
    }

    /// Whether each of the assignments fits the columns.
    pub fn takes_assignments(&self, sets: &[Assignment]) -> bool
        ensures { IsTrue result ↔ AssignmentsFit self.now.contents.columns sets.now }
    {
        rows::assignments_fit(self.columns.as_slice(), sets)
    }

    /// Appends a row under the next number.
    #[inline(always)]
    pub fn insert(&mut self, walk: Walk, row: Row) -> Result<(), NoMemory>
        requires few { self.old.contents.inserted < 2 ^ 63 }
        requires fits { ValuesFit self.old.contents.columns row.values }
        ensures ok { OnOk result (self.new.contents ≡ with_row row self.old.contents) }
        ensures no_memory { OnErr result (self.new.contents ≡ self.old.contents) }
        ensures due { KeepsDue walk self.old self.new }
    {
        let count = self.rows.store.len();
        self.indexes.note(self.inserted, &row, count);
        self.rows.push(walk, row)?;
        self.inserted += 1;
        Ok(())
    }

    /// Prepares for look-ups of the rows that a filter chooses, where an index may serve them.
    pub fn prepare(&mut self, filter: &[Condition])
        ensures { self.new ≡ self.old }
    {
        let columns = self.columns.as_slice();
        self.indexes
            .prepare(columns, &self.rows.store, self.inserted, filter);
    }

    /// The named columns of the chosen rows.
    pub fn select(
        &self,
        alloc: Global,
        names: &[Name],
        filter: &[Condition],
    ) -> Result<Vec<Row>, NoMemory>
        ensures { IfOk result
            (λ rows. rows.items ≡ selected_rows names.now filter.now self.now.contents) }
    {
        let columns = self.columns.as_slice();
        let names = Resolved::new(columns, names);
        let conditions = Resolved::new(columns, filter);
        match self.indexes.find(&conditions, &self.rows.store) {
            Some(numbers) => rows_listed(alloc, &names, &self.rows.store, numbers),
            None => rows::rows_scanned(alloc, &names, &conditions, &self.rows.store),
        }
    }

    /// Makes the assignments in the chosen rows.
    pub fn update(
        &mut self,
        alloc: Global,
        walk: Walk,
        sets: &[Assignment],
        filter: &[Condition],
    ) -> Result<(), NoMemory>
        requires { AssignmentsFit self.old.contents.columns sets.now }
        ensures ok { OnOk result
            (self.new.contents ≡ with_updated_rows sets.now filter.now self.old.contents) }
        ensures no_memory { OnErr result (self.new.contents ≡ self.old.contents) }
        ensures due { KeepsDue walk self.old self.new }
    {
        let columns = self.columns.as_slice();
        self.indexes
            .prepare(columns, &self.rows.store, self.inserted, filter);
        update_chosen(
            alloc,
            walk,
            columns,
            &mut self.rows,
            &mut self.indexes,
            sets,
            filter,
        )
    }

    /// Drops the chosen rows, and says how many.
    pub fn delete(&mut self, walk: Walk, filter: &[Condition]) -> usize
        ensures contents { self.new.contents ≡ without_chosen_rows filter.now self.old.contents }
        ensures count { result + length self.new.contents.rows ≡ length self.old.contents.rows }
        ensures due { KeepsDue walk self.old self.new }
    {
        let columns = self.columns.as_slice();
        self.indexes
            .prepare(columns, &self.rows.store, self.inserted, filter);
        self.rows.prepare(walk);
        let dropped = rows::drop_chosen(columns, &mut self.rows.store, &self.indexes, filter);
        self.indexes.note_dropped(dropped, self.rows.store.len());
        dropped
    }

    /// Lets the table's own capture bear no number.
    pub fn release(&mut self)
        ensures contents { self.new.contents ≡ self.old.contents }
        ensures capture { self.new.capture ≡ 0 }
    {
        self.rows.capture = 0;
    }

    /// How many rows the table has to give for the capture of this number.
    pub fn left(&self, number: u64) -> usize
        ensures { result ≡ length (due_for number self.now) }
    {
        self.rows.left(number)
    }

    /// Appends to `out` the next `count` rows, or all, that the table has to give for the capture
    /// of this number, and gives how many.
    pub fn capture_rows(
        &mut self,
        number: u64,
        out: &mut Vec<Row>,
        count: usize,
    ) -> Result<usize, NoMemory>
        ensures capture { self.new.capture ≡ number }
        ensures contents { self.new.contents ≡ self.old.contents }
        ensures count { IfOk result (λ given. given ≡ min count (length (due_for number self.old))) }
        ensures items { OnOk result
            (out.new.items ≡ out.old.items ++ values_of (take count (due_for number self.old))) }
        ensures left { OnOk result (self.new.due ≡ drop count (due_for number self.old)) }
        ensures err { OnErr result (self.new.due ≡ due_for number self.old) }
        ensures out_err { OnErr result (out.new.items ≡ out.old.items) }
    {
        self.rows.capture_rows(number, out, count)
    }
}
