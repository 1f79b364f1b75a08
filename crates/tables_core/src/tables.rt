//! All tables, by name.
ghost use Rattle.std.specs.Prelude.{IfSome, ◌≡◌, ◌+◌, ◌≤◌, ◌<◌, ◌^◌, ◌%◌, ◌↔◌, ◌++◌, ◌∷◌, [], IfOk, OnOk, OnErr, IsTrue, IsSome, IsSomeAnd, Some, None, slice_get, min, length, take, sum_by, option_map};
ghost use Rattle.std.specs.Option.{option_copied, option_map_or};
ghost use Rattle.std.specs.List.{IsDistinct};
ghost use Rattle.std.specs.Map.{keys_of};
ghost use Rattle.base_core.specs.Words.{same_name};
ghost use Rattle.tables_core.specs.Contents.{all_rows, rows_by_table, rest_at, with_rows_given, empty_table, with_row, without_chosen_rows, with_updated_rows, selected_rows, table_of, column_of, with_change};
ghost use Rattle.tables_core.specs.Fitting.{ColumnsDiffer, ValuesFit, AssignmentsFit, IsWellTyped};

mod foreseeing;

use crate::capture::next_number;
use crate::table::Table;
use crate::walk::Walk;
use base_core::{
    Assignment, Column, Condition, Name, NoMemory, Row, Sequence, User, Value, column_index,
};
use copyup_core::Store;
use indexmap::IndexMap;
use std::alloc::Global;
use std::marker::Model;

/// A table of fewer rows gets no index, unless another number was asked for.
const MANY: usize = 256;

/// One of several tables, to look at. It is `Copy`.
#[derive(Clone, Copy)]
pub struct TableView<'a> {
    pub name: Name,
    pub owner: User,
    pub columns: &'a [Column],
    /// How many rows were ever inserted: the number of the next one.
    pub inserted: u64,
    /// The rows that the table has, each with its number, in the order of these.
    pub rows: &'a Store<Row>,
}

/// Tables in the order of their creation, and at most one capture of them all. Contracts see the
/// list of the tables, each with its name, as the `tables` of a record, and the rows that the
/// capture has still to give, table by table, as its `rest`.
#[derive(Drop)]
pub struct Tables {
    alloc: Global,
    tables: IndexMap<Name, Table>,
    walk: Walk,
    total: usize,
    /// A table of fewer rows gets no index.
    least: usize,
}

impl Model for Tables {
    ghost use Rattle.tables_core.specs.Contents.{Database};
    ghost use Rattle.tables_core.specs.Capture.{shown_tables, rest_in, IsWalk};

    ghost Value = { Database };

    ghost view = { λ t. record {
      tables = shown_tables t.tables.entries;
      rest = rest_in t.walk t.tables.entries;
    } };

    ghost invariant = { λ t. IsWalk t.tables.entries t.walk t.total };
}

impl Tables {
    /// No tables. It takes no memory.
    pub fn new(alloc: Global) -> Tables
        ensures { result ≡ record { tables = []; rest = [] } }
    {
        Tables::indexed_from(alloc, MANY)
    }

    /// No tables, of which each gets indexes from so many rows on. It takes no memory.
    pub fn indexed_from(alloc: Global, least: usize) -> Tables
        ensures { result ≡ record { tables = []; rest = [] } }
    {
        Tables {
            alloc,
            tables: IndexMap::new(alloc),
            walk: Walk {
                number: 0,
                end: 0,
                left: 0,
            },
            total: 0,
            least,
        }
    }

    /// The table of this name, as it is kept.
    #[inline(always)]
    fn find(&self, name: Name) -> Option<&Table>
        ensures { option_map (λ t. t.now.contents) result ≡ table_of self.now.tables name }
    {
        self.tables.get(&name)
    }

    /// How many tables there are. No two of them have one name.
    pub fn len(&self) -> usize
        ensures count { result ≡ length self.now.tables }
        ensures names { IsDistinct same_name (keys_of self.now.tables) }
    {
        self.tables.len()
    }

    /// Whether there is no table.
    pub fn is_empty(&self) -> bool
        ensures { IsTrue result ↔ (self.now.tables ≡ []) }
    {
        self.tables.is_empty()
    }

    /// The name of the table at this place in the order of creation, counted from 0. None from the
    /// number of tables on.
    pub fn name_at(&self, index: usize) -> Option<Name>
        ensures { result ≡ option_map (λ t. t.0) (slice_get self.now.tables index) }
    {
        let (name, _) = self.tables.get_index(index)?;
        Some(*name)
    }

    /// The table at this place in the order of creation, counted from 0. None from the number of
    /// tables on. With it all tables can be gone through, row by row. Its columns have different
    /// names, and its rows fit them.
    pub fn at(&self, index: usize) -> Option<TableView<'_>>
        ensures shown { option_map
            (λ v. (
              v.name,
              record {
                owner = v.owner;
                columns = v.columns.now;
                inserted = v.inserted;
                rows = v.rows.now.contents;
              },
            ))
            result
            ≡ slice_get self.now.tables index }
        ensures typed { IfSome (slice_get self.now.tables index) (λ t. IsWellTyped t.1) }
    {
        let (name, table) = self.tables.get_index(index)?;
        Some(TableView {
            name: *name,
            owner: table.owner(),
            columns: table.columns(),
            inserted: table.inserted(),
            rows: table.rows(),
        })
    }

    /// The owner of the table of this name. None where there is no such table.
    pub fn owner(&self, name: Name) -> Option<User>
        ensures { result ≡ option_map (λ t. t.owner) (table_of self.now.tables name) }
    {
        Some(self.find(name)?.owner())
    }

    /// The columns of the table of this name, in order. None where there is no such table.
    pub fn columns(&self, name: Name) -> Option<&[Column]>
        ensures { option_copied result
            ≡ option_map (λ t. t.columns) (table_of self.now.tables name) }
    {
        Some(self.find(name)?.columns())
    }

    /// The column of this name in the table of that name. None where there is no such table, or no
    /// such column in it.
    pub fn column(&self, name: Name, column: Name) -> Option<Column>
        ensures { result ≡ column_of self.now.tables name column }
    {
        let columns = self.find(name)?.columns();
        columns.get(column_index(columns, column)?).copied()
    }

    /// How many rows the table of this name has now. 0 where there is no such table.
    pub fn row_count(&self, name: Name) -> usize
        ensures { result ≡ option_map_or (λ t. length t.rows) (table_of self.now.tables name) 0 }
    {
        match self.find(name) {
            Some(table) => table.row_count(),
            None => 0,
        }
    }

    /// How many rows all tables have now, as far as 64 bits count. It is constant.
    pub fn row_total(&self) -> usize
        ensures { result ≡ length (all_rows self.now.tables) % 2 ^ 64 }
    {
        self.total
    }

    /// How many rows were ever inserted into the table of this name: the number of the next one.
    /// 0 where there is no such table.
    pub fn inserted(&self, name: Name) -> u64
        ensures { result ≡ option_map_or (λ t. t.inserted) (table_of self.now.tables name) 0 }
    {
        match self.find(name) {
            Some(table) => table.inserted(),
            None => 0,
        }
    }

    /// Whether there is a table of this name, and the values fit its columns: as many as there are,
    /// each of its column's type.
    pub fn takes_row(&self, name: Name, values: &[Value]) -> bool
        ensures { IsTrue result
            ↔ IsSomeAnd (table_of self.now.tables name) (λ t. ValuesFit t.columns values.now) }
    {
        match self.find(name) {
            Some(table) => table.takes_row(values),
            None => false,
        }
    }

    /// Whether there is a table of this name, and each value that is assigned to one of its columns
    /// is of that column's type.
    pub fn takes_assignments(&self, name: Name, sets: &[Assignment]) -> bool
        ensures { IsTrue result
            ↔ IsSomeAnd (table_of self.now.tables name) (λ t. AssignmentsFit t.columns sets.now) }
    {
        match self.find(name) {
            Some(table) => table.takes_assignments(sets),
            None => false,
        }
    }

    /// Adds a table without rows, behind the others. Its name must be new, and its columns must
    /// have different names, as [`columns_differ`](crate::columns_differ) tells. `NoMemory` where a
    /// request for memory was refused.
    pub fn create(
        &mut self,
        name: Name,
        owner: User,
        columns: Sequence<Column>,
    ) -> Result<(), NoMemory>
        requires new { table_of self.old.tables name ≡ None }
        requires differ { ColumnsDiffer columns }
        ensures ok { OnOk result
            (self.new.tables ≡ self.old.tables ++ (name, empty_table owner columns) ∷ []) }
        ensures rest { self.new.rest ≡ self.old.rest }
        ensures no_memory { OnErr result (self.new ≡ self.old) }
    {
        let table = Table::new(self.alloc, owner, columns, self.walk.number, self.least);
        self.tables.insert(name, table)?;
        Ok(())
    }

    /// Appends a row to a table, under the number of rows inserted before it. The table must be
    /// there, with fewer than 2^63 rows ever inserted, and the row must fit its columns, as
    /// [`takes_row`](Tables::takes_row) tells. `NoMemory` where a request for memory was refused.
    pub fn insert(&mut self, name: Name, row: Row) -> Result<(), NoMemory>
        requires few { IsSomeAnd (table_of self.old.tables name) (λ t. t.inserted < 2 ^ 63) }
        requires fits { IsSomeAnd (table_of self.old.tables name)
            (λ t. ValuesFit t.columns row.values) }
        ensures ok { OnOk result
            (self.new.tables ≡ with_change name (with_row row) self.old.tables) }
        ensures rest { self.new.rest ≡ self.old.rest }
        ensures no_memory { OnErr result (self.new ≡ self.old) }
    {
        let walk = self.walk;
        match self.tables.get_mut(&name) {
            Some(table) => table.insert(walk, row)?,
            None => unreachable!(),
        }
        self.total = self.total.wrapping_add(1);
        Ok(())
    }

    /// Prepares for a [`select`](Tables::select) with this filter: a column that it compares, but by
    /// `<>`, gets an index where it was asked for before, a part of it at each such call, unless
    /// there are few rows, it would not serve, or memory is refused. Nothing that can be seen
    /// changes. Where there is no such table, it does nothing.
    #[inline(never)]
    pub fn prepare(&mut self, name: Name, filter: &[Condition])
        ensures { self.new ≡ self.old }
    {
        if let Some(table) = self.tables.get_mut(&name) {
            table.prepare(filter);
        }
    }

    /// Copies of the rows that the filter chooses, in the order of their numbers, each cut to the
    /// named columns, in the order of these names. The table must be there. `NoMemory` where a
    /// request for memory was refused.
    pub fn select(
        &self,
        name: Name,
        columns: &[Name],
        filter: &[Condition],
    ) -> Result<Vec<Row>, NoMemory>
        requires { IsSome (table_of self.now.tables name) }
        ensures { IfOk result
            (λ rows.
            option_map (selected_rows columns.now filter.now) (table_of self.now.tables name)
            ≡ Some rows.items) }
    {
        match self.find(name) {
            Some(table) => table.select(self.alloc, columns, filter),
            None => unreachable!(),
        }
    }

    /// Makes the assignments, one after the other, in each row that the filter chooses. Rows keep
    /// their places and numbers. The table must be there, and the assignments must fit its columns,
    /// as [`takes_assignments`](Tables::takes_assignments) tells. `NoMemory` where a request for
    /// memory was refused: then no row has changed.
    // What goes over all rows stands out of line, here and below: no INSERT pays for its room.
    #[inline(never)]
    pub fn update(
        &mut self,
        name: Name,
        sets: &[Assignment],
        filter: &[Condition],
    ) -> Result<(), NoMemory>
        requires { IsSomeAnd (table_of self.old.tables name)
            (λ t. AssignmentsFit t.columns sets.now) }
        ensures ok { OnOk result
            (self.new.tables
            ≡ with_change name (with_updated_rows sets.now filter.now) self.old.tables) }
        ensures rest { self.new.rest ≡ self.old.rest }
        ensures no_memory { OnErr result (self.new ≡ self.old) }
    {
        let walk = self.walk;
        match self.tables.get_mut(&name) {
            Some(table) => table.update(self.alloc, walk, sets, filter),
            None => unreachable!(),
        }
    }

    /// Drops the rows that the filter chooses; the others keep their order and numbers. Where there
    /// is no such table, nothing changes.
    #[inline(never)]
    pub fn delete(&mut self, name: Name, filter: &[Condition])
        ensures tables { self.new.tables
            ≡ with_change name (without_chosen_rows filter.now) self.old.tables }
        ensures rest { self.new.rest ≡ self.old.rest }
    {
        let walk = self.walk;
        if let Some(table) = self.tables.get_mut(&name) {
            let dropped = table.delete(walk, filter);
            self.total = self.total.wrapping_sub(dropped);
        }
    }

    /// Begins a capture of all rows as they are now, and drops an older one. There must be fewer
    /// than 2^63 rows in all. It is constant but once in 2^64 captures, and takes no memory.
    pub fn begin(&mut self)
        requires { length (all_rows self.old.tables) < 2 ^ 63 }
        ensures { self.new ≡ record self.old { rest = rows_by_table self.old.tables } }
    {
        let number = next_number(&mut self.tables, self.walk.number);
        self.walk = Walk {
            number,
            end: self.tables.len(),
            left: self.total,
        };
    }

    /// How many tables the capture covers, the first ones in the order of creation. That stays once
    /// no row is left, and is 0 where none was begun, or the last one was given up.
    #[inline]
    pub fn covered(&self) -> usize
        ensures count { result ≡ length self.now.rest }
        ensures within { result ≤ length self.now.tables }
    {
        self.walk.end
    }

    /// How many rows the capture has still to give. 0 where none is active.
    #[inline]
    pub fn left(&self) -> usize
        ensures { result ≡ sum_by length self.now.rest }
    {
        self.walk.left
    }

    /// How many rows the capture has still to give of the table at this place in the order of
    /// creation, counted from 0. 0 where it does not cover that table.
    pub fn left_at(&self, place: usize) -> usize
        ensures { result ≡ length (rest_at place self.now) }
    {
        if !self.walk.covers(place) {
            return 0;
        }
        match self.tables.get_index(place) {
            Some((_, table)) => table.left(self.walk.number),
            None => 0,
        }
    }

    /// Gives the capture up. Where none is active, nothing changes. It is constant, and takes no
    /// memory.
    pub fn abandon(&mut self)
        ensures { self.new ≡ record self.old { rest = [] } }
    {
        self.walk.end = 0;
        self.walk.left = 0;
    }

    /// Appends to `out` the next `count` rows that the capture has still to give of the table at
    /// this place in the order of creation, counted from 0, or all of these: as they were when it
    /// began, and in the order of their numbers, which are left out. It gives how many, so that
    /// fewer than `count` say that the table has no more to give. Of a table that the capture does
    /// not cover it appends none.
    ///
    /// `NoMemory` where a request for memory was refused: then the capture and the rows of `out`
    /// are as before.
    pub fn capture_rows(
        &mut self,
        place: usize,
        out: &mut Vec<Row>,
        count: usize,
    ) -> Result<usize, NoMemory>
        ensures count { IfOk result (λ given. given ≡ min count (length (rest_at place self.old))) }
        ensures items { OnOk result
            (out.new.items ≡ out.old.items ++ take count (rest_at place self.old)) }
        ensures rest { OnOk result (self.new ≡ with_rows_given place count self.old) }
        ensures err { OnErr result (self.new ≡ self.old) }
        ensures out_err { OnErr result (out.new.items ≡ out.old.items) }
    {
        let walk = self.walk;
        if !walk.covers(place) {
            return Ok(0);
        }
        let (_, table) = self.tables.pair_mut(place);
        let given = table.capture_rows(walk.number, out, count)?;
        self.walk.left -= given;
        Ok(given)
    }
}
