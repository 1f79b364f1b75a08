//! The tables of an image, filled row by row.
ghost use Rattle.std.specs.Prelude.{◌≡◌, ◌+◌, ◌<◌, ◌≤◌, [], ◌∷◌, ◌++◌, min, length, take, sum_by, slice_get, option_map, None, IfOk, OnOk, OnErr};
ghost use Rattle.tables_core.specs.Contents.{rest_at, with_rows_given};
ghost use Rattle.capture_core.specs.Filling.{heads, completed_from, AreGiven, PassesRows};

use crate::image::TableImage;
use base_core::{NoMemory, Row, Sequence};
use std::alloc::Global;
use std::marker::Model;
use std::mem;
use tables_core::{TableView, Tables};

/// The tables that are whole, in order, and the rows so far of the one that comes next.
#[derive(Drop)]
pub(crate) struct Filling {
    alloc: Global,
    whole: Vec<TableImage>,
    rows: Vec<Row>,
}

impl Model for Filling {
    ghost use Rattle.capture_core.specs.Filling.{Filled};

    ghost Value = { Filled };

    ghost view = { λ f. record { whole = f.whole.items; rows = f.rows.items } };
}

impl Filling {
    ghost use Rattle.std.specs.Prelude.{[], ◌∷◌, ◌++◌};
    ghost use Rattle.capture_core.specs.Filling.{image_under};

    /// These tables, which are whole. It takes no memory.
    pub(crate) fn of(alloc: Global, whole: Vec<TableImage>) -> Filling
        ensures { result ≡ record { whole = whole.items; rows = [] } }
    {
        Filling {
            alloc,
            whole,
            rows: Vec::new(alloc),
        }
    }

    /// The tables that are whole.
    pub(crate) fn into_whole(self) -> Vec<TableImage>
        ensures { result.items ≡ self.whole }
    {
        self.whole
    }

    /// The table that comes next, of those that the capture covers.
    fn next<'a>(&self, tables: &'a Tables) -> Option<TableView<'a>>
        ensures head { option_map
            (λ v. record { name = v.name; owner = v.owner; columns = v.columns.now }) result
            ≡ slice_get (heads (length tables.now.rest) tables.now.tables)
            (length self.now.whole) }
        ensures there { length tables.now.rest ≤ length tables.now.tables }
    {
        if self.whole.len() < tables.covered() {
            tables.at(self.whole.len())
        } else {
            None
        }
    }

    /// The table that came next is whole: no row more is of it.
    fn close(&mut self, table: &TableView<'_>) -> Result<(), NoMemory>
        ensures ok { OnOk result (self.new ≡ record {
          whole = self.old.whole
              ++ image_under
              (record { name = table.now.name; owner = table.now.owner; columns = table.now.columns.now })
              self.old.rows
              ∷ [];
          rows = [];
        }) }
        ensures err { OnErr result (self.new ≡ self.old) }
    {
        self.whole.reserve(1)?;
        let columns = table.columns.to_vec(self.alloc)?;
        let rows = mem::replace(&mut self.rows, Vec::new(self.alloc));
        self.whole.push_reserved(TableImage {
            name: table.name,
            owner: table.owner,
            columns: Sequence::from_vec(columns),
            rows: Sequence::from_vec(rows),
        });
        Ok(())
    }

    /// The table that comes next has given all, so it is whole.
    fn close_next(&mut self, tables: &Tables) -> Result<(), NoMemory>
        requires next { length self.old.whole < length tables.now.rest }
        requires given { rest_at (length self.old.whole) tables.now ≡ [] }
        ensures longer { OnOk result (length self.new.whole ≡ length self.old.whole + 1) }
        ensures same { completed_from tables.now self.new ≡ completed_from tables.now self.old }
        ensures err { OnErr result (self.new ≡ self.old) }
    {
        match self.next(tables) {
            Some(table) => self.close(&table),
            None => unreachable!(),
        }
    }

    /// Makes room for all rows of the table that comes next, where none is in yet. So a long list
    /// need not grow, which would move it.
    fn make_room(&mut self, tables: &Tables) -> Result<(), NoMemory>
        ensures { self.new ≡ self.old }
    {
        if self.rows.is_empty() {
            self.rows.reserve_exact(tables.left_at(self.whole.len()))?;
        }
        Ok(())
    }

    /// Takes the next `count` rows of the table that comes next, or all that it has to give.
    fn take_rows(&mut self, tables: &mut Tables, count: usize) -> Result<usize, NoMemory>
        ensures whole { self.new.whole ≡ self.old.whole }
        ensures count { IfOk result (λ taken.
            taken ≡ min count (length (rest_at (length self.old.whole) tables.old))) }
        ensures rows { OnOk result (self.new.rows
            ≡ self.old.rows ++ take count (rest_at (length self.old.whole) tables.old)) }
        ensures rest { OnOk result
            (tables.new ≡ with_rows_given (length self.old.whole) count tables.old) }
        ensures err { OnErr result (self.new ≡ self.old) }
        ensures same_tables { OnErr result (tables.new ≡ tables.old) }
    {
        self.make_room(tables)?;
        tables.capture_rows(self.whole.len(), &mut self.rows, count)
    }

    /// Takes `count` rows of the table that comes next. Where it has fewer to give, it takes these,
    /// and the table is whole.
    fn take_next(&mut self, tables: &mut Tables, count: usize) -> Result<usize, NoMemory>
        requires next { length self.old.whole < length tables.old.rest }
        requires given { AreGiven (take (length self.old.whole) tables.old.rest) }
        ensures passes { PassesRows tables.old tables.new self.old self.new }
        ensures few { IfOk result (λ taken. taken ≤ count) }
        ensures rest { IfOk result (λ taken.
            taken + sum_by length tables.new.rest ≡ sum_by length tables.old.rest) }
        ensures fewer { sum_by length tables.new.rest ≤ sum_by length tables.old.rest }
        ensures on { IfOk result (λ taken.
            0 < count → length self.old.whole < length self.new.whole + taken) }
    {
        let taken = self.take_rows(tables, count)?;
        if taken == count {
            return Ok(taken);
        }
        self.close_next(tables)?;
        Ok(taken)
    }

    /// Takes the next `count` rows that the capture has still to give, or all of them. `NoMemory`
    /// where a request for memory was refused: then those that were taken before it are in.
    pub(crate) fn take(&mut self, tables: &mut Tables, count: usize) -> Result<usize, NoMemory>
        requires { AreGiven (take (length self.old.whole) tables.old.rest) }
        ensures passes { PassesRows tables.old tables.new self.old self.new }
        ensures count { IfOk result (λ taken. taken ≡ min count (sum_by length tables.old.rest)) }
        ensures rest { IfOk result (λ taken.
            taken + sum_by length tables.new.rest ≡ sum_by length tables.old.rest) }
        ensures fewer { sum_by length tables.new.rest ≤ sum_by length tables.old.rest }
    {
        let mut taken = 0;
        while taken < count && self.whole.len() < tables.covered() {
            taken += self.take_next(tables, count - taken)?;
        }
        Ok(taken)
    }

    /// All tables are whole: no row more comes.
    pub(crate) fn finish(&mut self, tables: &Tables) -> Result<(), NoMemory>
        requires { AreGiven tables.now.rest }
        ensures whole { OnOk result (self.new.whole ≡ completed_from tables.now self.old) }
        ensures all { OnOk result
            (slice_get (heads (length tables.now.rest) tables.now.tables) (length self.new.whole)
            ≡ None) }
        ensures same { completed_from tables.now self.new ≡ completed_from tables.now self.old }
    {
        while let Some(table) = self.next(tables) {
            self.close(&table)?;
        }
        Ok(())
    }
}
