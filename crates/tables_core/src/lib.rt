//! Typed tables in memory: rows under numbers, filters, assignments, and a capture of all of them.
//!
//! A value of [`Tables`] stands for a `Database`, a record of two lists. Its `tables` are in the
//! order of their creation, each with its name, its owner, its columns, the number of rows ever
//! inserted, and the rows that it has now. A row's number is how many rows were inserted into its
//! table before it: it stays when the row is updated, and no later row gets it once the row is
//! deleted. Its `rest` are the rows that a capture has still to give: a list for each table that it
//! covers, which are the first ones.
//!
//! The one contract: each change makes of `tables` exactly what its definition in
//! `specs/Contents.antt` says and leaves `rest` as it is, each look-up answers by `tables`, and a
//! call that answers [`NoMemory`](base_core::NoMemory) leaves `tables` as they were.
//!
//! No two tables have one name, the columns of each have different names, and its rows fit them, as
//! many values as columns and each of its column's type (`specs/Fitting.antt`). So columns, rows
//! and assignments must be so where they are given: [`columns_differ`], [`Tables::takes_row`] and
//! [`Tables::takes_assignments`] tell whether they are.
//!
//! No call checks that columns exist, or that the literals of a filter have their types: a
//! condition on a column that the table hasn't, or on a value of another type than its literal, is
//! not met, a name that is no column is left out of what is selected, and an assignment to it
//! changes nothing. Callers that refuse such names and literals look the column up first, by
//! [`Tables::column`].
//!
//! ```text
//! let mut tables = Tables::new(alloc);
//! tables.create(pay, ann, columns)?;         // pay: wage INTEGER
//! tables.insert(pay, row)?;                  // row 0 is (5)
//! tables.begin();                            // a capture of the one row
//! tables.update(pay, &wage_is_7, &[])?;      // row 0 is (7)
//! tables.select(pay, &[wage], &[])?          // the one row (7)
//! tables.capture_rows(0, &mut out, 100)?     // 1: (5), as it was
//! ```
//!
//! # How a capture works
//!
//! Each table keeps its rows in a [`Store`](copyup_core::Store), which can be captured by itself,
//! by Copy-on-Update. Were `begin` to begin the capture of each store, it would go over all tables.
//! So it only gives the new capture a number, and notes how many tables and rows there are. A table
//! bears the number of the last capture that its own store's was begun for. That is begun for this
//! one before the first change to the table, or when the capture's rows are asked of it. Until then
//! nothing of the table was changed, so that what it has to give is all that it has.
//!
//! ```text
//! begin: capture 4        an INSERT into b           the rows of a, and one of b
//!
//! table   a  b  c         a  b  c                    a  b  c
//! bears   3  3  1         3  4  1                    4  4  1
//! left    5  2  4         5  2  4                    0  1  4
//! ```
//!
//! The rows are asked for table by table, and come without their numbers, straight into the list
//! that the caller has for that table. Once no row of any is left, the capture is over. A table that
//! was created after `begin` is not covered. What a capture that was given up left in a table goes
//! before the next change to that table.
//!
//! # How rows are found
//!
//! A table with many rows, 256 or more, keeps an [`Index`](index_core::Index) of a column that is
//! asked for again: one by fingerprints where `column = literal` asks for it, and one by ranks where
//! `<`, `<=`, `>` or `>=` does. `prepare`, `update` and `delete` ask, each for the columns of its
//! filter; at most eight such questions about a table are kept in mind. `select`, `update` and
//! `delete` take the index that lists fewest rows in the interval which all conditions on its column
//! leave. Where these are fewer than an eighth of the table's, or by ranks a quarter at most, they
//! go over them in the order of their numbers, and else over all rows.
//!
//! **No index is begun that would not serve.** First 64 rows are looked at, which are spread evenly
//! over the numbers. Where too many of them have what is asked for, none is made, and the next 16
//! questions about the column look at none.
//!
//! **An index is made in steps**, one at each question about its column. A step notes the next rows,
//! in the order of their numbers: 8,192, or a 64th of all where that is more. The index answers
//! nothing before it has come to the last row, and until then all rows are gone over. A row that is
//! inserted or changed meanwhile is noted if the index has come to its number, and else later.
//!
//! An index that is whole lists each row that it must, and may list more: an `insert` notes its row
//! and an `update` the new values of the columns that it assigns, and nothing is ever taken out. So
//! each number that is listed is looked up, and the whole filter is asked of the row that is found.
//! What the calls answer does not depend on which indexes there are.
//!
//! ```text
//! rows     0 ann 5    1 bob 7    2 ann 9       index of names: ann 0 2, bob 1
//! update   name = 'bob' WHERE pay = 9          index of names: ann 0 2, bob 1 2
//! delete   WHERE pay = 7                       the same
//! select   WHERE name = 'ann'                  looks up 0 and 2; 2 is 'bob' now: row 0
//! ```
//!
//! No call fails for the sake of an index. One that is refused memory is given up. So is one of
//! whose numbers more may be out of date than the table has rows, one in whose column more than 256
//! rows are changed at once, and one that was not asked for while four times as many rows were
//! changed as there were, and at least 4,096. It is made again when its column is asked for.
//!
//! Where no index serves, a walk goes over all rows and looks at one number of each first. A filter
//! bounds the numbers of the first column that it compares with a number by another comparison than
//! `<>`. A row whose number is out of these bounds is left behind; any other one is asked for the
//! whole filter.
//!
//! # Cost
//!
//! A table is found by its name in constant time, by a hash, however many tables there are. So
//! `len`, `is_empty`, `name_at`, `at`, `owner`, `columns`, `row_count` and `inserted` take constant
//! time, and `create` and `insert` too, but for a growth now and then that moves what is there.
//! `column` and `takes_row` go over the table's columns, `takes_assignments` does so for each
//! assignment, and `columns_differ` for each column. `select`, `update` and `delete` look up once
//! the columns of the first 32 items of each list that they are given, and go once over the rows of
//! the table, with the filter at each row; to that `select` and `update` add a new list of values
//! for each row that the filter chooses. By an index they go over the rows that it lists instead,
//! each with a look-up by its number.
//!
//! To make an index takes one walk over the rows and a sort, in the steps of above. With one each
//! `insert` takes an entry more at the end of a list, and so does each row that an `update` changes
//! in its column. Every 4,096th entry, and the next question about the column, put these in order,
//! and go over 131,072 entries at most, or over a sixteenth of all. So no call waits longer for an
//! index than for that, or for a step, and what values there are changes nothing of it. An index
//! takes 16 bytes for each number that it lists, and up to 64 KiB.
//!
//! `begin`, `covered`, `left`, `left_at` and `abandon` are constant, but that once in 2^64 captures
//! `begin` goes over the tables. `capture_rows` of k copies k rows at most, each by sharing its
//! values. To a change a capture adds two comparisons and what the store keeps for it, and no memory.
//!
//! `create`, `insert`, `select`, `update` and `capture_rows` take memory, and `prepare`, `delete` and
//! an index take some where they get it. No other call does.
#![tactic(auto)]

mod bounds;
mod capture;
mod captured;
mod chosen;
mod column_index;
mod columns;
mod filter;
mod indexes;
mod interval;
mod laws;
mod listed;
mod question;
mod reach;
mod resolved;
mod rows;
mod scan;
mod table;
mod tables;
mod update;
mod walk;

pub use columns::columns_differ;
pub use laws::{look_ups_after_changes, numbers_rise, rows_fit};
pub use rows::NumberedRow;
pub use tables::{TableView, Tables};
