//! Work on the rows of one table.
ghost use Rattle.std.specs.Prelude.{◌≡◌, ◌+◌, ◌↔◌, IfOk, IsTrue, map, filter, length, not, true};
ghost use Rattle.std.specs.List.{list_all, zip};
ghost use Rattle.std.specs.Option.{option_copied};
ghost use Rattle.base_core.specs.Filter.{at_index, is_chosen};
ghost use Rattle.base_core.specs.Values.{has_type};
ghost use Rattle.tables_core.specs.Contents.{satisfies, projected_values};
ghost use Rattle.tables_core.specs.Fitting.{ValuesFit, assignment_fits};
ghost use Rattle.tables_core.specs.Indexing.{ListAll};
ghost use Rattle.tables_core.specs.Resolving.{AreNamesInOrder};

use crate::indexes::Indexes;
use crate::listed::drop_listed;
use crate::resolved::Resolved;
use crate::scan::Scan;
use base_core::{
    Assignment, Column, Condition, Name, NoMemory, Row, Twin, Value, ValuesBuilder, column_index,
};
use copyup_core::{Sieve, Store};
use std::alloc::Global;

/// A row, and how many rows were inserted into its table before it.
pub type NumberedRow = (u64, Row);

/// Whether the values fit the columns: as many as there are, each of its column's type.
pub fn fits(columns: &[Column], values: &[Value]) -> bool
    ensures { IsTrue result ↔ ValuesFit columns.now values.now }
{
    columns.len() == values.len() && have_types(columns, values)
}

/// Whether the values are of their columns' types, as far as both go.
fn have_types(columns: &[Column], values: &[Value]) -> bool
    ensures { result ≡ list_all (λ pair. has_type pair.1 pair.0.ty) (zip columns.now values.now) }
{
    columns
        .iter()
        .zip(values)
        .all(|(column, value)| value.has_type(column.ty))
}

/// Whether the column of the assignment's name, if there is one, may hold its value.
fn assignment_fits(columns: &[Column], set: &Assignment) -> bool
    ensures { result ≡ assignment_fits columns.now set.now }
{
    let Some(index) = column_index(columns, set.column) else {
        return true;
    };
    match columns.get(index) {
        Some(column) => set.value.has_type(column.ty),
        None => true,
    }
}

/// Whether each of the assignments fits the columns.
pub fn assignments_fit(columns: &[Column], sets: &[Assignment]) -> bool
    ensures { result ≡ list_all (assignment_fits columns.now) sets.now }
{
    sets.iter().all(|set| assignment_fits(columns, set))
}

/// The value of a row at this index. None where there is no index, or no value there.
pub fn value_at(values: &[Value], index: Option<usize>) -> Option<&Value>
    ensures { option_copied result ≡ at_index values.now index }
{
    values.get(index?)
}

/// The values of the named columns.
fn cut(alloc: Global, names: &Resolved<'_, Name>, values: &[Value]) -> Result<Row, NoMemory>
    ensures { IfOk result
        (λ row.
        row.values ≡ projected_values names.now.columns.now names.now.items.now values.now) }
{
    let mut named = ValuesBuilder::with_capacity(alloc, names.items().len())?;
    for (at, name) in names.items().iter().enumerate() {
        if let Some(value) = value_at(values, names.index_of(at, name)) {
            named.push(value.try_twin()?)?;
        }
    }
    let values = named.build()?;
    Ok(Row { values })
}

/// Whether each name is that of the column at its own place.
pub fn are_in_order(names: &Resolved<'_, Name>) -> bool
    ensures { IsTrue result ↔ AreNamesInOrder names.now.columns.now names.now.items.now }
{
    for (at, name) in names.items().iter().enumerate() {
        if names.index_of(at, name) != Some(at) {
            return false;
        }
    }
    true
}

/// The named columns of a row. One that has all of them in order, and no more, is shared.
pub fn cut_or_shared(
    alloc: Global,
    names: &Resolved<'_, Name>,
    in_order: bool,
    row: &Row,
) -> Result<Row, NoMemory>
    requires { in_order ≡ true → AreNamesInOrder names.now.columns.now names.now.items.now }
    ensures { IfOk result
        (λ cut.
        cut.values
        ≡ projected_values names.now.columns.now names.now.items.now row.now.values) }
{
    if in_order && names.items().len() == row.values.len() {
        return row.try_twin();
    }
    cut(alloc, names, row.values.as_slice())
}

/// The named columns of the rows that the filter chooses.
pub fn rows_scanned(
    alloc: Global,
    names: &Resolved<'_, Name>,
    conditions: &Resolved<'_, Condition>,
    rows: &Store<Row>,
) -> Result<Vec<Row>, NoMemory>
    ensures { IfOk result
        (λ chosen.
        chosen.items
        ≡ map
        (λ r.
        record { values = projected_values names.now.columns.now names.now.items.now r.1.values })
        (filter (satisfies conditions.now.columns.now conditions.now.items.now)
        rows.now.contents)) }
{
    let in_order = are_in_order(names);
    let scan = Scan::new(conditions);
    let mut chosen = Vec::new(alloc);
    for (_, row) in rows.items() {
        if scan.choose(row) {
            chosen.push(cut_or_shared(alloc, names, in_order, row)?)?;
        }
    }
    Ok(chosen)
}

/// Keeps the rows that the filter does not choose.
#[derive(Drop)]
struct Unchosen<'a> {
    scan: Scan<'a>,
}

impl Sieve<Row> for Unchosen<'_> {
    ghost keeps = { λ s row. not (is_chosen
        s.scan.conditions.now.columns.now s.scan.conditions.now.items.now row.values) };

    #[inline(always)]
    fn keeps(&self, row: &Row) -> bool {
        !self.scan.choose(row)
    }
}

/// Drops the rows that the filter chooses.
fn drop_found(rows: &mut Store<Row>, indexes: &Indexes, conditions: &Resolved<'_, Condition>)
    requires { ListAll indexes.now.kept.items rows.old.contents }
    ensures contents { rows.new.contents
        ≡ filter (λ r. not (satisfies conditions.now.columns.now conditions.now.items.now r))
        rows.old.contents }
    ensures next { rows.new.next ≡ rows.old.next }
    ensures rest { rows.new.rest ≡ rows.old.rest }
{
    match indexes.find(conditions, rows) {
        Some(numbers) => drop_listed(rows, numbers),
        None => rows.retain(&Unchosen {
            scan: Scan::new(conditions),
        }),
    }
}

/// Drops the rows that the filter chooses, and says how many.
pub fn drop_chosen(
    columns: &[Column],
    rows: &mut Store<Row>,
    indexes: &Indexes,
    conditions: &[Condition],
) -> usize
    requires { ListAll indexes.now.kept.items rows.old.contents }
    ensures contents { rows.new.contents
        ≡ filter (λ r. not (satisfies columns.now conditions.now r)) rows.old.contents }
    ensures count { result + length rows.new.contents ≡ length rows.old.contents }
    ensures next { rows.new.next ≡ rows.old.next }
    ensures rest { rows.new.rest ≡ rows.old.rest }
{
    let before = rows.len();
    let filter = Resolved::new(columns, conditions);
    drop_found(rows, indexes, &filter);
    before - rows.len()
}
