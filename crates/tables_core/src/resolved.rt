//! What a statement says of columns, with the columns looked up once for all rows.
ghost use Rattle.std.specs.Prelude.{◌≡◌, Some, slice_get};
ghost use Rattle.base_core.specs.Filter.{column_index};
ghost use Rattle.tables_core.specs.Resolving.{AreResolved};

use base_core::{Column, Named, column_index};

/// How many indexes are kept. The columns of further items are looked up each time.
const KEPT: usize = 32;

/// Items that name columns, with the indexes of these columns. It takes no memory.
#[derive(Drop)]
pub struct Resolved<'a, T: Named> {
    columns: &'a [Column],
    items: &'a [T],
    indexes: [Option<usize>; KEPT],
    ghost found: { AreResolved T.name_of columns.now items.now indexes },
}

/// The indexes of the columns that the first items name, and behind them None.
fn indexes_of<T: Named>(columns: &[Column], items: &[T]) -> [Option<usize>; KEPT]
    ensures { AreResolved T.name_of columns.now items.now result }
{
    let mut indexes = [None; KEPT];
    for at in 0..items.len().min(KEPT) {
        indexes[at] = column_index(columns, items[at].name());
    }
    indexes
}

impl<'a, T: Named> Resolved<'a, T> {
    /// Looks the columns up.
    pub fn new(columns: &'a [Column], items: &'a [T]) -> Resolved<'a, T>
        ensures columns { result.columns.now ≡ columns.now }
        ensures items { result.items.now ≡ items.now }
    {
        let indexes = indexes_of(columns, items);
        Resolved {
            columns,
            items,
            indexes,
        }
    }

    /// The columns, in order.
    pub fn columns(&self) -> &'a [Column]
        ensures { result.now ≡ self.now.columns.now }
    {
        self.columns
    }

    /// The items, in order.
    pub fn items(&self) -> &'a [T]
        ensures { result.now ≡ self.now.items.now }
    {
        self.items
    }

    /// The index of the column that the item at this place of the list names. None where there is
    /// no such column.
    #[inline(always)]
    pub fn index_of(&self, at: usize, item: &T) -> Option<usize>
        requires { slice_get self.now.items.now at ≡ Some item.now }
        ensures { result ≡ column_index self.now.columns.now (T.name_of item.now) }
    {
        if at < KEPT {
            self.indexes[at]
        } else {
            column_index(self.columns, item.name())
        }
    }
}
