//! Columns of one table.
ghost use Rattle.std.specs.Prelude.{◌≡◌, ◌↔◌, IsTrue};
ghost use Rattle.std.specs.List.{list_any};
ghost use Rattle.base_core.specs.Words.{same_name};
ghost use Rattle.tables_core.specs.Fitting.{ColumnsDiffer};

use base_core::{Column, Name};

/// Whether the columns have different names, as those of each table do.
pub fn columns_differ(columns: &[Column]) -> bool
    ensures { IsTrue result ↔ ColumnsDiffer columns.now }
{
    let mut rest = columns;
    while let Some((first, others)) = rest.split_first() {
        if is_named(others, first.name) {
            return false;
        }
        rest = others;
    }
    true
}

/// Whether one of the columns has this name.
fn is_named(columns: &[Column], name: Name) -> bool
    ensures { result ≡ list_any (λ c. same_name name c.name) columns.now }
{
    columns.iter().any(|column| name == column.name)
}
