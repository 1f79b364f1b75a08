//! The number of a capture of all tables.
ghost use Rattle.std.specs.Prelude.{◌≡◌, map};
ghost use Rattle.std.specs.Map.{values_of};
ghost use Rattle.tables_core.specs.Capture.{CapturesUpTo, due_for, shown_tables};
ghost use Rattle.tables_core.specs.Contents.{rows_by_table};

use crate::table::Table;
use base_core::Name;
use indexmap::IndexMap;
use std::alloc::Global;

/// Lets no table's own capture bear a number.
fn release(tables: &mut IndexMap<Name, Table>)
    ensures shown { shown_tables tables.new.entries ≡ shown_tables tables.old.entries }
    ensures captures { CapturesUpTo 0 tables.new.entries }
{
    for place in 0..tables.len() {
        let (_, table) = tables.pair_mut(place);
        table.release();
    }
}

/// The number of the next capture, for which no table's own was begun.
pub fn next_number(tables: &mut IndexMap<Name, Table>, number: u64) -> u64
    requires { CapturesUpTo number tables.old.entries }
    ensures shown { shown_tables tables.new.entries ≡ shown_tables tables.old.entries }
    ensures captures { CapturesUpTo result tables.new.entries }
    ensures rest { map (λ t. values_of (due_for result t.1)) tables.new.entries
        ≡ rows_by_table (shown_tables tables.new.entries) }
{
    if number < u64::MAX {
        return number + 1;
    }
    release(tables);
    1
}
