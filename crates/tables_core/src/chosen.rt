//! The rows of one table that a filter chooses, with their numbers.
ghost use Rattle.std.specs.Prelude.{◌≡◌, IfOk, filter};
ghost use Rattle.tables_core.specs.Contents.{satisfies};
ghost use Rattle.tables_core.specs.Picking.{rows_at};

use crate::resolved::Resolved;
use crate::rows::NumberedRow;
use crate::scan::Scan;
use base_core::{Condition, NoMemory, Row, Twin};
use copyup_core::Store;
use std::alloc::Global;

/// Those that a walk over all rows finds.
pub fn chosen_scanned(
    alloc: Global,
    rows: &Store<Row>,
    conditions: &Resolved<'_, Condition>,
) -> Result<Vec<NumberedRow>, NoMemory>
    ensures { IfOk result
        (λ chosen.
        chosen.items
        ≡ filter (satisfies conditions.now.columns.now conditions.now.items.now)
        rows.now.contents) }
{
    let scan = Scan::new(conditions);
    let mut chosen = Vec::new(alloc);
    for (number, row) in rows.items() {
        if scan.choose(row) {
            chosen.push((number, row.try_twin()?))?;
        }
    }
    Ok(chosen)
}

/// Those of these numbers.
pub fn chosen_listed(
    alloc: Global,
    rows: &Store<Row>,
    numbers: Vec<u64>,
) -> Result<Vec<NumberedRow>, NoMemory>
    ensures { IfOk result (λ chosen. chosen.items ≡ rows_at numbers.items rows.now.contents) }
{
    let mut chosen = Vec::new(alloc);
    for number in numbers {
        let Some(row) = rows.get(number) else {
            continue;
        };
        chosen.push((number, row.try_twin()?))?;
    }
    Ok(chosen)
}
