//! A filter on the rows of one table.
ghost use Rattle.std.specs.Prelude.{◌≡◌};
ghost use Rattle.base_core.specs.Filter.{at_index, cell_meets, compares, is_chosen};

use crate::resolved::Resolved;
use crate::rows::value_at;
use base_core::{Condition, Row, Value};

/// Whether a value meets a condition. Never where its type is another than the literal's.
fn meets(value: &Value, condition: &Condition) -> bool
    ensures { result ≡ compares condition.now.comparison value.now condition.now.literal }
{
    if let Value::Int(number) = value {
        if let Value::Int(literal) = &condition.literal {
            return condition.comparison.accepts(number.cmp(literal));
        }
    }
    value.compares(condition.comparison, &condition.literal)
}

/// Whether a row meets a condition on the column at this index. Not where there is none.
#[inline(always)]
fn is_met(condition: &Condition, index: Option<usize>, values: &[Value]) -> bool
    ensures { result ≡ cell_meets condition.now (at_index values.now index) }
{
    match value_at(values, index) {
        Some(value) => meets(value, condition),
        None => false,
    }
}

impl Resolved<'_, Condition> {
    /// Whether the row meets every condition.
    #[inline(always)]
    pub fn choose(&self, row: &Row) -> bool
        ensures { result ≡ is_chosen self.now.columns.now self.now.items.now row.now.values }
    {
        let values = row.values.as_slice();
        for (at, condition) in self.items().iter().enumerate() {
            if !is_met(condition, self.index_of(at, condition), values) {
                return false;
            }
        }
        true
    }
}
