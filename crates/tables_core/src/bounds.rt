//! Bounds that a filter sets to the numbers of one column.
ghost use Rattle.std.specs.Prelude.{◌≡◌, ℤ, ◌≤ℤ◌, List, true};
ghost use Rattle.std.specs.Ordering.{int_cmp};
ghost use Rattle.base_core.specs.declared.value.Value.{Value as values};
ghost use Rattle.base_core.specs.Filter.{accepts, at_index, cell_meets, is_chosen};
ghost use Rattle.tables_core.specs.Bounding.{Admits, AdmitsRow};

use crate::resolved::Resolved;
use base_core::{Comparison, Condition, Value};

/// No row has a value at this place.
const NOWHERE: usize = usize::MAX;

/// The least and the greatest number that a filter may choose at one place of a row. At no place
/// where a filter bounds no number.
#[derive(Clone, Copy)]
pub struct Bounds {
    place: usize,
    low: i64,
    high: i64,
}

impl Bounds {
    /// Those that any number keeps.
    fn widest(place: usize) -> Bounds
        ensures place { result.place ≡ place }
        ensures kept { (n : ℤ) → Admits result n }
    {
        Bounds {
            place,
            low: i64::MIN,
            high: i64::MAX,
        }
    }

    /// These bounds, or where they are at no place yet, the widest at this one.
    fn started_at(self, place: usize) -> Bounds
        ensures { (row : List values) → AdmitsRow self row → AdmitsRow result row }
    {
        if self.place == NOWHERE {
            Bounds::widest(place)
        } else {
            self
        }
    }

    /// Those of them that are at least this number.
    fn at_least(self, number: i64) -> Bounds
        ensures place { result.place ≡ self.place }
        ensures kept { (n : ℤ) → Admits self n → number ≤ℤ n → Admits result n }
    {
        Bounds {
            place: self.place,
            low: self.low.max(number),
            high: self.high,
        }
    }

    /// Those of them that are at most this number.
    fn at_most(self, number: i64) -> Bounds
        ensures place { result.place ≡ self.place }
        ensures kept { (n : ℤ) → Admits self n → n ≤ℤ number → Admits result n }
    {
        Bounds {
            place: self.place,
            low: self.low,
            high: self.high.min(number),
        }
    }

    /// Those of them that stand so to the literal.
    fn narrowed(self, comparison: Comparison, literal: i64) -> Bounds
        ensures place { result.place ≡ self.place }
        ensures kept { (n : ℤ)
            → Admits self n
            → accepts comparison (int_cmp n literal) ≡ true
            → Admits result n }
    {
        match comparison {
            Comparison::Equal => self.at_least(literal).at_most(literal),
            Comparison::Less | Comparison::LessEqual => self.at_most(literal),
            Comparison::Greater | Comparison::GreaterEqual => self.at_least(literal),
            Comparison::NotEqual => self,
        }
    }

    /// Whether a number at the place of these bounds is within them; true where there is none.
    #[inline(always)]
    pub fn admit(self, row: &[Value]) -> bool
        ensures { AdmitsRow self row.now → result ≡ true }
    {
        match row.get(self.place) {
            Some(Value::Int(number)) => self.low <= *number && *number <= self.high,
            _ => true,
        }
    }
}

/// The bounds where a condition on the column at this index has to be met too. The first condition
/// that bounds a number says at which place they are.
fn with_condition(bounds: Bounds, condition: &Condition, index: Option<usize>) -> Bounds
    ensures { (row : List values)
        → AdmitsRow bounds row
        → cell_meets condition.now (at_index row index) ≡ true
        → AdmitsRow result row }
{
    let Value::Int(literal) = &condition.literal else {
        return bounds;
    };
    let Some(place) = index else {
        return bounds;
    };
    if condition.comparison == Comparison::NotEqual {
        return bounds;
    }
    let so_far = bounds.started_at(place);
    if so_far.place != place {
        return bounds;
    }
    so_far.narrowed(condition.comparison, *literal)
}

/// The bounds within which each row is that the filter chooses.
pub fn bounds_of(conditions: &Resolved<'_, Condition>) -> Bounds
    ensures { (row : List values)
        → is_chosen conditions.now.columns.now conditions.now.items.now row ≡ true
        → AdmitsRow result row }
{
    let mut bounds = Bounds::widest(NOWHERE);
    for (at, condition) in conditions.items().iter().enumerate() {
        bounds = with_condition(bounds, condition, conditions.index_of(at, condition));
    }
    bounds
}
