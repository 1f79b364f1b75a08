//! Columns, values and rows.
ghost use Rattle.std.specs.Prelude.{◌≡◌, pos};
ghost use Rattle.base_core.specs.Values.{value_order, has_type};
ghost use Rattle.base_core.specs.declared.value.Value.TheVariants as values;

use crate::bounded::Named;
use crate::memory::{NoMemory, Twin};
use crate::name::Name;
use crate::shared::Values;
use crate::text::Text;
use std::cmp::Ordering;

/// The number of accepted changes so far: the m-th accepted change makes moment m.
#[derive(Clone, Copy, Debug, PartialEq, Eq, PartialOrd, Ord)]
pub struct Moment(pub u64);

/// What a column holds.
#[derive(Clone, Copy, PartialEq, Eq)]
pub enum ColType {
    /// Whole numbers from -2^63 to 2^63 - 1.
    Integer,
    /// Texts of at most 1,024 bytes.
    Text,
}

/// A column of a table.
#[derive(Clone, Copy, PartialEq, Eq)]
pub struct Column {
    pub name: Name,
    pub ty: ColType,
}

impl Named for Column {
    ghost name_of = { λ c. c.name };

    fn name(&self) -> Name {
        self.name
    }
}

impl Named for Name {
    ghost name_of = { λ n. n };

    fn name(&self) -> Name {
        *self
    }
}

/// A value of a row, or a literal.
#[derive(PartialEq, Eq, Drop)]
pub enum Value {
    Int(i64),
    Text(Text),
}

/// The number 0.
impl Default for Value {
    ghost is_default = { λ value. value ≡ values.Int (pos 0) };

    fn default() -> Value {
        Value::Int(0)
    }
}

impl Value {
    /// The order of two values of one type: numbers as whole numbers, texts by their bytes. None
    /// for values of different types.
    pub fn order(&self, other: &Value) -> Option<Ordering>
        ensures { result ≡ value_order self.now other.now }
    {
        match (self, other) {
            (Value::Int(a), Value::Int(b)) => Some(a.cmp(b)),
            (Value::Text(s), Value::Text(t)) => Some(s.as_bytes().cmp(&t.as_bytes())),
            _ => None,
        }
    }

    /// Whether a column of this type may hold the value.
    pub fn has_type(&self, ty: ColType) -> bool
        ensures { result ≡ has_type self.now ty }
    {
        match (self, ty) {
            (Value::Int(_), ColType::Integer) | (Value::Text(_), ColType::Text) => true,
            _ => false,
        }
    }
}

impl Twin for Value {
    fn try_twin(&self) -> Result<Value, NoMemory> {
        match self {
            Value::Int(number) => Ok(Value::Int(*number)),
            Value::Text(text) => Ok(Value::Text(text.try_twin()?)),
        }
    }
}

/// The values of one row, in the order of its table's columns. Copies share them.
#[derive(Drop)]
pub struct Row {
    pub values: Values,
}

impl Twin for Row {
    fn try_twin(&self) -> Result<Row, NoMemory> {
        let values = self.values.try_twin()?;
        Ok(Row { values })
    }
}
