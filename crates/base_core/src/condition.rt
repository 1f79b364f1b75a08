//! Conditions on rows, and assignments to them.
ghost use Rattle.std.specs.Prelude.{◌≡◌};
ghost use Rattle.base_core.specs.Filter.{accepts, compares, column_index};

use crate::bounded::Named;
use crate::name::Name;
use crate::value::{Column, Value};
use std::cmp::Ordering;

/// How a value stands to a literal.
#[derive(Clone, Copy, PartialEq, Eq)]
pub enum Comparison {
    Equal,
    NotEqual,
    Less,
    LessEqual,
    Greater,
    GreaterEqual,
}

/// What WHERE asks of one column.
#[derive(Drop)]
pub struct Condition {
    pub column: Name,
    pub comparison: Comparison,
    pub literal: Value,
}

/// What SET makes of one column.
#[derive(Drop)]
pub struct Assignment {
    pub column: Name,
    pub value: Value,
}

impl Named for Condition {
    ghost name_of = { λ c. c.column };

    fn name(&self) -> Name {
        self.column
    }
}

impl Named for Assignment {
    ghost name_of = { λ a. a.column };

    fn name(&self) -> Name {
        self.column
    }
}

impl Comparison {
    /// Whether values that stand in this order meet the comparison.
    pub fn accepts(self, order: Ordering) -> bool
        ensures { result ≡ accepts self order }
    {
        match self {
            Comparison::Equal => order.is_eq(),
            Comparison::NotEqual => order.is_ne(),
            Comparison::Less => order.is_lt(),
            Comparison::LessEqual => order.is_le(),
            Comparison::Greater => order.is_gt(),
            Comparison::GreaterEqual => order.is_ge(),
        }
    }
}

impl Value {
    /// Whether the value stands so to the literal. Never where their types differ.
    pub fn compares(&self, comparison: Comparison, literal: &Value) -> bool
        ensures { result ≡ compares comparison self.now literal.now }
    {
        match self.order(literal) {
            Some(order) => comparison.accepts(order),
            None => false,
        }
    }
}

/// The index of the column of this name. None where there is no such column.
pub fn column_index(columns: &[Column], name: Name) -> Option<usize>
    ensures { result ≡ column_index columns.now name }
{
    columns.iter().position(|column| column.name == name)
}
