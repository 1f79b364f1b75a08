//! Privileges on tables.

use crate::name::Name;

/// What a privilege allows (Griffiths and Wade 1976, section 2).
#[derive(Clone, Copy, PartialEq, Eq)]
pub enum Kind {
    /// To select this column.
    Select(Name),
    Insert,
    Delete,
    /// To update this column.
    Update(Name),
}

/// One privilege on one table: the least that can be granted.
#[derive(Clone, Copy, PartialEq, Eq)]
pub struct Atom {
    pub table: Name,
    pub kind: Kind,
}
