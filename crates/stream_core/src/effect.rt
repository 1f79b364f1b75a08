//! What changes do.

use base_core::{Column, Name, Row, Sequence, User};
use grants_core::Grant;

/// One thing that a change did: to a table, to one row, or to one grant. A row is known by its table and
/// its number, a grant by its number.
#[derive(Drop)]
pub enum Effect {
    /// The table was made, without rows.
    TableMade {
        table: Name,
        owner: User,
        columns: Sequence<Column>,
    },
    /// The row was inserted.
    RowInserted {
        table: Name,
        number: u64,
        row: Row,
    },
    /// The row has these values now.
    RowUpdated {
        table: Name,
        number: u64,
        row: Row,
    },
    /// The row was deleted.
    RowDeleted {
        table: Name,
        number: u64,
    },
    /// The grant was made, and is in force.
    GrantMade(Grant),
    /// The grant has its option no more, and is still in force.
    OptionLost {
        number: u64,
    },
    /// The grant is in force no more: it was revoked, or fell with one that was.
    GrantFell {
        number: u64,
    },
}
