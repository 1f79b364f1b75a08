//! Prepared statements.

use base_core::{ColType, Sequence};

/// A prepared statement.
#[derive(Drop)]
pub struct Prepared {
    /// Its text, with places, and without the `;` that may end it.
    pub text: Sequence<u8>,
    /// The type of each place, from 1 to the greatest.
    pub types: Sequence<ColType>,
    /// The number of each place in PostgreSQL's catalogue of types, as its client told it.
    pub numbers: Sequence<u32>,
}
