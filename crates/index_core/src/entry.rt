//! One line of an index.

/// The number of a row, and the key of the value that it was noted for.
#[derive(Clone, Copy)]
pub struct Entry {
    pub key: u64,
    pub number: u64,
}
