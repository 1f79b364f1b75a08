//! How large a core is.

/// How many tables there are, rows that they have now, grants in force, and checkpoints that are kept.
#[derive(Clone, Copy)]
pub struct Size {
    pub tables: u64,
    pub rows: u64,
    pub grants: u64,
    pub checkpoints: u64,
}
