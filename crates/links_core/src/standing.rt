//! The standing of a link.

/// That a link stands, and whether it has its option.
#[derive(Clone, Copy)]
pub struct Standing {
    /// How many links were made before it.
    pub number: u64,
    pub option: bool,
}
