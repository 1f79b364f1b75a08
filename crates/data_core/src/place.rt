//! Where the writing of a journal has come to.

/// Where the writing of a journal has come to, as far as it decides what may be done to the folder.
#[derive(Clone, Copy)]
pub struct Place {
    /// Where the piece begins that is written to.
    pub first: u64,
    /// The point of the newest dump, 0 without one.
    pub base: u64,
    /// The piece of the journal with which it resumes.
    pub resumes: u64,
    /// How many changes are known to be on the disk.
    pub told: u64,
    /// The point of a dump whose name may not be on the disk.
    pub put: Option<u64>,
    /// Whether a part of a line stands at the end of the piece.
    pub is_in_line: bool,
}
