//! A piece of a journal that is written to, or was.

use std::fs::File;
use std::sync::Arc;
use std::sync::atomic::AtomicU64;

/// A piece of a journal that is written to, or was.
#[derive(Drop)]
pub struct Piece {
    /// Behind how many changes it begins.
    pub point: u64,
    pub file: File,
    /// How many lines were written to it.
    pub lines: AtomicU64,
}

/// The pieces that may not be on the disk: the one that is written to, and one before it.
#[derive(Drop)]
pub struct Standing {
    pub before: Option<Arc<Piece>>,
    pub last: Option<Arc<Piece>>,
}
