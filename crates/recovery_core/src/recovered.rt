//! What a start restored.

use system_core::System;

/// What a start restored of a folder.
#[derive(Drop)]
pub struct Recovered {
    pub system: System,
    /// Of how many changes the newest dump is; 0 without one.
    pub point: u64,
    /// The piece of the journal with which it resumes.
    pub resumes: u64,
    /// How many changes were restored: the journal goes on behind them.
    pub at: u64,
}
