//! Want of memory, which is told at the end of a text.

use base_core::NoMemory;
use std::alloc::Global;

/// What was found to be told. Where a request for memory was refused that is noted, and nothing is told.
pub fn found_or_short<T: Drop>(
    alloc: Global,
    found: Result<Vec<T>, NoMemory>,
    is_short: &mut bool,
) -> Vec<T> {
    match found {
        Ok(found) => found,
        Err(NoMemory) => {
            *is_short = true;
            Vec::new(alloc)
        }
    }
}
