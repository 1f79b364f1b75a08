//! What is freed behind a turn.

use capture_core::{Active, Image};
use std::sync::Arc;

/// An image that newer ones pushed out, and what a capture had taken when it was given up. To let
/// go of them frees their rows, so it is done where nobody waits for the core.
#[derive(Drop)]
pub struct Parting {
    pub image: Option<Arc<Image>>,
    pub taken: Option<Active>,
}

impl Parting {
    /// Nothing to free.
    pub fn nothing() -> Parting {
        Parting {
            image: None,
            taken: None,
        }
    }

    /// Frees all of it. A crate that let one go by itself would prove its destructor once more.
    pub fn free(self) {}
}
