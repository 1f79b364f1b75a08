//! What a step of a capture tells.
use crate::image::Image;
use std::sync::Arc;

/// What a step made of the capture.
#[derive(Drop)]
pub enum Progress {
    /// No capture was active, and nothing has changed.
    Idle,
    /// So many records are left, at least one.
    Left(u64),
    /// No record is left: the capture has ended, and this is the state at its point.
    Done(Arc<Image>),
}
