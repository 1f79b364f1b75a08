//! Why an export was not written whole.
use thiserror::Error;

/// Why the writing of an export ended before its records did.
#[derive(Clone, Copy, Debug, PartialEq, Eq, Error)]
pub enum ExportFault {
    /// The writer failed.
    #[error("write fault")]
    Write,
    /// A request for memory was refused.
    #[error("no memory")]
    NoMemory,
}
