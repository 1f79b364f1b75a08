//! Why a checkpoint is not on the disk.

use base_core::{Broken, NoMemory};
use dump_core::DumpFault;

/// Why a checkpoint is not on the disk.
#[derive(Drop)]
pub enum CheckpointFault {
    /// All turns of the desk are drawn.
    Worn,
    /// There was no memory for it.
    NoMemory,
    /// Its image is kept no more.
    Gone,
    /// It has more tables, rows and grants than there may be changes.
    TooLarge,
    /// A row of it has no line.
    LongRow,
    /// A file could not be written or synced.
    Broken,
    /// The desk or the folder could not take it.
    Refused,
    /// The server ended.
    Stopped,
}

impl From<Broken> for CheckpointFault {
    fn from(_: Broken) -> Self {
        CheckpointFault::Broken
    }
}

impl From<NoMemory> for CheckpointFault {
    fn from(_: NoMemory) -> Self {
        CheckpointFault::NoMemory
    }
}

impl From<DumpFault> for CheckpointFault {
    fn from(fault: DumpFault) -> Self {
        match fault {
            DumpFault::Write => CheckpointFault::Broken,
            DumpFault::NoMemory => CheckpointFault::NoMemory,
            DumpFault::LongRow { .. } => CheckpointFault::LongRow,
        }
    }
}
