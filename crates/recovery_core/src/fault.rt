//! Why nothing was restored.

use base_core::Broken;
use folder_core::FolderFault;
use load_core::LoadFault;

/// Why a start restored nothing.
#[derive(Drop)]
pub enum RecoveryFault {
    /// The folder could not be read or written.
    Broken,
    /// There was no memory for what has to be there.
    NoMemory,
    /// The dump of this point cannot be loaded.
    Dump { point: u64, why: LoadFault },
    /// The dump of this point was cut off, or resumes with a piece behind it.
    BadDump { point: u64 },
    /// The piece of this point cannot be loaded.
    Piece { point: u64, why: LoadFault },
    /// Behind the dump of this point lines are missing.
    Missing { point: u64 },
    /// There are more changes than names can tell.
    Full,
}

impl From<FolderFault> for RecoveryFault {
    fn from(fault: FolderFault) -> Self {
        match fault {
            FolderFault::Broken => RecoveryFault::Broken,
            FolderFault::NoMemory => RecoveryFault::NoMemory,
        }
    }
}

impl From<Broken> for RecoveryFault {
    fn from(_: Broken) -> Self {
        RecoveryFault::Broken
    }
}
