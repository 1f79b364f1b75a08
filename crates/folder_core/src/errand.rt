//! What is done to a server's folder between changes, and what was done beside it.

/// So many changes were put on the disk by somebody who does not hold the folder.
#[derive(Clone, Copy)]
pub struct Synced {
    pub count: u64,
}

/// The names of the folder were put on the disk by somebody who does not hold it, once they had changed so often.
#[derive(Clone, Copy)]
pub struct NamesSynced {
    pub names: u64,
}

/// A file of its own that is to be a dump is written, whole and synced: the one of this number.
#[derive(Clone, Copy)]
pub struct Written {
    pub number: u64,
}

/// What is done to a server's folder between changes.
#[derive(Clone, Copy)]
pub enum Errand {
    /// To learn what was synced, and to give the file the name of the dump of this point.
    Put {
        synced: Synced,
        point: u64,
        dump: Written,
    },
    /// To learn that names were synced: then the dump that was put is the newest, and the journal goes on in a
    /// piece of its own.
    Settle(NamesSynced),
    /// To remove a piece that is behind the newest dump.
    RemovePiece(u64),
    /// To remove a dump that is older than the newest.
    RemoveDump(u64),
}
