//! Why a dump is not whole.

use base_core::{Broken, Name, NoMemory};

/// Why a dump is not whole.
#[derive(Clone, Copy)]
pub enum DumpFault {
    /// The writer failed.
    Write,
    /// A request for memory was refused.
    NoMemory,
    /// No line inserts this row: the INSERT of its values has more than 4,096 bytes, even without
    /// the blanks that may be left out. Rows are counted from 1, in the order in which SELECT lists
    /// those of the table. UPDATE can make such a row.
    LongRow { table: Name, row: u64 },
}

impl From<NoMemory> for DumpFault {
    ghost use Rattle.std.specs.Prelude.{◌≡◌};
    ghost use Rattle.dump_core.specs.declared.fault.DumpFault.TheVariants as faults;

    ghost from_gives = { λ _ e. e ≡ faults.NoMemory };

    fn from(_error: NoMemory) -> DumpFault {
        DumpFault::NoMemory
    }
}

impl From<Broken> for DumpFault {
    ghost use Rattle.std.specs.Prelude.{◌≡◌};
    ghost use Rattle.dump_core.specs.declared.fault.DumpFault.TheVariants as faults;

    ghost from_gives = { λ _ e. e ≡ faults.Write };

    fn from(_error: Broken) -> DumpFault {
        DumpFault::Write
    }
}
