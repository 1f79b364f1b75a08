//! Why a text is not filled.

ghost use Rattle.std.specs.Prelude.{◌≡◌};

use std::alloc::{AllocError, AllocFailed};
use thiserror::Error;

/// Why a text with places is not made a line.
#[derive(Clone, Copy, Debug, PartialEq, Eq, Error)]
pub enum FillFault {
    /// A request for memory was refused.
    #[error("no memory")]
    NoMemory,
    /// The line would have more bytes than a line may have.
    #[error("too long")]
    TooLong,
    /// This is the greatest number of a place, and there are fewer values.
    #[error("no value for parameter {0}")]
    NoValue(u8),
}

impl From<AllocError> for FillFault {
    ghost use Rattle.parameters_core.specs.declared.fault.FillFault.TheVariants as faults;

    ghost from_gives = { λ _ e. e ≡ faults.NoMemory };

    fn from(_error: AllocError) -> FillFault {
        FillFault::NoMemory
    }
}

impl<T: Drop> From<AllocFailed<T>> for FillFault {
    ghost use Rattle.parameters_core.specs.declared.fault.FillFault.TheVariants as faults;

    ghost from_gives = { λ _ e. e ≡ faults.NoMemory };

    fn from(_error: AllocFailed<T>) -> FillFault {
        FillFault::NoMemory
    }
}

/// Why the bytes that a client sends are no value for a column.
#[derive(Clone, Copy, Debug, PartialEq, Eq, Error)]
pub enum ValueFault {
    /// A request for memory was refused.
    #[error("no memory")]
    NoMemory,
    /// No whole number in decimal from -2^63 to 2^63 - 1.
    #[error("bad number")]
    BadNumber,
    /// A number in binary that has not 2, 4 or 8 bytes.
    #[error("bad length")]
    BadLength,
    /// No UTF-8, or a control character.
    #[error("bad text")]
    BadText,
    /// A text of more than 1,024 bytes.
    #[error("too long")]
    TooLong,
}

impl From<AllocError> for ValueFault {
    ghost use Rattle.parameters_core.specs.declared.fault.ValueFault.TheVariants as faults;

    ghost from_gives = { λ _ e. e ≡ faults.NoMemory };

    fn from(_error: AllocError) -> ValueFault {
        ValueFault::NoMemory
    }
}
