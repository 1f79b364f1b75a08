//! Why values are not bound.

ghost use Rattle.std.specs.Prelude.{◌≡◌};

use parameters_core::ValueFault;
use std::alloc::AllocFailed;
use thiserror::Error;

/// Why a statement with places is not made a line with values.
#[derive(Clone, Copy, Debug, PartialEq, Eq, Error)]
pub enum BindFault {
    /// A request for memory was refused.
    #[error("no memory")]
    NoMemory,
    /// There is not one value and one type for each place, or there are several codes of formats,
    /// and not one for each value.
    #[error("wrong count")]
    WrongCount,
    /// The value for the place of this number is NULL, which no column holds.
    #[error("NULL for parameter {0}")]
    NullValue(u8),
    /// This code is of no format.
    #[error("unknown format {0}")]
    UnknownFormat(u16),
    /// The bytes for the place of this number are no value of its type.
    #[error("parameter {number}: {fault}")]
    BadValue { number: u8, fault: ValueFault },
    /// The line would have more bytes than a line may have.
    #[error("too long")]
    TooLong,
}

impl<T: Drop> From<AllocFailed<T>> for BindFault {
    ghost use Rattle.binding_core.specs.declared.fault.BindFault.TheVariants as faults;

    ghost from_gives = { λ _ e. e ≡ faults.NoMemory };

    fn from(_error: AllocFailed<T>) -> BindFault {
        BindFault::NoMemory
    }
}

/// Why the types that a client tells are not those of a statement's places.
#[derive(Clone, Copy, Debug, PartialEq, Eq, Error)]
pub enum TypeFault {
    /// A request for memory was refused.
    #[error("no memory")]
    NoMemory,
    /// There are more types than places.
    #[error("wrong count")]
    WrongCount,
    /// This number is of no type that a column has.
    #[error("unknown type {0}")]
    UnknownType(u32),
}

impl<T: Drop> From<AllocFailed<T>> for TypeFault {
    ghost use Rattle.binding_core.specs.declared.fault.TypeFault.TheVariants as faults;

    ghost from_gives = { λ _ e. e ≡ faults.NoMemory };

    fn from(_error: AllocFailed<T>) -> TypeFault {
        TypeFault::NoMemory
    }
}
