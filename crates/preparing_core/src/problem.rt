//! What a client is told of the faults of a statement with places.
ghost use Rattle.std.specs.Prelude.{◌≡◌};
ghost use Rattle.preparing_core.specs.FaultProblems.{bind_problem, fill_problem, type_problem, value_problem};

use binding_core::{BindFault, TypeFault};
use parameters_core::{FillFault, ValueFault};
use sending_core::Problem;

/// What is told where a text is not filled.
pub fn fill_problem(fault: FillFault) -> Problem
    ensures { result ≡ fill_problem fault }
{
    match fault {
        FillFault::NoMemory => Problem::NoMemory,
        FillFault::TooLong => Problem::LongLine,
        FillFault::NoValue(_) => Problem::PlaceInQuery,
    }
}

/// What is told where a place has no type.
pub(crate) fn type_problem(fault: TypeFault) -> Problem
    ensures { result ≡ type_problem fault }
{
    match fault {
        TypeFault::NoMemory => Problem::NoMemory,
        TypeFault::WrongCount => Problem::WrongCount,
        TypeFault::UnknownType(_) => Problem::UnknownType,
    }
}

/// What is told where bytes are no value.
fn value_problem(fault: ValueFault) -> Problem
    ensures { result ≡ value_problem fault }
{
    match fault {
        ValueFault::NoMemory => Problem::NoMemory,
        ValueFault::BadNumber => Problem::BadNumber,
        ValueFault::BadLength => Problem::BadLength,
        ValueFault::BadText => Problem::BadText,
        ValueFault::TooLong => Problem::LongText,
    }
}

/// What is told where values are not bound.
pub fn bind_problem(fault: BindFault) -> Problem
    ensures { result ≡ bind_problem fault }
{
    match fault {
        BindFault::NoMemory => Problem::NoMemory,
        BindFault::WrongCount => Problem::WrongCount,
        BindFault::NullValue(_) => Problem::NullValue,
        BindFault::UnknownFormat(_) => Problem::UnknownFormat,
        BindFault::BadValue { fault, .. } => value_problem(fault),
        BindFault::TooLong => Problem::LongLine,
    }
}
