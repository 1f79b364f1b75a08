//! Why a statement is not prepared, or its rows are not described.

use crate::problem::{fill_problem, type_problem};
use base_core::NoMemory;
use binding_core::TypeFault;
use lexer_core::Code;
use parameters_core::FillFault;
use sending_core::Problem;
use std::alloc::AllocError;
use system_core::Reply;

/// What stands in the way of a statement that is prepared or described.
#[derive(Drop)]
pub enum PrepareFault {
    /// This is told of it.
    Problem(Problem),
    /// It says no statement: this is its one fault, at this byte of its line.
    Faulty { code: Code, offset: usize },
    /// There was no memory to read it.
    Unread,
    /// The desk has answered so: by a denial, or a refusal for want of memory.
    Denied(Reply),
}

impl From<NoMemory> for PrepareFault {
    ghost use Rattle.std.specs.Prelude.{◌≡◌};
    ghost use Rattle.sending_core.specs.declared.problem.Problem.TheVariants as problems;
    ghost use Rattle.preparing_core.specs.declared.fault.PrepareFault.TheVariants as faults;

    ghost from_gives = { λ _ e. e ≡ faults.Problem problems.NoMemory };

    fn from(_error: NoMemory) -> PrepareFault {
        PrepareFault::Problem(Problem::NoMemory)
    }
}

impl From<AllocError> for PrepareFault {
    ghost use Rattle.std.specs.Prelude.{◌≡◌};
    ghost use Rattle.sending_core.specs.declared.problem.Problem.TheVariants as problems;
    ghost use Rattle.preparing_core.specs.declared.fault.PrepareFault.TheVariants as faults;

    ghost from_gives = { λ _ e. e ≡ faults.Problem problems.NoMemory };

    fn from(_error: AllocError) -> PrepareFault {
        PrepareFault::Problem(Problem::NoMemory)
    }
}

impl From<FillFault> for PrepareFault {
    ghost use Rattle.std.specs.Prelude.{◌≡◌};
    ghost use Rattle.preparing_core.specs.FaultProblems.{fill_problem};
    ghost use Rattle.preparing_core.specs.declared.fault.PrepareFault.TheVariants as faults;

    ghost from_gives = { λ fault e. e ≡ faults.Problem (fill_problem fault) };

    fn from(fault: FillFault) -> PrepareFault {
        PrepareFault::Problem(fill_problem(fault))
    }
}

impl From<TypeFault> for PrepareFault {
    ghost use Rattle.std.specs.Prelude.{◌≡◌};
    ghost use Rattle.preparing_core.specs.FaultProblems.{type_problem};
    ghost use Rattle.preparing_core.specs.declared.fault.PrepareFault.TheVariants as faults;

    ghost from_gives = { λ fault e. e ≡ faults.Problem (type_problem fault) };

    fn from(fault: TypeFault) -> PrepareFault {
        PrepareFault::Problem(type_problem(fault))
    }
}
