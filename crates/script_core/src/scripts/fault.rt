//! Why a script ended before its input did.
ghost use Rattle.std.specs.Prelude.{◌≡◌};
ghost use Rattle.script_core.specs.Keeping.{script_fault_text};

use lines_core::{SessionFault, fault_text};
use thiserror::Error;

/// Why a script ended before its input did.
#[derive(Clone, Copy, Debug, PartialEq, Eq, Error)]
pub enum ScriptFault {
    /// The answering of its lines ended so.
    #[error(transparent)]
    Session(SessionFault),
    /// A change could not be kept.
    #[error("journal fault")]
    Journal,
}

/// What is told of a fault that ended a script.
pub fn script_fault_text(fault: ScriptFault) -> &'static str
    ensures { result.now ≡ script_fault_text fault }
{
    match fault {
        ScriptFault::Session(fault) => fault_text(fault),
        ScriptFault::Journal => "sysr: journal fault",
    }
}
