//! Why a session ended before its input did.
ghost use Rattle.std.specs.Prelude.{◌≡◌};
ghost use Rattle.session_core.specs.EndNames.{end_name};

use lines_core::{SessionFault, fault_name};

/// Why a session ended before its input did.
#[derive(Clone, Copy, Debug, PartialEq, Eq)]
pub enum SessionEnd {
    /// The answering of its lines ended so.
    Session(SessionFault),
    /// A change of the session could not be kept, so that its reply is withheld.
    Journal,
}

/// The end in a word or two: that of the fault, or `journal`.
pub fn end_name(end: SessionEnd) -> &'static str
    ensures { result.now ≡ end_name end }
{
    match end {
        SessionEnd::Session(fault) => fault_name(fault),
        SessionEnd::Journal => "journal",
    }
}
