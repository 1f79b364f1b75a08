//! What lines or sessions leave, and what kept their changes.
ghost use Rattle.std.specs.Prelude.{◌≡◌, false, IfOk};
ghost use Rattle.journal_core.specs.Keeping.{owing_nothing};
ghost use Rattle.sysr.specs.Kept.{system_of, owes_a_change};

use base_core::{NoMemory, Resume, Sink};
use journal_core::{Errands, Keeper, LineKeeper, NoKeeper};
use lines_core::{NO_MEMORY, give_up};
use run_core::Left;
use std::mem::forget;
use std::process::ExitCode;
use system_core::System;

/// What they left, and where their changes are kept.
#[derive(Drop)]
pub enum Kept<W: Sink + Drop> {
    /// Nowhere, since there is no journal.
    Nowhere(Left<NoKeeper>),
    /// As lines, in the journal.
    Lines(Left<LineKeeper<W>>),
}

impl<W: Sink + Drop> Kept<W> {
    /// The core that was left.
    pub fn system(&self) -> &System
        ensures { result.now ≡ system_of self.now }
    {
        match self {
            Kept::Nowhere(left) => &left.system,
            Kept::Lines(left) => &left.system,
        }
    }
}

impl<W: Resume + Errands + Drop> Kept<W> {
    /// Whether what is left of the last change is owed to the journal.
    pub fn is_owing(&self) -> bool
        ensures { result ≡ owes_a_change self.now }
    {
        match self {
            Kept::Nowhere(_) => false,
            Kept::Lines(left) => left.keeper.is_owing(),
        }
    }
}

/// What a run or a server left, and the status that it ended with.
#[derive(Drop)]
pub struct Ended<W: Sink + Drop> {
    pub kept: Kept<W>,
    pub status: ExitCode,
}

impl<W: Sink + Drop> Ended<W> {
    /// The status. The process ends with it, and its memory goes back as a whole: to take the rows
    /// apart one by one first would cost a tenth of a run.
    pub fn into_status(self) -> ExitCode
        ensures { result ≡ self.status }
    {
        let Ended { kept, status } = self;
        forget(kept);
        status
    }
}

/// A keeper that writes to this journal. The error is the status, where there was no memory for it,
/// which is told.
pub fn line_keeper<W: Sink + Drop>(rt: &HostRuntime, sink: W) -> Result<LineKeeper<W>, ExitCode>
    requires { W.failed sink ≡ false }
    ensures { IfOk result
        (λ keeper. keeper ≡ owing_nothing (W.taken sink) (W.handed_on sink)) }
{
    match LineKeeper::new(rt.alloc(), sink) {
        Ok(keeper) => Ok(keeper),
        Err(NoMemory) => Err(give_up(rt, NO_MEMORY)),
    }
}
