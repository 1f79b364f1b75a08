//! The law of a server's folder, as the contract of a function that does nothing.
ghost use Rattle.folder_core.specs.Calls.{CallsAreSteps};
ghost use Rattle.folder_core.specs.Serving.{ToldOutlives};

use crate::folder::Dumping;

/// What was told outlives every crash. From a folder without files on a server starts and serves, call by
/// call, and crashes wherever it may, also while it starts. Then what a start restores is a front of
/// the journal, with all that was told: a dump of what its first changes leave, and the lines of the
/// others.
pub fn told_outlives<D: Dumping>()
    ensures { ToldOutlives D.is_dump }
{}

/// Each call that a [`Folder`](crate::Folder) takes is a step of its server, where the server may make it.
pub fn calls_are_steps<D: Dumping>()
    ensures { CallsAreSteps D.is_dump }
{}
