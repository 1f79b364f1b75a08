//! The folder of a server, as its calls are seen.
ghost use Rattle.std.specs.Prelude.{◌≡◌, ◌<◌, ◌≤◌, ℕ, Bool, true, false, List, [], Option, Some, None, is_some, length, take, IfOk, OnOk, IfSome, MatchResult, All};
ghost use Rattle.std.specs.Bool.{MatchBool};
ghost use Rattle.folder_core.specs.declared.errand.Synced.{Synced};
ghost use Rattle.folder_core.specs.declared.errand.NamesSynced.{NamesSynced};
ghost use Rattle.folder_core.specs.declared.errand.Written.{Written};
ghost use Rattle.folder_core.specs.FileNames.{dump, piece};
ghost use Rattle.folder_core.specs.Disk.{folder_synced};
ghost use Rattle.folder_core.specs.Serving.{IsUp, Reaches, on, begun};
ghost use Rattle.folder_core.specs.Calls.{TextState, AreTexts, Moves, MovesOnOk, AreNamed, Opens, OpensDump, IsServing, MaySettle, IsFoundAt, found, MayRemovePiece, MayRemoveDump, without_piece, without_dump, MayBegin, WritesText, Tells, MayPut, Puts, Settles};

use crate::errand::{NamesSynced, Synced, Written};
use base_core::{Broken, Source};
use std::alloc::Global;

/// Which lines are a dump of what others leave.
pub trait Dumping {
    // What the first lines leave is dumped by the second ones.
    ghost is_dump: { List (List ℕ) → List (List ℕ) → Type 0 };

    // The dump of no change has no lines.
    ghost none: { is_dump [] [] };
}

/// Why a folder could not be looked at.
#[derive(Clone, Copy, Debug, PartialEq, Eq)]
pub enum FolderFault {
    Broken,
    NoMemory,
}

/// The folder of a server. It knows where its calls have come to, and takes none that a server may not
/// make there. A call that fails does nothing, and of the last change that was asked it is known whether it failed.
pub trait Folder<D: Dumping> {
    /// A reader of one of its files.
    type Reader: Source + Drop;

    // Whether it is known where the calls of such a folder have come to.
    ghost knows: { Bool };
    // Where they have come to, if that is known.
    ghost state: { Self → Option TextState };
    // Whether the last change of it failed.
    ghost failed: { Self → Bool };
    // How many changes are on the disk by what was synced.
    ghost told_by: { Self → Synced → ℕ };
    // Whether the names that were synced are those of now.
    ghost are_now: { Self → NamesSynced → Bool };
    // The lines of a file that is to be a dump.
    ghost lines_of: { Written → List (List ℕ) };

    /// The points at which a dump stands.
    fn dumps(&self, alloc: Global) -> Result<Vec<u64>, FolderFault>
        ensures small { IfOk result (λ points. All (λ point. point ≤ 9999999999) points.items) }
        ensures named { IfOk result (λ points. IfSome (state self.now)
            (λ s. AreNamed dump s points.items)) };

    /// The points at which a piece of the journal begins.
    fn pieces(&self, alloc: Global) -> Result<Vec<u64>, FolderFault>
        ensures small { IfOk result (λ points. All (λ point. point ≤ 9999999999) points.items) }
        ensures named { IfOk result (λ points. IfSome (state self.now)
            (λ s. AreNamed piece s points.items)) };

    /// A reader of a piece, which gives what stands in it.
    fn open_piece(&self, point: u64) -> Result<Self::Reader, FolderFault>
        ensures works { IfOk result (λ reader. Self.Reader.failed reader ≡ false) }
        ensures opens { IfOk result (λ reader. IfSome (state self.now)
            (λ s. Opens (piece point) s (Self.Reader.left reader))) };

    /// A reader of a dump, and the piece with which it resumes.
    fn open_dump(&self, point: u64) -> Result<(Self::Reader, u64), FolderFault>
        ensures works { IfOk result (λ b. Self.Reader.failed b.0 ≡ false) }
        ensures opens { IfOk result (λ b. IfSome (state self.now)
            (λ s. OpensDump point b.1 s (Self.Reader.left b.0))) };

    /// Has on the disk what stands in the folder, before a start changes anything; it is told what that
    /// restores: the dump of this point, which resumes with this piece, and so many lines behind it.
    fn keep_found(&mut self, point: u64, resumes: u64, count: u64) -> Result<(), Broken>
        requires { IfSome (state self.old) (IsFoundAt point resumes count) }
        ensures failed { MatchResult result (λ _. failed self.new ≡ false)
            (λ _. failed self.new ≡ true) }
        ensures moves { MovesOnOk (λ s t. t ≡ found point resumes count s)
            result (state self.old) (state self.new) };

    /// Removes a piece that does not join, or is behind the newest dump.
    fn remove_piece(&mut self, point: u64) -> Result<(), Broken>
        requires { IfSome (state self.old) (MayRemovePiece point) }
        ensures failed { MatchResult result (λ _. failed self.new ≡ false)
            (λ _. failed self.new ≡ true) }
        ensures moves { MovesOnOk (λ s t. t ≡ without_piece point s)
            result (state self.old) (state self.new) };

    /// Removes a dump that is older than the newest.
    fn remove_dump(&mut self, point: u64) -> Result<(), Broken>
        requires { IfSome (state self.old) (MayRemoveDump point) }
        ensures failed { MatchResult result (λ _. failed self.new ≡ false)
            (λ _. failed self.new ≡ true) }
        ensures moves { MovesOnOk (λ s t. t ≡ without_dump point s)
            result (state self.old) (state self.new) };

    /// Has all names on the disk.
    fn sync_names(&mut self) -> Result<(), Broken>
        requires { IfSome (state self.old) (λ s. IsUp s.phase) }
        ensures failed { MatchResult result (λ _. failed self.new ≡ false)
            (λ _. failed self.new ≡ true) }
        ensures moves { MovesOnOk (λ s t. t ≡ on (folder_synced s.disk) s)
            result (state self.old) (state self.new) };

    /// From now on the journal goes on in a piece of its own, which begins behind so many changes.
    fn begin_piece(&mut self) -> Result<u64, Broken>
        requires { IfSome (state self.old) MayBegin }
        ensures failed { MatchResult result (λ _. failed self.new ≡ false)
            (λ _. failed self.new ≡ true) }
        ensures point { IfOk result
            (λ point. IfSome (state self.old) (λ s. point ≡ length s.journal)) }
        ensures moves { MovesOnOk (λ s t. t ≡ begun s) result (state self.old) (state self.new) };

    /// Writes some of the bytes to the piece in which the journal goes on, at least one where there is one.
    fn write(&mut self, bytes: &[u8]) -> Result<usize, Broken>
        requires { IfSome (state self.old) IsServing }
        ensures failed { MatchResult result (λ _. failed self.new ≡ false)
            (λ _. failed self.new ≡ true) }
        ensures count { IfOk result (λ n. n ≤ length bytes.now) }
        ensures some { 0 < length bytes.now → IfOk result (λ n. 0 < n) }
        ensures bytes { MatchResult result
            (λ n. Moves (WritesText (take n bytes.now)) (state self.old) (state self.new))
            (λ _. state self.new ≡ state self.old) };

    /// How many changes are on the disk by what was synced.
    fn tell(&mut self, synced: Synced) -> u64
        requires { IfSome (state self.old) IsServing }
        ensures count { result ≡ told_by self.old synced }
        ensures failed { failed self.new ≡ failed self.old }
        ensures moves { Moves (Tells result) (state self.old) (state self.new) };

    /// Whether the names that were synced are those of now: then all are on the disk.
    fn tell_names(&mut self, synced: NamesSynced) -> bool
        requires { IfSome (state self.old) (λ s. IsUp s.phase) }
        ensures now { result ≡ are_now self.old synced }
        ensures failed { failed self.new ≡ failed self.old }
        ensures moves { MatchBool result
            (Moves (λ s t. t ≡ on (folder_synced s.disk) s) (state self.old) (state self.new))
            (state self.new ≡ state self.old) };

    /// Gives the file the name of the dump of this point.
    fn put(&mut self, point: u64, dump: Written) -> Result<(), Broken>
        requires { IfSome (state self.old) (MayPut D.is_dump point (lines_of dump)) }
        ensures failed { MatchResult result (λ _. failed self.new ≡ false)
            (λ _. failed self.new ≡ true) }
        ensures moves { MovesOnOk (Puts point (lines_of dump)) result
            (state self.old) (state self.new) };

    /// From now on that dump, whose name is on the disk, is the newest.
    fn settle(&mut self, point: u64)
        requires { IfSome (state self.old) (MaySettle point) }
        ensures failed { failed self.new ≡ failed self.old }
        ensures moves { Moves (Settles point) (state self.old) (state self.new) };

    // It is known of each of them, or of none.
    ghost known: { (folder : Self) → is_some (state folder) ≡ knows };

    // It is where a server may have come to.
    ghost reached: { (folder : Self) → IfSome (state folder) (Reaches D.is_dump) };

    // Its files and its journal are lines.
    ghost texts: { (folder : Self) → IfSome (state folder) AreTexts };
}
