//! Laws of servers, each the contract of a function that does nothing.
ghost use Rattle.std.specs.Prelude.{◌≡◌, ◌++◌, ℕ, List, [], map, All, None};
ghost use Rattle.std.specs.Str.Lines.{lines};
ghost use Rattle.turnstile.specs.Logs.{gained};
ghost use Rattle.system_core.specs.World.{World};
ghost use Rattle.lines_core.specs.Lines.{IsWhole};
ghost use Rattle.journal_core.specs.Keeping.{LineKeeperState, line_rules};
ghost use Rattle.desk_core.specs.Guarded.{origin_at};
ghost use Rattle.desk_core.specs.Kept.{HasKept};
ghost use Rattle.door_core.specs.Entrance.{Admittance};
ghost use Rattle.server_core.specs.Sessions.{Leaves};
ghost use Rattle.serving_core.specs.Protocols.{SpeaksServed};
ghost use Rattle.serving_core.specs.Rightful.{IsByRight};
ghost use Rattle.load_core.specs.Kept.{CanBeLoadedBehind};
ghost use Rattle.load_core.specs.Loading.{Loads, lines_unmarked, without_pass};

use journal_core::{Errands, Keeper};
use session_core::SessionMachine;

/// A file goes on through servers. What [`serve_on`](crate::serve_on) kept as lines, behind a file
/// that loads the journal which the server began with, loads with it the journal that the server
/// left, each new entry but for its pass, where nothing is owed.
pub fn gone_on_server_is_kept<W: Errands>()
    ensures { (by : Admittance) (workers sessions : ℕ) (start world : World) (old : List ℕ)
        (begun keeper : LineKeeperState)
        → Leaves SpeaksServed by workers sessions begun start world
        → HasKept (line_rules W.may_run W.knows) (origin_at start begun) world.journal keeper
        → keeper.owed ≡ None
        → IsWhole old
        → Loads world.limits [] (lines_unmarked (lines old)) start.journal
        → CanBeLoadedBehind world.limits old begun.taken keeper.taken
        (start.journal ++ map without_pass (gained start.journal world.journal)) }
{}

/// Whose right is used is who proved to be that user. Each entry that a server made, behind those
/// that it began with, is by a user whose session it was by right, whatever protocol its sessions
/// spoke. So where clients have to log in, there was a session with a message that proves to be that
/// user, by what a file of users keeps of him; or it came in at his own socket.
pub fn entries_are_by_right<K: Keeper + Drop, M: SessionMachine<K>>()
    ensures { (by : Admittance) (workers sessions : ℕ) (keeper : K) (start world : World)
        → Leaves M.protocol by workers sessions keeper start world
        → All (λ entry. ∥ IsByRight M.right by entry.user ∥₁) (gained start.journal world.journal) }
{}
