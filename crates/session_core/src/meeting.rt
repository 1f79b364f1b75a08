//! A session that goes on through another pass.
ghost use Rattle.std.specs.Prelude.{◌≡◌, Some, IfSome};
ghost use Rattle.session_core.specs.Gains.{Watches};
ghost use Rattle.session_core.specs.Parking.{Meets};

use desk_core::{Desk, Note, Pass};
use journal_core::Keeper;

/// From now on the pass has seen what the note of a session tells too, if there is one.
pub fn meet<K: Keeper + Drop>(desk: &Desk<K>, pass: &mut Pass<K>, note: Option<Note<K>>)
    requires pass { pass.old.lock ≡ Some desk.now }
    requires note { IfSome note (λ n. n.lock ≡ Some desk.now) }
    ensures watches { Watches pass.old pass.new }
    ensures met { Meets pass.new note }
{
    if let Some(note) = note {
        desk.meet(pass, note);
    }
}
