//! A law of kept lines, the contract of a function that does nothing.
ghost use Rattle.std.specs.Prelude.{◌≡◌, ◌++◌, List, ℕ, unwrap_or, []};
ghost use Rattle.std.specs.Io.KnownBytes.{Appends};
ghost use Rattle.system_core.specs.declared.machine.event.Entry.{Entry};
ghost use Rattle.journal_core.specs.Text.{journal_text};
ghost use Rattle.journal_core.specs.Keeping.{KeepsAll, KeepsOrOwes, LineKeeperState, KeepsLine, line_rules};

use crate::errands::Errands;

/// What was kept as lines, one entry after another, stands in the sink as the text of these
/// entries, in order and with nothing else. Where the last of them is owed, that text ends with what
/// is still to be written, and the rest of it stands in the sink.
pub fn kept_lines_are_the_text<W: Errands>()
    ensures kept { (old new : LineKeeperState) (entries : List Entry)
        → KeepsAll KeepsLine old entries new
        → Appends old.taken new.taken (journal_text entries) }
    ensures owed { (old new : LineKeeperState) (entries : List Entry)
        → KeepsOrOwes (line_rules W.may_run W.knows) old entries new
        → (text : List ℕ)
        × (journal_text entries ≡ text ++ unwrap_or new.owed [])
        × Appends old.taken new.taken text }
{}
