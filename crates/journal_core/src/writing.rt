//! A whole journal, written at once.
ghost use Rattle.std.specs.Prelude.{◌≡◌, ◌↔◌, true, false, IsErrOf, OnOk};
ghost use Rattle.std.specs.List.{AllByRecursion};
ghost use Rattle.base_core.specs.Streams.{MayWriteText};
ghost use Rattle.journal_core.specs.Text.{journal_text, WasRead};
ghost use Rattle.journal_core.specs.Keeping.{EndsJournal};

use base_core::{Broken, Sink, write_all};
use printer_core::Page;
use std::alloc::Global;
use system_core::{Entry, System};

/// Why a journal was not written whole.
#[derive(Clone, Copy, Debug, PartialEq, Eq)]
pub enum JournalFault {
    /// There was no memory for a page of one line: nothing was written.
    NoMemory,
    /// The writer failed.
    Write,
}

/// Writes the lines of the entries.
fn write_lines<W: Sink>(page: &mut Page, writer: &mut W, entries: &[Entry]) -> Result<(), Broken>
    requires works { W.failed writer.old ≡ false }
    requires read { AllByRecursion WasRead entries.now }
    ensures { MayWriteText W.failed W.taken (journal_text entries.now)
        result writer.old writer.new }
{
    for entry in entries {
        write_all(writer, page.line(entry.user, &entry.statement))?;
    }
    Ok(())
}

/// Writes the lines of the core's journal, of which a line can say each entry, and has the writer
/// hand them on. `Write` is answered exactly where the writer has failed: then it took a front of
/// them.
pub fn write_journal<W: Sink>(
    alloc: Global,
    system: &System,
    writer: &mut W,
) -> Result<(), JournalFault>
    requires works { W.failed writer.old ≡ false }
    requires read { AllByRecursion WasRead system.now.journal }
    ensures write { IsErrOf result JournalFault.Write ↔ (W.failed writer.new ≡ true) }
    ensures ends { EndsJournal result system.now.journal
        (W.taken writer.old) (W.taken writer.new) }
    ensures handed_on { OnOk result (W.handed_on writer.new ≡ W.taken writer.new) }
{
    let Ok(mut page) = Page::new(alloc) else {
        return Err(JournalFault::NoMemory);
    };
    let Ok(()) = write_lines(&mut page, writer, system.journal()) else {
        return Err(JournalFault::Write);
    };
    match writer.flush() {
        Ok(()) => Ok(()),
        Err(Broken) => Err(JournalFault::Write),
    }
}
