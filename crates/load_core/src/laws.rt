//! Laws of loading, each the contract of a function that does nothing.
ghost use Rattle.std.specs.Prelude.{◌≡◌, ◌++◌, ℕ, List, [], ◌∷◌, length, map, drop, Option, None, false, Ok};
ghost use Rattle.std.specs.List.{AllByRecursion};
ghost use Rattle.std.specs.Str.Lines.{lines};
ghost use Rattle.base_core.specs.declared.limits.Limits.{Limits};
ghost use Rattle.lines_core.specs.Serving.{Traffic};
ghost use Rattle.system_core.specs.Journal.{IsLawful, IsLawfulFrom};
ghost use Rattle.system_core.specs.declared.machine.event.Entry.{Entry};
ghost use Rattle.journal_core.specs.Text.{entry_text, journal_lines, journal_text, WasRead};
ghost use Rattle.system_core.specs.World.{World, IsLawfulWorld};
ghost use Rattle.lines_core.specs.Lines.{IsWhole};
ghost use Rattle.journal_core.specs.Keeping.{KeepsAll, LineKeeperState, KeepsLine, OwesLine, line_rules};
ghost use Rattle.script_core.specs.Keeping.{EndsKept, EndsKeptFrom};
ghost use Rattle.load_core.specs.Kept.{CanBeLoaded, CanBeLoadedBehind, LoadsCutEnd, CanBeLoadedCut};
ghost use Rattle.load_core.specs.Loading.{Loads, SaysChange, IsUndone, lines_unmarked, without_pass};
ghost use Rattle.load_core.specs.Replaying.{is_out_of_memory};
ghost use Rattle.load_core.specs.declared.fault.Undone.{Undone};

use journal_core::Errands;

/// The lines of a lawful journal load it, each entry but for its pass, which no line names, where
/// the statement of each entry was read from some line, and its user's name is one. The text of the
/// journal has just these lines. So a journal that was written is as good as the core that made it.
pub fn journal_is_loaded()
    ensures loads { (limits : Limits) (journal : List Entry)
        → IsLawful limits journal
        → AllByRecursion WasRead journal
        → Loads limits [] (lines_unmarked (journal_lines journal)) (map without_pass journal) }
    ensures text { (journal : List Entry)
        → AllByRecursion WasRead journal
        → lines (journal_text journal) ≡ journal_lines journal }
{}

/// What lines load is one journal.
pub fn lines_load_one_journal()
    ensures { (limits : Limits) (start one other : List Entry) (ls : List (List ℕ))
        → Loads limits start ls one
        → Loads limits start ls other
        → one ≡ other }
{}

/// A script whose changes are kept as lines is as good as its file: what the sink took is a text of
/// whole lines, which load the journal that the script left, whatever else its lines said.
pub fn script_is_kept<W: Errands>()
    ensures { (chunk : ℕ) (new : World) (keeper keeper' : LineKeeperState) (traffic : Traffic)
        → keeper.owed ≡ None
        → EndsKept (line_rules W.may_run W.knows) chunk (Ok new) keeper keeper' traffic
        → CanBeLoaded new.limits keeper.taken keeper'.taken new.journal }
{}

/// No line that says a change which is allowed is left out: whatever a line came to that was not
/// done, it says none, or memory ran out.
pub fn nothing_allowed_is_left_out()
    ensures { (most : ℕ) (w : World) (line : List ℕ) (why : Undone)
        → IsUndone most w line why
        → is_out_of_memory why ≡ false
        → (e : Entry) → SaysChange most w.limits w.journal line e → ⊥ }
{}

/// A file that loads a journal, gone on with, loads what the journal came to: behind its lines, each
/// with its line feed, stands the text of entries that could be read and were allowed, one after
/// another.
pub fn gone_on_is_kept()
    ensures { (limits : Limits) (old text : List ℕ) (start entries : List Entry)
        → IsWhole old
        → Loads limits [] (lines_unmarked (lines old)) start
        → AllByRecursion WasRead entries
        → IsLawfulFrom limits start entries
        → text ≡ journal_text entries
        → Loads limits [] (lines_unmarked (lines (old ++ text)))
        (start ++ map without_pass entries) }
{}

/// So a core that goes on from what a file loaded, and whose changes are kept as lines behind that
/// file, is as good as the file with them: what the sink took is a text of whole lines, and with it
/// the file loads the core's journal, each of its new entries but for its pass.
pub fn kept_goes_on()
    ensures { (limits : Limits) (old : List ℕ) (start rest journal : List Entry)
        (begun keeper : LineKeeperState)
        → KeepsAll KeepsLine begun (drop (length start) journal) keeper
        → journal ≡ start ++ rest
        → IsLawful limits journal
        → IsWhole old
        → Loads limits [] (lines_unmarked (lines old)) start
        → CanBeLoadedBehind limits old begun.taken keeper.taken
        (start ++ map without_pass rest) }
{}

/// And so is a script that goes on from a core that was loaded, whose changes are kept as lines
/// behind the file.
pub fn gone_on_script_is_kept<W: Errands>()
    ensures { (start new : World) (old : List ℕ) (keeper keeper' : LineKeeperState)
        (traffic : Traffic)
        → keeper.owed ≡ None
        → IsLawfulWorld start
        → IsWhole old
        → Loads start.limits [] (lines_unmarked (lines old)) start.journal
        → EndsKeptFrom (line_rules W.may_run W.knows) start (Ok new) keeper keeper' traffic
        → CanBeLoadedBehind start.limits old keeper.taken keeper'.taken
        new.journal }
{}

/// A file whose last line was broken off at any byte loads what was told. Behind a file that loads a
/// journal stands the text of entries that could be read and were allowed, one after another, and
/// then a front of the text of one more. Its whole lines, which [`load_whole`](crate::load_whole)
/// reads, load the journal with the entries; and only if nothing is missing, the one more behind
/// them.
pub fn cut_end_is_kept()
    ensures { (limits : Limits) (old front missing : List ℕ) (start entries : List Entry)
        (e : Entry)
        → IsWhole old
        → Loads limits [] (lines_unmarked (lines old)) start
        → AllByRecursion WasRead (entries ++ e ∷ [])
        → IsLawfulFrom limits start (entries ++ e ∷ [])
        → entry_text e ≡ front ++ missing
        → LoadsCutEnd limits (old ++ journal_text entries ++ front)
        (start ++ map without_pass entries) e missing }
{}

/// And so does a file behind which a keeper kept changes as lines, and owes what is left of one more.
/// With what its sink took, the file's whole lines load the journal that was kept; and only if it took
/// all of that line, behind the journal the one change that is owed, of which nobody was told.
pub fn told_is_loaded()
    ensures { (limits : Limits) (old : List ℕ) (start kept : List Entry) (e : Entry)
        (begun mid keeper : LineKeeperState)
        → KeepsAll KeepsLine begun kept mid
        → OwesLine mid e keeper
        → IsLawful limits (start ++ kept ++ e ∷ [])
        → IsWhole old
        → Loads limits [] (lines_unmarked (lines old)) start
        → CanBeLoadedCut limits old begun.taken keeper.taken start kept e }
{}
