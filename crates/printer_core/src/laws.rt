//! Laws of printing, each the contract of an empty function.
ghost use Rattle.std.specs.Prelude.{◌≤◌, ◌+◌, ℕ, List, All, length, drop};
ghost use Rattle.base_core.specs.Words.{IsName};
ghost use Rattle.base_core.specs.declared.name.User.{User};
ghost use Rattle.reader_core.specs.declared.statement.Statement.{Statement};
ghost use Rattle.reader_core.specs.Forming.{IsWellFormed};
ghost use Rattle.reader_core.specs.Language.{Spells};
ghost use Rattle.printer_core.specs.Printing.{canonical, minified, journal_line, HoldsProper};

/// The canonical text of a statement spells it, where it has at most 4,096 bytes, and where the
/// statement holds what its types keep: lists with their limits and distinctness (`IsWellFormed`),
/// and names, numbers and texts as they may be (`HoldsProper`). So what is printed is read back.
pub fn printed_is_read()
    ensures { (s : Statement) → IsWellFormed s → HoldsProper s → length (canonical s) ≤ 4096
        → Spells (canonical s) s }
{}

/// The canonical text of a statement that some line spells spells it too, where it has at most
/// 4,096 bytes: to print what was read and to read it again gives the same statement.
pub fn read_is_printed()
    ensures { (line : List ℕ) (s : Statement) → Spells line s → length (canonical s) ≤ 4096
        → Spells (canonical s) s }
{}

/// The minified text of a statement that some line spells spells it too.
pub fn read_is_minified()
    ensures { (line : List ℕ) (s : Statement) → Spells line s → Spells (minified s) s }
{}

/// No line that spells a statement has fewer bytes than its minified text, which is so the
/// shortest of them, and has at most 4,096 bytes.
pub fn no_line_is_shorter()
    ensures { (line : List ℕ) (s : Statement) → Spells line s
        → length (minified s) ≤ length line }
{}

/// A line of a journal has at most 4,128 bytes, where some line spells its statement, and where the
/// user's name has at most 30.
pub fn journal_line_is_short()
    ensures { (line : List ℕ) (user : User) (s : Statement) → Spells line s → length user.0 ≤ 30
        → length (journal_line user s) ≤ 4128 }
{}

/// What stands behind the colon in a line of a journal spells its statement, where some line
/// spells it. So the line is read again as what the user asked.
pub fn journal_line_is_read()
    ensures { (line : List ℕ) (user : User) (s : Statement) → Spells line s
        → Spells (drop (length user.0 + 1) (journal_line user s)) s }
{}

/// No byte of a line of a journal is below 32, so that it holds no line end, where some line spells
/// its statement, and where the user's name is one.
pub fn journal_line_is_one_line()
    ensures { (line : List ℕ) (user : User) (s : Statement) → Spells line s → IsName user.0
        → All (λ b. 32 ≤ b) (journal_line user s) }
{}
