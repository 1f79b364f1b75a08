//! Laws of the dump, each the contract of a function that does nothing.
ghost use Rattle.dump_core.specs.Laws.{LengthOfDump, GrantsAreTogether, DumpIsLawful, DumpIsWellFormed, DumpIsAlike, AlikeHaveOneDump, DumpIsItsOwnDump, AlikeJudgeAlike, AlikeJudgeQueriesAlike, AlikeAnswerAlike, AlikeStayAlike, DumpServesAsWell, ImageIsDumped};
ghost use Rattle.dump_core.specs.Loaded.{DumpIsLoaded};

/// The dump has a statement for each table, each row and all grants in force that are together, so
/// at most one for each grant. The dump of a lawful journal of well-formed statements is lawful,
/// where it has no more statements than there may be changes, and its statements are well formed.
/// It leaves the same tables with the same rows, and the same grants in force, all in the same
/// order. It depends on nothing else, so that it is its own dump.
pub fn dump_leaves_the_same()
    ensures length { LengthOfDump }
    ensures few { GrantsAreTogether }
    ensures lawful { DumpIsLawful }
    ensures formed { DumpIsWellFormed }
    ensures alike { DumpIsAlike }
    ensures one { AlikeHaveOneDump }
    ensures again { DumpIsItsOwnDump }
{}

/// Journals that leave the same judge each statement alike, and the same rows answer a query. A
/// change is to be within the limit of changes after both.
pub fn alike_judge_alike()
    ensures changes { AlikeJudgeAlike }
    ensures queries { AlikeJudgeQueriesAlike }
    ensures rows { AlikeAnswerAlike }
{}

/// Journals that leave the same leave the same again after whatever is lawful after the one, if it
/// is within the limit of changes after the other; and there it is lawful too. So from then on a
/// dump serves as well as its journal.
pub fn alike_stay_alike()
    ensures any { AlikeStayAlike }
    ensures dump { DumpServesAsWell }
{}

/// What [`write_dump`](crate::write_dump) has written of a lawful journal of well-formed statements
/// is a file to load: its lines load the dump, which leaves what the journal leaves.
pub fn dump_is_loaded()
    ensures { DumpIsLoaded }
{}

/// What an image keeps is dumped as the journal at its point is: so the dump of an image, written while
/// everybody goes on, loads what the first so many changes left.
pub fn image_is_dumped()
    ensures { ImageIsDumped }
{}
