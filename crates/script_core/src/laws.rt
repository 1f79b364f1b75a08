//! Laws of scripts, each the contract of a function that does nothing.
ghost use Rattle.std.specs.Prelude.{◌≡◌, ◌⊎◌, ℕ, List, Option, false, Ok, Err};
ghost use Rattle.lines_core.specs.Serving.{AnswersAll, Traffic};
ghost use Rattle.lines_core.specs.declared.serving.SessionFault.{SessionFault};
ghost use Rattle.system_core.specs.World.{World};
ghost use Rattle.journal_core.specs.Keeping.{KeepsAll};
ghost use Rattle.script_core.specs.InFull.{AnswersInFull, TellsOfMemory};
ghost use Rattle.script_core.specs.Script.{Answers, EndsScript};
ghost use Rattle.journal_core.specs.Recorder.{WithKeeper, with_keeper};
ghost use Rattle.script_core.specs.Keeping.{KeepsNew, AnswersKept, AnswersFront, EndsKeptFrom, EndsKept};
ghost use Rattle.script_core.specs.declared.scripts.fault.ScriptFault.{ScriptFault};

use journal_core::Keeper;

/// Where memory is never told of, the output is one. Lines that are answered in full, one after
/// another, from one world have one text and lead to one world. What is answered in full is
/// answered; and an answer is in full, or a line that tells of memory stands in it, as a line.
pub fn one_output()
    ensures one { (old new last : World) (lines : List (List ℕ)) (text other : List ℕ)
        → AnswersAll AnswersInFull old lines text new
        → AnswersAll AnswersInFull old lines other last
        → (text ≡ other) × (new ≡ last) }
    ensures answer { (old new : World) (line text : List ℕ)
        → AnswersInFull old line text new → Answers old line text new }
    ensures full { (old new : World) (line text : List ℕ)
        → Answers old line text new
        → AnswersInFull old line text new ⊎ TellsOfMemory text }
{}

/// Nothing that was told is missing. Of lines that are answered with a keeper, a front is answered as
/// it is without one, and its changes were kept, one after another. It is all lines; or the change of
/// the next line could not be kept, and nothing is written for that line or behind it. So the entries
/// that were kept are those by which the journal grew, or all of them but the last. Where the
/// answering from some core ends without a fault, they are all of them (clause `grown`); of a script
/// they are its journal.
pub fn what_was_told_is_kept<K: Keeper>()
    ensures front { (old new : WithKeeper K) (lines : List (List ℕ)) (text : List ℕ)
        → K.owing old.keeper ≡ false
        → AnswersAll (AnswersKept K.Keeper) old lines text new
        → AnswersFront K.Keeper old lines text new }
    ensures grown { (start new : World) (keeper keeper' : K)
        (traffic : Traffic)
        → K.owing keeper ≡ false
        → EndsKeptFrom K.Keeper start (Ok new) keeper keeper'
        traffic
        → KeepsNew K.Keeper (with_keeper start keeper) (with_keeper new keeper') }
    ensures journal { (chunk : ℕ) (new : World) (keeper keeper' : K)
        (traffic : Traffic)
        → K.owing keeper ≡ false
        → EndsKept K.Keeper chunk (Ok new) keeper keeper' traffic
        → KeepsAll K.keeps keeper new.journal keeper' }
{}

/// A keeper that never owes, as [`NoKeeper`](journal_core::NoKeeper), changes nothing: whatever ends with it
/// ends as a script without one, and never for want of it.
pub fn keeping_changes_nothing<K: Keeper>()
    ensures ok { (chunk : ℕ) (new : World) (keeper keeper' : K)
        (traffic : Traffic)
        → ((k : K) → K.owing k ≡ false)
        → EndsKept K.Keeper chunk (Ok new) keeper keeper' traffic
        → EndsScript chunk (Ok new) traffic }
    ensures fault { (chunk : ℕ) (fault : SessionFault) (keeper keeper' : K)
        (traffic : Traffic)
        → ((k : K) → K.owing k ≡ false)
        → EndsKept K.Keeper chunk (Err (ScriptFault.Session fault)) keeper keeper'
        traffic
        → EndsScript chunk (Err fault) traffic }
    ensures journal { (chunk : ℕ) (keeper keeper' : K)
        (traffic : Traffic)
        → ((k : K) → K.owing k ≡ false)
        → EndsKept K.Keeper chunk (Err ScriptFault.Journal) keeper keeper'
        traffic
        → ⊥ }
{}
