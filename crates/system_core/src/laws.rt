//! Laws of the core, each the contract of a function that does nothing.
ghost use Rattle.std.specs.Prelude.{◌≡◌, ◌++◌, ℕ, List, All, Err, true, option_map};
ghost use Rattle.std.specs.List.{IsDistinct};
ghost use Rattle.std.specs.Map.{keys_of, values_of};
ghost use Rattle.base_core.specs.Words.{same_name};
ghost use Rattle.base_core.specs.Lacks.{is_denial};
ghost use Rattle.base_core.specs.declared.name.Name.{Name};
ghost use Rattle.base_core.specs.declared.name.User.{User};
ghost use Rattle.base_core.specs.declared.value.Moment.{Moment};
ghost use Rattle.base_core.specs.declared.value.Column.{Column};
ghost use Rattle.base_core.specs.declared.lack.Lack.{Lack};
ghost use Rattle.base_core.specs.declared.limits.Limits.{Limits};
ghost use Rattle.reader_core.specs.declared.statement.Statement.{Statement};
ghost use Rattle.tables_core.specs.Contents.{table_of};
ghost use Rattle.tables_core.specs.Fitting.{RowsFit};
ghost use Rattle.monitor_core.specs.Verdict.{is_table, columns_of};
ghost use Rattle.grants_core.specs.Owners.{owner_of};
ghost use Rattle.system_core.specs.Journal.{tables_at, rights_at, IsLawful};
ghost use Rattle.system_core.specs.World.{World, IsLawfulWorld};
ghost use Rattle.system_core.specs.Judging.{verdict_of, judged_at};
ghost use Rattle.system_core.specs.Step.{lack_reply, Step};
ghost use Rattle.system_core.specs.Entering.{entered, Enters};
ghost use Rattle.system_core.specs.declared.machine.event.Entry.{Entry};
ghost use Rattle.system_core.specs.declared.machine.event.Event.{Event};
ghost use Rattle.system_core.specs.declared.machine.event.Reply.{Reply};

/// A statement whose verdict is a lack is answered by that lack at the moment judged, and the world
/// stays. The lack is never out of memory, so `no memory` is never answered in its place.
pub fn lacks_are_answered()
    ensures answered { (old new : World) (pass : ℕ) (user : User) (asked : Statement) (lack : Lack)
        (reply : Reply)
        → verdict_of old user asked ≡ Err lack
        → Step old (Event.Say pass user asked) reply new
        → (reply ≡ lack_reply (judged_at old asked lack) lack) × (new ≡ old) }
    ensures memory { (old : World) (user : User) (asked : Statement) (lack : Lack)
        → verdict_of old user asked ≡ Err lack
        → lack ≡ Lack.NoMemory
        → ⊥ }
{}

/// Who is denied a statement is denied its description, by the reply that the statement would get.
pub fn denials_are_alike()
    ensures { (old new : World) (pass : ℕ) (user : User) (asked : Statement) (lack : Lack)
        (reply : Reply)
        → verdict_of old user asked ≡ Err lack
        → is_denial lack ≡ true
        → Step old (Event.Describe user asked) reply new
        → Step old (Event.Say pass user asked) reply new }
{}

/// A step enters a statement that was done in the journal, by its pass and user, and else nothing.
/// No checkpoint is unbegun, and chunk and limits stay.
pub fn steps_enter_what_was_done()
    ensures { (old new : World) (event : Event) (reply : Reply)
        → Step old event reply new
        → Enters (entered event reply) old new }
{}

/// A step from a lawful world leads to a lawful world.
pub fn steps_stay_lawful()
    ensures { (old new : World) (event : Event) (reply : Reply)
        → IsLawfulWorld old
        → Step old event reply new
        → IsLawfulWorld new }
{}

/// No step answers that turns are worn: that answer is a turn lock's.
pub fn worn_is_never_answered()
    ensures { (old new : World) (event : Event) (reply : Reply) (at : Moment)
        → Step old event reply new
        → reply ≡ Reply.Refused at Lack.Worn
        → ⊥ }
{}

/// In the tables of a lawful journal the rows of each fit its columns, as many values as columns
/// and each of its column's type. No two tables have one name. And the owner that the rights name
/// of a name is the owner of the table of that name: where there is no such table, there is none.
pub fn tables_are_sound()
    ensures rows { (limits : Limits) (journal : List Entry)
        → IsLawful limits journal
        → All RowsFit (values_of (tables_at journal)) }
    ensures names { (limits : Limits) (journal : List Entry)
        → IsLawful limits journal
        → IsDistinct same_name (keys_of (tables_at journal)) }
    ensures owners { (limits : Limits) (journal : List Entry) (name : Name)
        → IsLawful limits journal
        → owner_of (rights_at journal).owners name
        ≡ option_map (λ t. t.owner) (table_of (tables_at journal) name) }
{}

/// A table has its columns for good: in a lawful journal that begins with another one, each table of
/// that has the same columns. So of two descriptions of one statement, in the order of one history,
/// the later one tells what the earlier told, whoever asked.
pub fn columns_stay()
    ensures tables { (limits : Limits) (journal more : List Entry) (name : Name)
        → IsLawful limits (journal ++ more)
        → is_table (tables_at journal) name ≡ true
        → columns_of (tables_at (journal ++ more)) name ≡ columns_of (tables_at journal) name }
    ensures descriptions { (old later : World) (more : List Entry) (user other : User)
        (asked : Statement) (at at_later : Moment) (columns found : List Column) (new next : World)
        → IsLawfulWorld later
        → later.journal ≡ old.journal ++ more
        → Step old (Event.Describe user asked) (Reply.Described at columns) new
        → Step later (Event.Describe other asked) (Reply.Described at_later found) next
        → found ≡ columns }
{}
