//! A system and the keeper of its changes: what is asked is carried out, kept, and then may be told.
ghost use Rattle.std.specs.Prelude.{◌≡◌, ℕ, List, [], ◌∷◌, ◌++◌, true, false, Ok, IfOk, OnOk, OnErr, MatchResult};
ghost use Rattle.reader_core.specs.Language.{Spells};
ghost use Rattle.monitor_core.specs.Verdict.{is_change};
ghost use Rattle.system_core.specs.Journal.{verdict_at};
ghost use Rattle.system_core.specs.Step.{Step, change_reply};
ghost use Rattle.system_core.specs.World.{moment_of, next_moment};
ghost use Rattle.system_core.specs.Entering.{entered};
ghost use Rattle.system_core.specs.declared.machine.event.Entry.{Entry};
ghost use Rattle.journal_core.specs.Keeping.{KeepsOrOwes};
ghost use Rattle.journal_core.specs.Recorder.{with_keeper, event_of_entry, says_change, IsSpelledEvent, KeepsNext, StepsKept};

use crate::keeper::Keeper;
use base_core::{Broken, Moment, NoMemory};
use system_core::{Entry, Event, Reply, System};

/// A reply is withheld: the change is owed, or it was not entered, since what was owed before could
/// not be kept.
#[derive(Clone, Copy)]
pub struct Unkept;

/// A reply, and whether it may be told.
#[derive(Drop)]
pub struct Acted {
    pub reply: Reply,
    pub told: bool,
}

/// Keeps the last entry of the system's journal, as [`Keeper::keep`] does.
// Where the keeper keeps nothing, nothing is left of it.
#[inline(always)]
fn keep_last<K: Keeper>(system: &System, keeper: &mut K) -> Result<(), Broken>
    requires settled { K.owing keeper.old ≡ false }
    requires last { (front : List Entry) × (last : Entry) × (line : List ℕ)
        × (system.now.journal ≡ front ++ last ∷ []) × Spells line last.statement }
    ensures owing { MatchResult result (λ _. K.owing keeper.new ≡ false)
        (λ _. K.owing keeper.new ≡ true) }
    ensures ok { OnOk result ((front : List Entry) (last : Entry)
        → system.now.journal ≡ front ++ last ∷ [] → K.keeps keeper.old last keeper.new) }
    ensures err { OnErr result ((front : List Entry) (last : Entry)
        → system.now.journal ≡ front ++ last ∷ [] → K.owes keeper.old last keeper.new) }
{
    let Some(entry) = system.journal().last() else {
        unreachable!()
    };
    keeper.keep(entry)
}

/// One event, as [`act`] does it, where nothing is owed.
#[inline(always)]
fn act_next<K: Keeper>(system: &mut System, keeper: &mut K, event: Event) -> Acted
    requires settled { K.owing keeper.old ≡ false }
    requires spelled { IsSpelledEvent event }
    ensures step { Step system.old event result.reply system.new }
    ensures keeping { KeepsNext K.Keeper keeper.old (entered event result.reply)
        result.told keeper.new }
    ensures withheld { result.told ≡ false → says_change event ≡ true }
{
    let reply = system.step(event);
    if !reply.is_done() {
        return Acted { reply, told: true };
    }
    let told = keep_last(system, keeper).is_ok();
    Acted { reply, told }
}

/// What an entry says, as an event.
fn event_of(entry: Entry) -> Event
    ensures { result ≡ event_of_entry entry }
{
    let Entry {
        pass,
        user,
        statement,
    } = entry;
    Event::Say {
        pass,
        user,
        statement,
    }
}

/// What a user says, as [`act`] does it, where something is owed.
fn say_owing<K: Keeper>(system: &mut System, keeper: &mut K, entry: Entry) -> Acted
    requires owing { K.owing keeper.old ≡ true }
    requires spelled { (line : List ℕ) × Spells line entry.statement }
    ensures { StepsKept K.Keeper (with_keeper system.old keeper.old) (event_of_entry entry)
        result.reply result.told (with_keeper system.new keeper.new) }
{
    if !system.may_change(&entry) {
        let reply = system.step(event_of(entry));
        return Acted { reply, told: true };
    }
    match keeper.settle() {
        Ok(()) => act_next(system, keeper, event_of(entry)),
        Err(Broken) => {
            drop(entry);
            let reply = Reply::to_change(system.moment(), Err(NoMemory));
            Acted { reply, told: false }
        }
    }
}

/// One event, as [`act`] does it, where something is owed.
#[inline(never)]
fn act_owing<K: Keeper>(system: &mut System, keeper: &mut K, event: Event) -> Acted
    requires owing { K.owing keeper.old ≡ true }
    requires spelled { IsSpelledEvent event }
    ensures { StepsKept K.Keeper (with_keeper system.old keeper.old) event
        result.reply result.told (with_keeper system.new keeper.new) }
{
    match event {
        Event::Say {
            pass,
            user,
            statement,
        } => {
            let entry = Entry {
                pass,
                user,
                statement,
            };
            say_owing(system, keeper, entry)
        }
        Event::Step => Acted {
            reply: system.step(Event::Step),
            told: true,
        },
        Event::Abandon => Acted {
            reply: system.step(Event::Abandon),
            told: true,
        },
        Event::Describe { user, statement } => Acted {
            reply: system.step(Event::Describe { user, statement }),
            told: true,
        },
    }
}

/// One event: a step of the system, whose change is kept before the reply may be told. Of a
/// statement some line has to spell it. A change that could not be kept is entered and owed, and its
/// reply may not be told. Where something is owed from before, an allowed change first has the keeper
/// settle it; where that cannot be, it is not entered: its reply is the refusal `NoMemory`, and may
/// not be told. All else is carried out, and may be told, as it enters nothing.
#[inline(always)]
pub fn act<K: Keeper>(system: &mut System, keeper: &mut K, event: Event) -> Acted
    requires spelled { IsSpelledEvent event }
    ensures { StepsKept K.Keeper (with_keeper system.old keeper.old) event
        result.reply result.told (with_keeper system.new keeper.new) }
{
    if keeper.is_owing() {
        return act_owing(system, keeper, event);
    }
    act_next(system, keeper, event)
}

/// An allowed change alone, as [`act`] does it, and as [`System::change`] tells of it: the moment
/// that it made, or `NoMemory`, and then nothing has changed. `Unkept` where it was made and is
/// owed.
#[inline(always)]
pub fn enter<K: Keeper>(
    system: &mut System,
    keeper: &mut K,
    entry: Entry,
) -> Result<Result<Moment, NoMemory>, Unkept>
    requires settled { K.owing keeper.old ≡ false }
    requires spelled { (line : List ℕ) × Spells line entry.statement }
    requires allowed { let now = system.old in
        verdict_at now.limits now.journal entry.user entry.statement ≡ Ok tt }
    requires change { is_change entry.statement ≡ true }
    ensures told { IfOk result (λ made. StepsKept K.Keeper
        (with_keeper system.old keeper.old) (event_of_entry entry)
        (change_reply (moment_of system.old) made) true (with_keeper system.new keeper.new)) }
    ensures unkept { OnErr result (StepsKept K.Keeper
        (with_keeper system.old keeper.old) (event_of_entry entry)
        (change_reply (moment_of system.old) (Ok (next_moment system.old))) false
        (with_keeper system.new keeper.new)) }
{
    let made = match system.change(entry) {
        Ok(made) => made,
        Err(NoMemory) => return Ok(Err(NoMemory)),
    };
    match keep_last(system, keeper) {
        Ok(()) => Ok(Ok(made)),
        Err(Broken) => Err(Unkept),
    }
}

/// Has the keeper try once more to keep what it owes, if it owes something.
pub fn settle_owed<K: Keeper>(keeper: &mut K)
    ensures { (start : K) (entries : List Entry)
        → KeepsOrOwes K.Keeper start entries keeper.old
        → KeepsOrOwes K.Keeper start entries keeper.new }
{
    if keeper.is_owing() {
        let _ = keeper.settle();
    }
}
