//! The core behind a turn lock.
ghost use Rattle.std.specs.Prelude.{◌≡◌, ◌≢◌, ◌+◌, ◌<◌, ◌≤◌, ◌^◌, ℕ, List, length, All, Some, true, false, option_map, IfOk, IfErr, IfSome, OnOk, OnErr};
ghost use Rattle.std.specs.Arc.{arc_value};
ghost use Rattle.capture_core.specs.declared.image.Image.{Image};
ghost use Rattle.system_core.specs.World.{World, IsLawfulWorld};
ghost use Rattle.system_core.specs.Imaging.{IsKeptImage};
ghost use Rattle.system_core.specs.declared.machine.event.Entry.{Entry};
ghost use Rattle.turnstile.specs.Logs.{StartsWith};
ghost use Rattle.turnstile.specs.Passes.{IsSamePass, mine, new_passes};
ghost use Rattle.turnstile.specs.Closed.{AreAll};
ghost use Rattle.desk_core.specs.declared.object.Ask.TheVariants as asks;
ghost use Rattle.reader_core.specs.Language.{Spells};
ghost use Rattle.monitor_core.specs.Verdict.{is_change};
ghost use Rattle.journal_core.specs.Recorder.{says_change};
ghost use Rattle.desk_core.specs.Acting.{event_of};
ghost use Rattle.desk_core.specs.Guarded.{origin_of, origin_at};
ghost use Rattle.desk_core.specs.Kept.{HasKept, IsKept};
ghost use Rattle.desk_core.specs.Turns.{asked_by, Took, Answered, Ended};

use crate::last_size::LastSize;
use crate::object::{Ask, Core, Look, Purpose, Said};
use base_core::{Lack, Moment, NoMemory, User};
use capture_core::Image;
use folder_core::Errand;
use journal_core::{Keeper, Unkept, settle_owed};
use reader_core::Statement;
use std::alloc::Global;
use std::marker::Model;
use std::sync::{Arc, Wait};
use system_core::{Reply, Size, System};
use turnstile::{Turnstile, Worn};

/// What its holder knows of the core: the beginning of the journal that he has seen.
pub type Pass<K> = turnstile::Pass<Core<K>>;

/// What a pass had seen, for another to meet.
pub type Note<K> = turnstile::Note<Core<K>>;

/// A core that threads share by turns, with what keeps its changes. Contracts see the turn lock: how
/// many passes it has, and what it was built on (`origin_of`): the chunk and the limits of its core,
/// how many entries the journal had, and the keeper as it was handed in.
#[derive(Drop)]
pub struct Desk<K: Keeper + Drop> {
    turnstile: Turnstile<Core<K>>,
    size: LastSize,
}

impl<K: Keeper + Drop> Model for Desk<K> {
    ghost use Rattle.desk_core.specs.Guarded.{DeskLock};

    ghost Value = { DeskLock K };

    ghost view = { λ d. d.turnstile };
}

impl<K: Keeper + Drop> Desk<K> {
    /// A desk with `count` passes, from 1 to 64, and this system, of which no checkpoint was begun.
    /// Each entry of its journal bears the number of a pass. The keeper, which owes nothing, keeps
    /// what is entered from now on. Turns are counted from 0. The passes are numbered from 0 and have
    /// seen the journal. `NoMemory` where a request for memory was refused.
    pub fn build(
        alloc: Global,
        system: System,
        keeper: K,
        count: usize,
    ) -> Result<(Desk<K>, Vec<Pass<K>>), NoMemory>
        requires counts { (0 < count) × (count ≤ 64) }
        requires unbegun { system.begun ≡ 0 }
        requires bears { All (λ e. e.pass < count) system.journal }
        requires settled { K.owing keeper ≡ false }
        ensures desk { IfOk result (λ b. (b.0.count ≡ count) × (b.0.start ≡ 0)) }
        ensures origin { IfOk result (λ b. origin_of b.0 ≡ origin_at system keeper) }
        ensures passes { IfOk result (λ b. b.1.items ≡ new_passes system.journal b.0) }
    {
        Desk::build_at(alloc, system, keeper, count, 0)
    }

    /// The same, with the turns counted from `start`, at most 2^62.
    pub fn build_at(
        alloc: Global,
        system: System,
        keeper: K,
        count: usize,
        start: u64,
    ) -> Result<(Desk<K>, Vec<Pass<K>>), NoMemory>
        requires counts { (0 < count) × (count ≤ 64) }
        requires unbegun { system.begun ≡ 0 }
        requires bears { All (λ e. e.pass < count) system.journal }
        requires settled { K.owing keeper ≡ false }
        requires start { start ≤ 2 ^ 62 }
        ensures desk { IfOk result (λ b. (b.0.count ≡ count) × (b.0.start ≡ start)) }
        ensures origin { IfOk result (λ b. origin_of b.0 ≡ origin_at system keeper) }
        ensures passes { IfOk result (λ b. b.1.items ≡ new_passes system.journal b.0) }
    {
        let size = LastSize::of(system.size());
        let core = Core::new(alloc, system, keeper)?;
        let (turnstile, passes) = Turnstile::build_at(alloc, core, count, start)?;
        Ok((Desk { turnstile, size }, passes))
    }

    /// A turn of the pass. What the core gives to be freed is freed behind the turn. Only the reply to
    /// a change is withheld.
    fn turn<R: Wait>(&self, rt: &R, pass: &mut Pass<K>, ask: Ask) -> Result<Reply, Unkept>
        requires { pass.old.lock ≡ Some self.now }
        ensures same { IsSamePass pass.old pass.new }
        ensures answered { IfOk result (λ reply. Answered self.now ask reply pass.old pass.new) }
        ensures kept { IfOk result (λ reply. pass.old.turns < pass.new.turns
            → IsKept K.Keeper (origin_of self.now) reply pass.new.seen) }
        ensures withheld { OnErr result ((reply : Reply)
            × Took self.now ask reply pass.old pass.new) }
        ensures change { OnErr result (says_change (event_of pass.old.number ask) ≡ true) }
    {
        match self.turnstile.turn(rt, pass, Purpose::Act(ask)) {
            Ok(answer) => answer.into_reply(&self.size),
            Err(Worn) => Ok(Reply::Refused {
                at: Moment(0),
                lack: Lack::Worn,
            }),
        }
    }

    /// One statement, which some line spells: an event of the core, in a turn of the pass. Where all
    /// turns are drawn it is refused with `Worn`, at 0, and the core is untouched. Where the reply
    /// tells of a change, all that was entered since the desk was built is kept; any other reply may
    /// be answered while what is left of the last change is owed. `Unkept` of a change alone: it was
    /// entered and is owed; or it was not entered, since what was owed before could not be kept.
    pub fn execute<R: Wait>(
        &self,
        rt: &R,
        pass: &mut Pass<K>,
        user: User,
        statement: Statement,
    ) -> Result<Reply, Unkept>
        requires pass { pass.old.lock ≡ Some self.now }
        requires spelled { (line : List ℕ) × Spells line statement }
        ensures same { IsSamePass pass.old pass.new }
        ensures answered { IfOk result (λ reply. Answered self.now
            (asks.Say (record { user = user; statement = statement })) reply pass.old pass.new) }
        ensures kept { IfOk result (λ reply. pass.old.turns < pass.new.turns
            → IsKept K.Keeper (origin_of self.now) reply pass.new.seen) }
        ensures withheld { OnErr result ((reply : Reply)
            × Took self.now
            (asks.Say (record { user = user; statement = statement })) reply pass.old pass.new) }
        ensures change { OnErr result (is_change statement ≡ true) }
    {
        self.turn(rt, pass, Ask::Say(Said::new(user, statement)))
    }

    /// Describes a statement, which some line spells, in a turn of the pass: the columns that its answer
    /// would have, or its denial. The statement is not carried out. `Worn` as in `execute`.
    pub fn describe<R: Wait>(
        &self,
        rt: &R,
        pass: &mut Pass<K>,
        user: User,
        statement: Statement,
    ) -> Reply
        requires pass { pass.old.lock ≡ Some self.now }
        requires spelled { (line : List ℕ) × Spells line statement }
        ensures same { IsSamePass pass.old pass.new }
        ensures answered { Answered self.now
            (asks.Describe (record { user = user; statement = statement })) result
            pass.old pass.new }
        ensures kept { pass.old.turns < pass.new.turns
            → IsKept K.Keeper (origin_of self.now) result pass.new.seen }
    {
        match self.turn(rt, pass, Ask::Describe(Said::new(user, statement))) {
            Ok(reply) => reply,
            Err(Unkept) => unreachable!(),
        }
    }

    /// One step of the checkpointer, in a turn of the pass. `Worn` as in `execute`.
    pub fn checkpoint_turn<R: Wait>(&self, rt: &R, pass: &mut Pass<K>) -> Reply
        requires { pass.old.lock ≡ Some self.now }
        ensures same { IsSamePass pass.old pass.new }
        ensures answered { Answered self.now asks.Step result pass.old pass.new }
        ensures kept { pass.old.turns < pass.new.turns
            → IsKept K.Keeper (origin_of self.now) result pass.new.seen }
    {
        match self.turn(rt, pass, Ask::Step) {
            Ok(reply) => reply,
            Err(Unkept) => unreachable!(),
        }
    }

    /// Gives the active checkpoint up, in a turn of the pass. `Worn` as in `execute`.
    pub fn abandon_turn<R: Wait>(&self, rt: &R, pass: &mut Pass<K>) -> Reply
        requires { pass.old.lock ≡ Some self.now }
        ensures same { IsSamePass pass.old pass.new }
        ensures answered { Answered self.now asks.Abandon result pass.old pass.new }
        ensures kept { pass.old.turns < pass.new.turns
            → IsKept K.Keeper (origin_of self.now) result pass.new.seen }
    {
        match self.turn(rt, pass, Ask::Abandon) {
            Ok(reply) => reply,
            Err(Unkept) => unreachable!(),
        }
    }

    /// Looks at what is kept, in a turn of the pass, which has then seen all that was entered. None where all
    /// turns are drawn.
    pub fn look<R: Wait>(&self, rt: &R, pass: &mut Pass<K>) -> Option<Look<K>>
        requires { pass.old.lock ≡ Some self.now }
        ensures same { IsSamePass pass.old pass.new }
        ensures made { mine asked_by pass.new ≡ mine asked_by pass.old }
        ensures seen { StartsWith pass.new.seen pass.old.seen }
        ensures mark { pass.old.mark ≤ pass.new.mark }
        ensures count { IfSome result (λ look. look.count ≡ length pass.new.seen) }
        ensures kept { IfSome result
            (λ look. HasKept K.Keeper (origin_of self.now) pass.new.seen look.keeper.value) }
    {
        match self.turnstile.turn(rt, pass, Purpose::Look) {
            Ok(answer) => Some(answer.into_look()),
            Err(Worn) => None,
        }
    }

    /// Finds the image of a checkpoint, if it is kept, in a turn of the pass, which has then seen all that was
    /// entered. It is shared, and nothing is copied. None where all turns are drawn; `NoMemory` where it could not
    /// be shared once more.
    pub fn image<R: Wait>(
        &self,
        rt: &R,
        pass: &mut Pass<K>,
        number: u64,
    ) -> Option<Result<Option<Arc<Image>>, NoMemory>>
        requires { pass.old.lock ≡ Some self.now }
        ensures same { IsSamePass pass.old pass.new }
        ensures made { mine asked_by pass.new ≡ mine asked_by pass.old }
        ensures seen { StartsWith pass.new.seen pass.old.seen }
        ensures mark { pass.old.mark ≤ pass.new.mark }
        ensures image { IfSome result (λ found. IfOk found (λ image. (w : World)
            × IsLawfulWorld w × (w.journal ≡ pass.new.seen)
            × IsKeptImage w number (option_map (arc_value {X = Image}) image))) }
        ensures kept { IfSome result (λ _. (keeper : K)
            × HasKept K.Keeper (origin_of self.now) pass.new.seen keeper) }
    {
        match self.turnstile.turn(rt, pass, Purpose::Find(number)) {
            Ok(answer) => Some(answer.into_found()),
            Err(Worn) => None,
        }
    }

    /// Has the keeper run an errand, in a turn of the pass, and says whether all of it was done. The keeper has to
    /// be one that may run it, whatever it has kept behind what the pass has seen. No where all turns are drawn.
    pub fn tend<R: Wait>(&self, rt: &R, pass: &mut Pass<K>, errand: Errand) -> bool
        requires pass { pass.old.lock ≡ Some self.now }
        requires may { (journal : List Entry) (keeper : K)
            → StartsWith journal pass.old.seen
            → HasKept K.Keeper (origin_of self.now) journal keeper
            → K.may_run keeper errand }
        ensures same { IsSamePass pass.old pass.new }
        ensures made { mine asked_by pass.new ≡ mine asked_by pass.old }
        ensures seen { StartsWith pass.new.seen pass.old.seen }
        ensures mark { pass.old.mark ≤ pass.new.mark }
    {
        match self.turnstile.turn(rt, pass, Purpose::Tend(errand)) {
            Ok(answer) => answer.is_run(),
            Err(Worn) => false,
        }
    }

    /// How large the core was behind the last turn that took a step of the checkpointer, or at first.
    pub fn size(&self) -> Size {
        self.size.get()
    }

    /// What the pass has seen, for another pass of this desk to meet.
    pub fn note(&self, pass: &mut Pass<K>) -> Note<K>
        requires { pass.old.lock ≡ Some self.now }
        ensures same { pass.new ≡ pass.old }
        ensures told { result
            ≡ record { lock = pass.old.lock; seen = pass.old.seen; mark = pass.old.mark } }
    {
        self.turnstile.note(pass)
    }

    /// From now on the pass has seen what the note tells too.
    pub fn meet(&self, pass: &mut Pass<K>, note: Note<K>)
        requires pass { pass.old.lock ≡ Some self.now }
        requires note { note.lock ≡ Some self.now }
        ensures same { IsSamePass pass.old pass.new }
        ensures keeps { (mine asked_by pass.new ≡ mine asked_by pass.old)
            × (pass.new.turns ≡ pass.old.turns)
            × (pass.new.drawn ≡ pass.old.drawn) }
        ensures seen { StartsWith pass.new.seen pass.old.seen × StartsWith pass.new.seen note.seen }
        ensures mark { (pass.old.mark ≤ pass.new.mark) × (note.mark ≤ pass.new.mark) }
    {
        self.turnstile.meet(pass, note);
    }

    /// The core and its keeper, where these are all passes of the desk. The keeper has kept all that
    /// was entered since it was handed in, in order and each once, and nothing else; unless it owes
    /// what is left of the last change, which it has tried once more to settle. Where a pass is
    /// missing, the desk and the passes are given back.
    pub fn close(self, passes: Vec<Pass<K>>) -> Result<(System, K), (Desk<K>, Vec<Pass<K>>)>
        requires { All (λ p. p.lock ≡ Some self) passes.items }
        ensures all { OnOk result (AreAll self passes.items) }
        ensures ok { IfOk result (λ b. Ended self passes.items b.0) }
        ensures kept { IfOk result
            (λ b. HasKept K.Keeper (origin_of self) b.0.journal b.1) }
        ensures missing { OnErr result (¬ AreAll self passes.items) }
        ensures err { IfErr result (λ e. (e.0 ≡ self) × (e.1 ≡ passes)) }
    {
        let Desk { turnstile, size } = self;
        match turnstile.close(passes) {
            Ok(core) => {
                let Core {
                    basis: _,
                    system,
                    mut keeper,
                } = core;
                // The journal says that the world is lawful.
                let _ = system.journal();
                settle_owed(&mut keeper);
                Ok((Box::into_inner(system), keeper))
            }
            Err((turnstile, passes)) => Err((Desk { turnstile, size }, passes)),
        }
    }
}
