//! The core: one event after another, each a step of the machine.
//! `describing` has what is told of a statement that is only described, `granting` the grants that a statement would
//! make, and `imaging` the images that are kept.
ghost use Rattle.std.specs.Prelude.{ℕ, ◌≡◌, ◌↔◌, ◌<◌, ◌≤◌, ◌++◌, ◌∷◌, [], true, false, not, length, map, Ok, Some, IsSome, IsTrue, is_some, IfOk, MatchResult};
ghost use Rattle.base_core.specs.Full.{IsFull};
ghost use Rattle.grants_core.specs.History.{in_force_after};
ghost use Rattle.monitor_core.specs.Verdict.{first_lack, is_change};
ghost use Rattle.tables_core.specs.Contents.{table_of};
ghost use Rattle.reader_core.specs.declared.statement.Statement.TheVariants as statements;
ghost use Rattle.grants_core.specs.Lawful.{AreLawful};
ghost use Rattle.graph_core.specs.Indices.{standing_of};
ghost use Rattle.system_core.specs.Journal.{verdict_at, tables_at, changes, rights_at};
ghost use Rattle.system_core.specs.World.{opening, entry, moment_of, size_of, IsLawfulWorld};
ghost use Rattle.system_core.specs.Judging.{checkpoint_checks, verdict_of};
ghost use Rattle.system_core.specs.Step.{change_reply, lack_reply, CarriesOut, Responds, Advances, GivesUp, Step, Run, IsRunOfSome};

mod describing;
mod granting;
mod imaging;

use crate::machine::checkpoints::{judged_at, listed, may_export};
use crate::machine::event::{Entry, Event, Reply};
use crate::machine::ledger::Ledger;
use crate::machine::parting::Parting;
use crate::machine::size::Size;
use base_core::{Condition, Distinct, Lack, Limits, Moment, Name, NoMemory, Sequence, User};
use capture_core::{Capture, Progress};
use catalogue_core::Catalogue;
use export_core::Ticket;
use grants_core::{Authority, Change, Grant};
use links_core::Standing;
use monitor_core::is_change;
use reader_core::{MAX_ITEMS, Statement};
use std::alloc::{AllocError, Global};
use std::marker::Model;
use std::mem;
use tables_core::Tables;

/// The core. Contracts see the world that it stands for: the journal of accepted changes, the
/// checkpoints, the chunk, and the limits.
#[derive(Drop)]
pub struct System {
    alloc: Global,
    chunk: usize,
    ledger: Ledger,
    capture: Capture,
    catalogue: Catalogue,
    parting: Parting,
}

impl Model for System {
    ghost use Rattle.system_core.specs.World.{World};
    ghost use Rattle.system_core.specs.Standing.{world_of, checkpointing, Stands};

    ghost Value = { World };

    ghost view = { λ s. world_of s.chunk s.ledger (checkpointing s.capture s.ledger) s.catalogue };

    ghost invariant = { λ s. Stands s.chunk s.ledger s.capture s.catalogue };
}

fn lack_reply(at: Moment, lack: Lack) -> Reply
    ensures { result ≡ lack_reply at lack }
{
    if lack.is_denial() {
        Reply::Denied { at, lack }
    } else {
        Reply::Refused { at, lack }
    }
}

fn no_memory(at: Moment) -> Reply
    ensures { result ≡ Reply.Refused at Lack.NoMemory }
{
    Reply::Refused {
        at,
        lack: Lack::NoMemory,
    }
}

impl System {
    /// Nothing entered, with full limits. The chunk is the number of records that a step of the
    /// checkpointer takes, from 1 to 64. `NoMemory` where a request for memory was refused.
    pub fn new(alloc: Global, chunk: usize) -> Result<System, NoMemory>
        requires some { 0 < chunk }
        requires small { chunk ≤ 64 }
        ensures { IfOk result (λ s. IsFull s.limits × (s ≡ opening chunk s.limits)) }
    {
        System::with_limits(alloc, chunk, Limits::full())
    }

    /// The same with these limits.
    pub fn with_limits(alloc: Global, chunk: usize, limits: Limits) -> Result<System, NoMemory>
        requires some { 0 < chunk }
        requires small { chunk ≤ 64 }
        ensures { IfOk result (λ s. s ≡ opening chunk limits) }
    {
        let catalogue = Catalogue::new(alloc)?;
        Ok(System {
            alloc,
            chunk,
            ledger: Ledger::new(alloc, limits),
            capture: Capture::new(alloc),
            catalogue,
            parting: Parting::nothing(),
        })
    }

    /// The number of accepted changes.
    pub fn moment(&self) -> Moment
        ensures { result ≡ moment_of self.now }
    {
        self.ledger.moment()
    }

    /// How many records a step of the checkpointer takes at most.
    pub fn chunk(&self) -> usize
        ensures { result ≡ self.now.chunk }
    {
        self.chunk
    }

    /// How large it is now. It is constant.
    pub fn size(&self) -> Size
        ensures { result ≡ size_of self.now }
    {
        let (tables, rights) = (self.ledger.tables(), self.ledger.rights());
        Size {
            tables: tables.len() as u64,
            rows: tables.row_total() as u64,
            grants: rights.grant_count() as u64,
            checkpoints: self.catalogue.len() as u64,
        }
    }

    /// The accepted changes, in order: entry m, counted from 1, made moment m. Each was allowed at
    /// the journal before it, and the checkpoints are as those of a world are.
    pub fn journal(&self) -> &[Entry]
        ensures journal { result.now ≡ self.now.journal }
        ensures lawful { IsLawfulWorld self.now }
    {
        self.ledger.journal()
    }

    /// The tables that the journal makes, with their rows.
    pub fn tables(&self) -> &Tables
        ensures { result.now.tables ≡ tables_at self.now.journal }
    {
        self.ledger.tables()
    }

    /// The grants in force, in the order in which they were made. `NoMemory` where a request for
    /// memory was refused.
    pub fn in_force(&self) -> Result<Vec<Grant>, NoMemory>
        ensures { IfOk result (λ found. found.items ≡ (rights_at self.now.journal).in_force) }
    {
        self.ledger.rights().in_force()
    }

    /// The standing of each grant in force, in the order in which they were made: its number, and
    /// whether it has its option. `NoMemory` where a request for memory was refused.
    pub fn standings(&self) -> Result<Vec<Standing>, NoMemory>
        ensures { IfOk result (λ standings. standings.items
            ≡ map standing_of (rights_at self.now.journal).in_force) }
    {
        self.ledger.rights().standings()
    }

    /// The accepted changes, each as what it changes of rights: the privileges of GRANT, and of
    /// both forms of REVOKE, as atoms in the order written, UPDATE without columns as that of every
    /// column that the table then had. `NoMemory` where a request for memory was refused.
    pub fn changes(&self) -> Result<Vec<Change>, NoMemory>
        ensures changes { IfOk result (λ found. found.items ≡ changes self.now.journal) }
        ensures lawful { IfOk result (λ found. AreLawful found.items) }
    {
        self.ledger.changes()
    }

    /// How many grants are in force, if they are exactly those that a replay of the journal leaves
    /// in force, and else None. They always are. `NoMemory` where a request for memory was refused.
    pub fn audit(&self) -> Result<Option<usize>, NoMemory>
        ensures { IfOk result
            (λ found. found ≡ Some (length (in_force_after (changes self.now.journal)))) }
    {
        self.ledger.audit()
    }

    /// Whether what a user says is an allowed change, which [`change`](System::change) carries out.
    /// Else [`step`](System::step) names what is missing, or answers what is no change.
    pub fn may_change(&self, entry: &Entry) -> bool
        ensures { let asked = entry.now.statement in
            IsTrue result
            ↔ ((verdict_at self.now.limits self.now.journal entry.now.user asked ≡ Ok tt)
            × (is_change asked ≡ true)) }
    {
        let asked = &entry.statement;
        is_change(asked) && self.ledger.allowed(&entry.user, asked).is_some()
    }

    /// Carries out an allowed change, as [`step`](System::step) does, and says the moment that it
    /// made in place of the reply, which is large to hand on; [`Reply::to_change`] makes it of
    /// that. `NoMemory` where a request for memory was refused: then nothing has changed.
    pub fn change(&mut self, entry: Entry) -> Result<Moment, NoMemory>
        requires allowed { verdict_at self.old.limits self.old.journal entry.user entry.statement
            ≡ Ok tt }
        requires change { is_change entry.statement ≡ true }
        ensures { CarriesOut self.old entry (change_reply (moment_of self.old) result) self.new }
    {
        let at = self.ledger.moment();
        match self.ledger.change(entry) {
            Ok(()) => Ok(Moment(at.0 + 1)),
            Err(NoMemory) => Err(NoMemory),
        }
    }

    /// Answers a query of a table that stands.
    fn select(
        &mut self,
        list: &Option<Distinct<Name, MAX_ITEMS>>,
        table: Name,
        filter: &[Condition],
    ) -> Reply
        requires { IsSome (table_of (tables_at self.old.journal) table) }
        ensures { (pass : ℕ) (user : User)
            → CarriesOut self.old
            (entry pass user (statements.Select list.now table filter.now)) result self.new }
    {
        self.ledger.prepare(table, filter);
        let at = self.ledger.moment();
        match self.ledger.select(list, table, filter) {
            Ok(rows) => Reply::Rows {
                at,
                rows: Sequence::from_vec(rows),
            },
            Err(NoMemory) => no_memory(at),
        }
    }

    /// Lists the checkpoints.
    fn list(&self) -> Reply
        ensures { (pass : ℕ) (user : User)
            → CarriesOut self.now (entry pass user statements.Checkpoints) result self.now }
    {
        let at = self.ledger.moment();
        match listed(self.alloc, &self.catalogue, &self.capture) {
            Ok(entries) => Reply::Listed { at, entries },
            Err(NoMemory) => no_memory(at),
        }
    }

    /// Begins a checkpoint, where none is active and there is room for one more.
    fn begin(&mut self) -> Reply
        ensures { (pass : ℕ) (user : User)
            → Responds self.old (entry pass user statements.Checkpoint)
            (first_lack
            (checkpoint_checks self.old user statements.Checkpoint)) result self.new }
    {
        let at = self.ledger.moment();
        let number = match self.ledger.begin(&mut self.capture) {
            Ok(number) => number,
            Err(lack) => return lack_reply(at, lack),
        };
        Reply::Begun { number, at }
    }

    /// Issues an export, where its checkpoint is kept and, of one table alone, that may be
    /// exported. A table of which it is to be has to stand now.
    fn export(&self, user: User, number: u64, only: Option<Name>) -> Reply
        requires { verdict_at self.now.limits self.now.journal user (statements.Export number only)
            ≡ Ok tt }
        ensures { (pass : ℕ)
            → Responds self.now (entry pass user (statements.Export number only))
            (first_lack
            (checkpoint_checks self.now user
            (statements.Export number only))) result self.now }
    {
        let at = self.ledger.moment();
        let rights = self.ledger.rights();
        let Some(image) = self.catalogue.find(number) else {
            return lack_reply(at, Lack::NoCheckpoint(number));
        };
        if let Err(lack) = may_export(image, rights, &user, &only) {
            return lack_reply(judged_at(image.point, at, &lack), lack);
        }
        match Ticket::issue(self.alloc, image, user, rights, only, at) {
            Ok(ticket) => Reply::Export(ticket),
            Err(NoMemory) => no_memory(at),
        }
    }

    /// Answers what is no change, as the monitor allowed it.
    fn look(&mut self, entry: &Entry) -> Reply
        requires allowed { let asked = entry.now.statement in
            verdict_at self.old.limits self.old.journal entry.now.user asked ≡ Ok tt }
        requires look { is_change entry.now.statement ≡ false }
        ensures { let checks = checkpoint_checks self.old entry.now.user entry.now.statement in
            Responds self.old entry.now (first_lack checks) result self.new }
    {
        match &entry.statement {
            Statement::Select {
                list,
                table,
                filter,
            } => self.select(list, *table, filter.as_slice()),
            Statement::Checkpoint => self.begin(),
            Statement::Checkpoints => self.list(),
            Statement::Export { number, only } => self.export(entry.user, number.get(), *only),
            _ => unreachable!(),
        }
    }

    /// Names the lack for which the monitor does not allow the statement.
    #[inline(never)]
    fn refuse(&self, entry: &Entry) -> Reply
        requires { let asked = entry.now.statement in
            verdict_at self.now.limits self.now.journal entry.now.user asked ≡ Ok tt → ⊥ }
        ensures { Responds self.now entry.now
            (verdict_of self.now entry.now.user entry.now.statement) result self.now }
    {
        match self.ledger.judged(entry.user, &entry.statement) {
            Err(lack) => lack_reply(self.ledger.moment(), lack),
            Ok(_) => unreachable!(),
        }
    }

    /// Answers what is no change, as [`look`](System::look) does, and lets go of it.
    // Not inlined, here and below: room for the reply would otherwise be cleared for every INSERT.
    #[inline(never)]
    fn look_at(&mut self, entry: Entry) -> Reply
        requires allowed { let asked = entry.statement in
            verdict_at self.old.limits self.old.journal entry.user asked ≡ Ok tt }
        requires look { is_change entry.statement ≡ false }
        ensures { let checks = checkpoint_checks self.old entry.user entry.statement in
            Responds self.old entry (first_lack checks) result self.new }
    {
        let reply = self.look(&entry);
        drop(entry);
        reply
    }

    /// Names the lack of what the monitor does not allow, as [`step`](System::step) does, and lets go
    /// of it. Who found by [`may_change`](System::may_change) that a change is not allowed has it
    /// judged once more so, and not twice.
    #[inline(never)]
    pub fn deny(&self, entry: Entry) -> Reply
        requires { let asked = entry.statement in
            verdict_at self.now.limits self.now.journal entry.user asked ≡ Ok tt → ⊥ }
        ensures { Responds self.now entry
            (verdict_of self.now entry.user entry.statement) result self.now }
    {
        let reply = self.refuse(&entry);
        drop(entry);
        reply
    }

    fn say(&mut self, entry: Entry) -> Reply
        ensures { Responds self.old entry
            (verdict_of self.old entry.user entry.statement) result self.new }
    {
        match self.ledger.allowed(&entry.user, &entry.statement) {
            Some(allowed) => {
                if allowed.change {
                    let at = self.moment();
                    Reply::to_change(at, self.change(entry))
                } else {
                    self.look_at(entry)
                }
            }
            None => self.deny(entry),
        }
    }

    /// Whether no checkpoint is active, so that a step of the checkpointer does nothing.
    pub fn is_idle(&self) -> bool
        ensures { result ≡ not (is_some self.now.active) }
    {
        !self.capture.active().is_some()
    }

    /// A step of the checkpointer.
    fn advance(&mut self) -> Reply
        ensures { Advances self.old self.old.active result self.new }
    {
        let Some((number, _, _)) = self.capture.active() else {
            return Reply::Idle;
        };
        match self.ledger.step(&mut self.capture, self.chunk) {
            Ok(Progress::Left(left)) => Reply::Stepped { number, left },
            Ok(Progress::Done(image)) => {
                self.parting.image = self.catalogue.add(image);
                Reply::Finished { number }
            }
            Ok(Progress::Idle) => Reply::Idle,
            Err(NoMemory) => no_memory(self.ledger.moment()),
        }
    }

    /// Gives the active checkpoint up.
    fn give_up(&mut self) -> Reply
        ensures { GivesUp self.old self.old.active result self.new }
    {
        let Some(active) = self.ledger.abandon(&mut self.capture) else {
            return Reply::Idle;
        };
        let number = active.number();
        self.parting.taken = Some(active);
        Reply::Abandoned { number }
    }

    /// One event: a step of the machine. What the verdict allows is carried out, and a change is
    /// entered; else the reply names the first lack, and nothing changes. Out of memory is Refused
    /// with NoMemory, and changes nothing.
    #[inline(always)]
    pub fn step(&mut self, event: Event) -> Reply
        ensures { Step self.old event result self.new }
    {
        match event {
            Event::Say {
                pass,
                user,
                statement,
            } => self.say(Entry {
                pass,
                user,
                statement,
            }),
            Event::Describe { user, statement } => self.describe(user, statement),
            Event::Step => self.advance(),
            Event::Abandon => self.give_up(),
        }
    }

    /// What the last steps of the checkpointer left to be freed, which may take as long as a copy
    /// of all rows: for the caller to let go of while nobody waits for the core.
    pub fn take_parting(&mut self) -> Parting
        ensures { self.new ≡ self.old }
    {
        mem::replace(&mut self.parting, Parting::nothing())
    }

    /// Frees at once what [`take_parting`](System::take_parting) would hand out.
    pub fn let_go(&mut self)
        ensures { self.new ≡ self.old }
    {
        self.take_parting().free();
    }

    /// Frees all that the core holds. A crate that let one go by itself would prove its destructor
    /// once more.
    pub fn free(self) {
        let System {
            ledger,
            capture,
            catalogue,
            parting,
            ..
        } = self;
        drop(ledger);
        drop(capture);
        drop(catalogue);
        drop(parting);
    }

    /// One step after another. Where there is no memory to note a reply, the events before it were
    /// done, with these replies, and no later one.
    pub fn run(&mut self, events: Vec<Event>) -> Result<Vec<Reply>, (NoMemory, Vec<Reply>)>
        ensures { MatchResult result
            (λ replies. Run self.old events.items replies.items self.new)
            (λ e. IsRunOfSome self.old events.items e.1.items self.new) }
    {
        let mut replies = Vec::new(self.alloc);
        for event in events {
            if let Err(AllocError) = replies.reserve(1) {
                drop(event);
                return Err((NoMemory, replies));
            }
            replies.push_reserved(self.step(event));
        }
        Ok(replies)
    }
}
