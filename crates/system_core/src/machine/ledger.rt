//! The journal of accepted changes, with the tables and rights that it makes.
ghost use Rattle.std.specs.Prelude.{◌≡◌, ◌+◌, ◌<◌, ◌≤◌, ◌^◌, ◌++◌, ◌∷◌, [], true, length, map, Ok, Err, Some, None, option_map, MatchOption, IsSome, IsOk, IfOk, OnOk, OnErr};
ghost use Rattle.std.specs.Result.{result_ok};
ghost use Rattle.tables_core.specs.Contents.{selected_rows, table_of};
ghost use Rattle.grants_core.specs.History.{in_force_after};
ghost use Rattle.monitor_core.specs.Verdict.{columns_of, is_change, allowed_by};
ghost use Rattle.capture_core.specs.Image.{row_total};
ghost use Rattle.grants_core.specs.Lawful.{AreLawful};
ghost use Rattle.system_core.specs.Journal.{IsLawful, verdict_at, tables_at, changes, rights_at};
ghost use Rattle.monitor_core.specs.Atoms.{columns_given};
ghost use Rattle.capture_core.specs.Capturing.{begin_lack, CanGoOn, TellsProgress};
ghost use Rattle.system_core.specs.Standing.{AgreeOn, database_of, checkpointing, after_begin, after_step};

mod granting;

use crate::machine::carry::carry_out;
use crate::machine::change::changes_of;
use crate::machine::event::Entry;
use base_core::{Column, Condition, Distinct, Lack, Limits, Moment, Name, NoMemory, Row, User};
use capture_core::{Active, Capture, Progress};
use grants_core::{Authority, Change, audit};
use graph_core::Graph;
use monitor_core::{Allowed, allows, columns_of, judge};
use reader_core::{MAX_ITEMS, Statement};
use std::alloc::{AllocError, Global};
use std::marker::Model;
use tables_core::Tables;

/// Accepted changes, and what they make. Contracts see the journal, and the limits that it is
/// judged by.
#[derive(Drop)]
pub struct Ledger {
    alloc: Global,
    limits: Limits,
    journal: Vec<Entry>,
    tables: Tables,
    rights: Graph,
}

impl Model for Ledger {
    ghost use Rattle.system_core.specs.Standing.{LedgerState, KeepsJournal};

    ghost Value = { LedgerState };

    ghost view = { λ l. record {
      journal = l.journal.items;
      limits = l.limits;
      rows_due = l.tables.rest;
      grants_due = l.rights.rest;
    } };

    ghost invariant = { λ l. KeepsJournal l.limits l.journal.items l.tables.tables
        l.rights.content };
}

fn names_of(alloc: Global, columns: &[Column]) -> Result<Vec<Name>, AllocError>
    ensures { IfOk result (λ names. names.items ≡ map (λ c. c.name) columns.now) }
{
    columns.iter().map(|column| column.name).collect(alloc)
}

/// The rows of a table that the filter chooses, cut to the columns listed, or with no list to all.
fn rows_of(
    alloc: Global,
    tables: &Tables,
    list: &Option<Distinct<Name, MAX_ITEMS>>,
    table: Name,
    filter: &[Condition],
) -> Result<Vec<Row>, NoMemory>
    requires { IsSome (table_of tables.now.tables table) }
    ensures { let columns = columns_given (columns_of tables.now.tables table) list.now in
        IfOk result (λ rows.
        option_map (selected_rows columns filter.now) (table_of tables.now.tables table)
        ≡ Some rows.items) }
{
    match list {
        Some(names) => tables.select(table, names.as_slice(), filter),
        None => {
            let names = names_of(alloc, columns_of(tables, table))?;
            tables.select(table, &names, filter)
        }
    }
}

fn count(journal: &[Entry]) -> u64
    ensures { result ≡ length journal.now }
{
    journal.len() as u64
}

impl Ledger {
    /// Nothing entered. It takes no memory.
    pub fn new(alloc: Global, limits: Limits) -> Ledger
        ensures { result
            ≡ record { journal = []; limits = limits; rows_due = []; grants_due = [] } }
    {
        Ledger {
            alloc,
            limits,
            journal: Vec::new(alloc),
            tables: Tables::new(alloc),
            rights: Graph::new(alloc),
        }
    }

    /// The limits that its changes are judged by.
    pub fn limits(&self) -> &Limits
        ensures { result.now ≡ self.now.limits }
    {
        &self.limits
    }

    /// The number of accepted changes.
    pub fn moment(&self) -> Moment
        ensures moment { result.0 ≡ length self.now.journal }
        ensures few { result.0 < 2 ^ 62 }
    {
        // Read, so that what the tables keep is known.
        let _ = &self.tables;
        Moment(count(&self.journal))
    }

    /// The accepted changes, in order.
    pub fn journal(&self) -> &[Entry]
        ensures journal { result.now ≡ self.now.journal }
        ensures lawful { IsLawful self.now.limits self.now.journal }
        ensures few { length self.now.journal ≤ self.now.limits.changes }
    {
        self.journal.as_slice()
    }

    /// The tables that the journal makes.
    pub fn tables(&self) -> &Tables
        ensures tables { result.now.tables ≡ tables_at self.now.journal }
        ensures few { row_total (tables_at self.now.journal) < 2 ^ 62 }
    {
        &self.tables
    }

    /// The rights that the journal makes, but for owners of names that are no tables.
    pub fn rights(&self) -> &Graph
        ensures rights { AgreeOn (tables_at self.now.journal) result.now.content
            (rights_at self.now.journal) }
        ensures lawful { IsLawful self.now.limits self.now.journal }
        ensures few { length (rights_at self.now.journal).in_force < 2 ^ 62 }
    {
        &self.rights
    }

    /// The accepted changes, each as what it changes of rights. `NoMemory` where a request for
    /// memory was refused.
    pub fn changes(&self) -> Result<Vec<Change>, NoMemory>
        ensures changes { IfOk result (λ found. found.items ≡ changes self.now.journal) }
        ensures lawful { IfOk result (λ found. AreLawful found.items) }
    {
        changes_of(self.alloc, &self.tables, self.journal.as_slice())
    }

    /// How many grants are in force, if they are exactly those that a replay of the journal leaves
    /// in force, and else None. They always are. `NoMemory` where a request for memory was refused.
    pub fn audit(&self) -> Result<Option<usize>, NoMemory>
        ensures { IfOk result
            (λ found. found ≡ Some (length (in_force_after (changes self.now.journal)))) }
    {
        let changes = self.changes()?;
        let in_force = self.rights.in_force()?;
        let same = audit(self.alloc, &changes, &in_force)?;
        Ok(if same { Some(in_force.len()) } else { None })
    }

    /// The verdict of the monitor at the journal.
    pub fn judged(&self, user: User, statement: &Statement) -> Result<Allowed, Lack>
        ensures { result
            ≡ allowed_by
            (verdict_at self.now.limits self.now.journal user statement.now) statement.now }
    {
        let moment = Moment(count(&self.journal));
        let (tables, rights) = (&self.tables, &self.rights);
        judge(tables, rights, &self.limits, user, statement, moment)
    }

    /// What the verdict allows, without the lack.
    #[inline(never)]
    pub fn allowed(&self, user: &User, statement: &Statement) -> Option<Allowed>
        ensures { result
            ≡ result_ok
            (allowed_by
            (verdict_at self.now.limits self.now.journal user.now statement.now) statement.now) }
    {
        let moment = Moment(count(&self.journal));
        let (tables, rights) = (&self.tables, &self.rights);
        allows(tables, rights, &self.limits, user, statement, moment)
    }

    /// Carries out an allowed change, and enters it. `NoMemory` where a request for memory was
    /// refused: then nothing has changed.
    pub fn change(&mut self, entry: Entry) -> Result<(), NoMemory>
        requires allowed { verdict_at self.old.limits self.old.journal entry.user entry.statement
            ≡ Ok tt }
        requires change { is_change entry.statement ≡ true }
        ensures ok { OnOk result (self.new
            ≡ record self.old { journal = self.old.journal ++ entry ∷ [] }) }
        ensures err { OnErr result (self.new ≡ self.old) }
    {
        if let Err(AllocError) = self.journal.reserve(1) {
            drop(entry);
            return Err(NoMemory);
        }
        let moment = count(&self.journal);
        match carry_out(
            self.alloc,
            &mut self.tables,
            &mut self.rights,
            Moment(moment),
            &entry.user,
            &entry.statement,
        ) {
            Ok(()) => {
                self.journal.push_reserved(entry);
                Ok(())
            }
            Err(NoMemory) => {
                drop(entry);
                Err(NoMemory)
            }
        }
    }

    /// Begins a capture of the tables and rights of the journal, and answers its number. It takes
    /// no memory. `Busy` or `Full` where the capture is active or may not be begun: then nothing
    /// has changed.
    pub fn begin(&mut self, capture: &mut Capture) -> Result<u64, Lack>
        ensures lack { MatchOption (begin_lack capture.old self.old.limits.checkpoints)
            (IsOk result) (λ lack. result ≡ Err lack) }
        ensures number { IfOk result (λ number. number ≡ capture.old.begun + 1) }
        ensures begins { OnOk result (checkpointing capture.new self.new
            ≡ after_begin self.old.journal (checkpointing capture.old self.old)) }
        ensures goes_on { OnOk result
            (CanGoOn capture.new.active (database_of self.new) self.new.grants_due) }
        ensures same { self.new
            ≡ record self.old { rows_due = self.new.rows_due; grants_due = self.new.grants_due } }
        ensures err { OnErr result (self.new ≡ self.old) }
        ensures unchanged { OnErr result (capture.new ≡ capture.old) }
    {
        let point = Moment(count(&self.journal));
        capture.begin(
            &mut self.tables,
            &mut self.rights,
            point,
            self.limits.checkpoints,
        )
    }

    /// A step of the capture, of `k` records. `NoMemory` where a request for memory was refused:
    /// then as many are left, and the same image is to come.
    pub fn step(&mut self, capture: &mut Capture, k: usize) -> Result<Progress, NoMemory>
        requires { CanGoOn capture.old.active (database_of self.old) self.old.grants_due }
        ensures tells { IfOk result (λ progress.
            TellsProgress k (checkpointing capture.old self.old).active progress) }
        ensures ok { OnOk result (checkpointing capture.new self.new
            ≡ after_step k (checkpointing capture.old self.old)) }
        ensures err { OnErr result
            (checkpointing capture.new self.new ≡ checkpointing capture.old self.old) }
        ensures goes_on { CanGoOn capture.new.active (database_of self.new) self.new.grants_due }
        ensures same { self.new
            ≡ record self.old { rows_due = self.new.rows_due; grants_due = self.new.grants_due } }
    {
        // Read, so that the limits are seen to stay.
        let _ = &self.limits;
        capture.step(&mut self.tables, &mut self.rights, k)
    }

    /// Gives the capture up, and hands out what it has taken.
    pub fn abandon(&mut self, capture: &mut Capture) -> Option<Active>
        ensures active { result ≡ capture.old.active }
        ensures after { capture.new ≡ record capture.old { active = None } }
        ensures same { self.new
            ≡ record self.old { rows_due = self.new.rows_due; grants_due = self.new.grants_due } }
    {
        // Read, so that the limits are seen to stay.
        let _ = &self.limits;
        capture.abandon(&mut self.tables, &mut self.rights)
    }

    /// Prepares the tables for a query with this filter. Nothing that can be seen changes.
    pub fn prepare(&mut self, table: Name, filter: &[Condition])
        ensures { self.new ≡ self.old }
    {
        self.tables.prepare(table, filter);
    }

    /// The rows that answer a query of a table that stands. `NoMemory` where a request for memory
    /// was refused.
    pub fn select(
        &self,
        list: &Option<Distinct<Name, MAX_ITEMS>>,
        table: Name,
        filter: &[Condition],
    ) -> Result<Vec<Row>, NoMemory>
        requires { IsSome (table_of (tables_at self.now.journal) table) }
        ensures { let tables = tables_at self.now.journal in
            let columns = columns_given (columns_of tables table) list.now in
            IfOk result (λ rows.
            option_map (selected_rows columns filter.now) (table_of tables table) ≡ Some rows.items) }
    {
        rows_of(self.alloc, &self.tables, list, table, filter)
    }
}
