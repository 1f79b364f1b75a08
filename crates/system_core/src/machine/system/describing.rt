//! Describing a statement: the columns that its answer would have, or its denial.
ghost use Rattle.std.specs.Prelude.{◌≡◌, [], if◌then◌else◌, Ok, Some, None, option_map, IfOk};
ghost use Rattle.std.specs.Option.{option_map_or};
ghost use Rattle.base_core.specs.Lacks.{is_denial};
ghost use Rattle.reader_core.specs.declared.statement.Statement.TheVariants as statements;
ghost use Rattle.monitor_core.specs.Verdict.{columns_of, first_lack};
ghost use Rattle.system_core.specs.Journal.{verdict_at};
ghost use Rattle.system_core.specs.Judging.{checkpoint_checks, verdict_of};
ghost use Rattle.system_core.specs.Describing.{table_of_rows, denial_in, denial_reply, Describes};
ghost use Rattle.system_core.specs.Step.{Step};
ghost use Rattle.system_core.specs.declared.machine.event.Event.{Event};

use crate::machine::checkpoints::{judged_at, may_export};
use crate::machine::event::Reply;
use crate::machine::system::System;
use base_core::{Column, Lack, Moment, Name, NoMemory, Sequence, User};
use monitor_core::columns_of;
use reader_core::Statement;
use std::alloc::Global;
use tables_core::Tables;

/// The reply to a lack, if it is a denial.
fn denial_by(at: Moment, lack: Lack) -> Option<Reply>
    ensures { result ≡ (if is_denial lack then Some (Reply.Denied at lack) else None) }
{
    if lack.is_denial() {
        Some(Reply::Denied { at, lack })
    } else {
        None
    }
}

/// The table of which a statement reads or changes rows.
fn table_of_rows(statement: &Statement) -> Option<Name>
    ensures { result ≡ table_of_rows statement.now }
{
    match statement {
        Statement::Insert { table, .. }
        | Statement::Select { table, .. }
        | Statement::Delete { table, .. }
        | Statement::Update { table, .. } => Some(*table),
        Statement::CreateTable { .. }
        | Statement::Grant { .. }
        | Statement::Revoke { .. }
        | Statement::RevokeOption { .. }
        | Statement::Checkpoint
        | Statement::Checkpoints
        | Statement::Export { .. } => None,
    }
}

/// A copy of the columns of this table, and none without a table. `NoMemory` where a request for
/// memory was refused.
fn columns_copied(
    alloc: Global,
    tables: &Tables,
    table: Option<Name>,
) -> Result<Sequence<Column>, NoMemory>
    ensures { IfOk result
        (λ columns. columns ≡ option_map_or (columns_of tables.now.tables) table []) }
{
    match table {
        None => Ok(Sequence::new(alloc)),
        Some(table) => {
            let columns = Vec::from_slice(alloc, columns_of(tables, table))?;
            Ok(Sequence::from_vec(columns))
        }
    }
}

impl System {
    /// The denial of an export that the monitor allows, if the checkpoints deny it.
    fn export_denial(&self, user: User, number: u64, only: Option<Name>) -> Option<Reply>
        requires { verdict_at self.now.limits self.now.journal user (statements.Export number only)
            ≡ Ok tt }
        ensures { let asked = statements.Export number only in
            result
            ≡ option_map (denial_reply self.now asked)
            (denial_in (first_lack (checkpoint_checks self.now user asked))) }
    {
        let at = self.ledger.moment();
        let rights = self.ledger.rights();
        let Some(image) = self.catalogue.find(number) else {
            return denial_by(at, Lack::NoCheckpoint(number));
        };
        match may_export(image, rights, &user, &only) {
            Ok(()) => None,
            Err(lack) => denial_by(judged_at(image.point, at, &lack), lack),
        }
    }

    /// The denial of a statement that the monitor allows, if the checkpoints deny it.
    fn checkpoint_denial(&self, user: &User, statement: &Statement) -> Option<Reply>
        requires { verdict_at self.now.limits self.now.journal user.now statement.now ≡ Ok tt }
        ensures { let asked = statement.now in
            result
            ≡ option_map (denial_reply self.now asked)
            (denial_in (first_lack (checkpoint_checks self.now user.now asked))) }
    {
        match statement {
            Statement::Export { number, only } => self.export_denial(*user, number.get(), *only),
            _ => None,
        }
    }

    /// The denial of a statement, if it would be denied.
    fn denial(&self, user: &User, statement: &Statement) -> Option<Reply>
        ensures { result
            ≡ option_map (denial_reply self.now statement.now)
            (denial_in (verdict_of self.now user.now statement.now)) }
    {
        match self.ledger.judged(*user, statement) {
            Err(lack) => denial_by(self.ledger.moment(), lack),
            Ok(_) => self.checkpoint_denial(user, statement),
        }
    }

    /// The columns that are told of a statement which is not denied.
    fn tell_columns(&self, statement: &Statement) -> Reply
        ensures { Describes self.now statement.now None result }
    {
        let at = self.ledger.moment();
        match columns_copied(self.alloc, self.ledger.tables(), table_of_rows(statement)) {
            Ok(columns) => Reply::Described { at, columns },
            Err(NoMemory) => Reply::Refused {
                at,
                lack: Lack::NoMemory,
            },
        }
    }

    /// What is told of a statement.
    fn description(&self, user: &User, statement: &Statement) -> Reply
        ensures { let asked = statement.now in
            Describes self.now asked (denial_in (verdict_of self.now user.now asked)) result }
    {
        match self.denial(user, statement) {
            Some(denial) => denial,
            None => self.tell_columns(statement),
        }
    }

    /// Describes a statement, and lets go of it.
    // Not inlined: room for the reply would otherwise be cleared for every INSERT.
    #[inline(never)]
    pub(crate) fn describe(&self, user: User, statement: Statement) -> Reply
        ensures { Step self.now (Event.Describe user statement) result self.now }
    {
        let reply = self.description(&user, &statement);
        drop(statement);
        reply
    }
}
