//! The effects of a change that is no revocation, made before it is carried out.
ghost use Rattle.std.specs.Prelude.{◌≡◌, ◌+◌, ◌++◌, ◌∷◌, [], true, false, length, map, IfOk, Ok};
ghost use Rattle.grants_core.specs.History.{grants_of};
ghost use Rattle.graph_core.specs.Indices.{standing_of};
ghost use Rattle.monitor_core.specs.Verdict.{is_change};
ghost use Rattle.system_core.specs.Journal.{change_of, rights_at, tables_at, verdict_at};
ghost use Rattle.stream_core.specs.Effects.{AreEffectsOf};
ghost use Rattle.stream_core.specs.Streams.{contents_at};
ghost use Rattle.stream_core.specs.Losses.{is_revoking};

use crate::effect::Effect;
use crate::rows::{deleted, inserted, one, updated};
use base_core::{Column, Name, NoMemory, Sequence, User};
use grants_core::Grant;
use links_core::Standing;
use reader_core::Statement;
use std::alloc::Global;
use system_core::{Entry, System};

/// That a table is made.
fn created(
    alloc: Global,
    table: Name,
    owner: User,
    columns: &[Column],
) -> Result<Vec<Effect>, NoMemory>
    ensures { IfOk result (λ all. all.items ≡ Effect.TableMade table owner columns.now ∷ []) }
{
    let columns = Vec::from_slice(alloc, columns)?;
    let columns = Sequence::from_vec(columns);
    one(
        alloc,
        Effect::TableMade {
            table,
            owner,
            columns,
        },
    )
}

/// That these grants are made.
fn granted(alloc: Global, grants: &[Grant]) -> Result<Vec<Effect>, NoMemory>
    ensures { IfOk result (λ all. all.items ≡ map Effect.GrantMade grants.now) }
{
    let mut all = Vec::new(alloc);
    for grant in grants {
        all.push(Effect::GrantMade(*grant))?;
    }
    Ok(all)
}

/// The standing of each of the grants.
pub fn standings_of(alloc: Global, grants: &[Grant]) -> Result<Vec<Standing>, NoMemory>
    ensures { IfOk result (λ all. all.items ≡ map standing_of grants.now) }
{
    let mut all = Vec::new(alloc);
    for grant in grants {
        all.push(Standing {
            number: grant.number,
            option: grant.option,
        })?;
    }
    Ok(all)
}

/// Whether it is REVOKE or REVOKE GRANT OPTION FOR.
pub fn is_revoking(statement: &Statement) -> bool
    ensures { result ≡ is_revoking statement.now }
{
    match statement {
        Statement::Revoke { .. } | Statement::RevokeOption { .. } => true,
        Statement::CreateTable { .. }
        | Statement::Insert { .. }
        | Statement::Select { .. }
        | Statement::Delete { .. }
        | Statement::Update { .. }
        | Statement::Grant { .. }
        | Statement::Checkpoint
        | Statement::Checkpoints
        | Statement::Export { .. } => false,
    }
}

/// The effects that an allowed change would have which is no revocation, and makes these grants.
/// `NoMemory` where a request for memory was refused.
pub fn foretold(
    alloc: Global,
    system: &System,
    entry: &Entry,
    grants: &[Grant],
) -> Result<Vec<Effect>, NoMemory>
    requires allowed { let asked = entry.now.statement in
        verdict_at system.now.limits system.now.journal entry.now.user asked ≡ Ok tt }
    requires change { is_change entry.now.statement ≡ true }
    requires gives { is_revoking entry.now.statement ≡ false }
    requires grants { let journal = system.now.journal in
        grants.now ≡ grants_of (rights_at journal).made (length journal + 1)
        (change_of (tables_at journal) entry.now.user entry.now.statement) }
    ensures { let journal = system.now.journal in
        IfOk result (λ all. AreEffectsOf (contents_at journal)
        (contents_at (journal ++ entry.now ∷ [])) all.items) }
{
    // Read, so that each entry is known to be lawful.
    let _journal = system.journal();
    let tables = system.tables();
    match &entry.statement {
        Statement::CreateTable { table, columns } => {
            created(alloc, *table, entry.user, columns.as_slice())
        }
        Statement::Insert { table, values } => inserted(alloc, tables, *table, values.values()),
        Statement::Delete { table, filter } => deleted(alloc, tables, *table, filter.as_slice()),
        Statement::Update {
            table,
            sets,
            filter,
        } => updated(alloc, tables, *table, sets.as_slice(), filter.as_slice()),
        Statement::Grant { .. } => granted(alloc, grants),
        Statement::Revoke { .. }
        | Statement::RevokeOption { .. }
        | Statement::Select { .. }
        | Statement::Checkpoint
        | Statement::Checkpoints
        | Statement::Export { .. } => unreachable!(),
    }
}
