//! What a change does to the tables and to the rights.
ghost use Rattle.std.specs.Prelude.{◌≡◌, ◌⊎◌, ◌+◌, ◌<◌, ◌≤◌, ◌^◌, None, false, length, OnOk, OnErr};
ghost use Rattle.tables_core.specs.Contents.{empty_table, with_row, without_chosen_rows, with_updated_rows, with_change, table_of};
ghost use Rattle.grants_core.specs.Owners.{was_granted};
ghost use Rattle.grants_core.specs.Content.{after_create, after_grant, after_revoke, after_revoke_option};
ghost use Rattle.reader_core.specs.declared.statement.Statement.TheVariants as statements;
ghost use Rattle.monitor_core.specs.Verdict.{columns_of, atoms_at};
ghost use Rattle.system_core.specs.Journal.{tables_after, change_of};
ghost use Rattle.system_core.specs.Carrying.{CanCarry, CanGrant, HasFewColumns, MayLeave, most_columns, most_grants, rights_after};

use crate::machine::atoms::atoms_of;
use base_core::{Column, Distinct, Moment, Name, NoMemory, Row, Sequence, Twin, User};
use grants_core::Authority;
use graph_core::Graph;
use monitor_core::columns_of;
use reader_core::{MAX_ITEMS, MAX_USERS, Privileges, Statement};
use std::alloc::Global;
use tables_core::Tables;

/// Makes a table, and its owner first.
// What is no INSERT stands out of line, here and below, so that no INSERT pays for its room.
#[inline(never)]
fn create(
    alloc: Global,
    tables: &mut Tables,
    rights: &mut Graph,
    user: &User,
    table: &Name,
    columns: &Distinct<Column, MAX_ITEMS>,
) -> Result<(), NoMemory>
    requires new { table_of tables.old.tables table.now ≡ None }
    requires fresh { was_granted rights.old.content.owners table.now ≡ false }
    ensures tables { OnOk result (tables.new.tables
        ≡ tables_after tables.old.tables user.now (statements.CreateTable table.now columns.now)) }
    ensures rights { OnOk result
        (rights.new.content ≡ after_create rights.old.content table.now user.now) }
    ensures narrow { OnOk result (length columns.now ≤ most_columns) }
    ensures same { OnErr result (tables.new ≡ tables.old) }
    ensures leaves { OnErr result ((rights.new.content ≡ rights.old.content)
        ⊎ (rights.new.content ≡ after_create rights.old.content table.now user.now)) }
    ensures rows_due { tables.new.rest ≡ tables.old.rest }
    ensures grants_due { rights.new.rest ≡ rights.old.rest }
{
    let columns = Vec::from_slice(alloc, columns.as_slice())?;
    rights.create(*table, *user)?;
    tables.create(*table, *user, Sequence::from_vec(columns))
}

#[inline(never)]
fn grant(
    alloc: Global,
    tables: &Tables,
    rights: &mut Graph,
    moment: Moment,
    user: User,
    privileges: &Privileges,
    table: Name,
    users: &Distinct<User, MAX_USERS>,
    option: bool,
) -> Result<(), NoMemory>
    requires can { CanGrant rights.old.content moment.0 user
        (atoms_at tables.now.tables table privileges.now) }
    requires narrow { length (columns_of tables.now.tables table) ≤ most_columns }
    requires early { moment.0 < 2 ^ 63 }
    ensures ok { OnOk result (rights.new.content
        ≡ after_grant rights.old.content user (atoms_at tables.now.tables table privileges.now)
        users.now option (record { 0 = moment.0 + 1 })) }
    ensures few { OnOk result (rights.new.content.made ≤ rights.old.content.made + most_grants) }
    ensures err { OnErr result (rights.new.content ≡ rights.old.content) }
    ensures grants_due { rights.new.rest ≡ rights.old.rest }
{
    let atoms = atoms_of(alloc, table, columns_of(tables, table), privileges)?;
    let at = Moment(moment.0 + 1);
    rights.grant(user, &atoms, users.as_slice(), option, at)
}

#[inline(never)]
fn revoke(
    alloc: Global,
    tables: &Tables,
    rights: &mut Graph,
    user: User,
    privileges: &Privileges,
    table: Name,
    users: &Distinct<User, MAX_USERS>,
) -> Result<(), NoMemory>
    requires { length (columns_of tables.now.tables table) ≤ most_columns }
    ensures ok { OnOk result (rights.new.content
        ≡ after_revoke rights.old.content user (atoms_at tables.now.tables table privileges.now)
        users.now) }
    ensures err { OnErr result (rights.new.content ≡ rights.old.content) }
    ensures grants_due { rights.new.rest ≡ rights.old.rest }
{
    let atoms = atoms_of(alloc, table, columns_of(tables, table), privileges)?;
    rights.revoke(user, &atoms, users.as_slice());
    Ok(())
}

#[inline(never)]
fn revoke_option(
    alloc: Global,
    tables: &Tables,
    rights: &mut Graph,
    user: User,
    privileges: &Privileges,
    table: Name,
    users: &Distinct<User, MAX_USERS>,
) -> Result<(), NoMemory>
    requires { length (columns_of tables.now.tables table) ≤ most_columns }
    ensures ok { OnOk result (rights.new.content
        ≡ after_revoke_option rights.old.content user
        (atoms_at tables.now.tables table privileges.now) users.now) }
    ensures err { OnErr result (rights.new.content ≡ rights.old.content) }
    ensures grants_due { rights.new.rest ≡ rights.old.rest }
{
    let atoms = atoms_of(alloc, table, columns_of(tables, table), privileges)?;
    rights.revoke_option(user, &atoms, users.as_slice());
    Ok(())
}

/// Carries out a change, of which the moment before it is given. `NoMemory` where a request for
/// memory was refused, and then nothing has changed, but that a name that is no table may have an
/// owner.
pub fn carry_out(
    alloc: Global,
    tables: &mut Tables,
    rights: &mut Graph,
    moment: Moment,
    user: &User,
    statement: &Statement,
) -> Result<(), NoMemory>
    requires can { CanCarry tables.old.tables rights.old.content moment.0 user.now statement.now }
    requires early { moment.0 < 2 ^ 63 }
    ensures tables { OnOk result
        (tables.new.tables ≡ tables_after tables.old.tables user.now statement.now) }
    ensures rights { OnOk result (rights.new.content
        ≡ rights_after rights.old.content moment.0
        (change_of tables.old.tables user.now statement.now)) }
    ensures narrow { OnOk result (HasFewColumns statement.now) }
    ensures few { OnOk result (rights.new.content.made ≤ rights.old.content.made + most_grants) }
    ensures same { OnErr result (tables.new ≡ tables.old) }
    ensures leaves { OnErr result
        (MayLeave rights.old.content (change_of tables.old.tables user.now statement.now)
        rights.new.content) }
    ensures rows_due { tables.new.rest ≡ tables.old.rest }
    ensures grants_due { rights.new.rest ≡ rights.old.rest }
{
    match statement {
        Statement::CreateTable { table, columns } => {
            create(alloc, tables, rights, user, table, columns)
        }
        Statement::Insert { table, values } => {
            let values = values.values().try_twin()?;
            tables.insert(*table, Row { values })
        }
        Statement::Delete { table, filter } => {
            tables.delete(*table, filter.as_slice());
            Ok(())
        }
        Statement::Update {
            table,
            sets,
            filter,
        } => { tables.update(*table, sets.as_slice(), filter.as_slice()) }
        Statement::Grant {
            privileges,
            table,
            users,
            option,
        } => grant(
            alloc, tables, rights, moment, *user, privileges, *table, users, *option,
        ),
        Statement::Revoke {
            privileges,
            table,
            users,
        } => revoke(alloc, tables, rights, *user, privileges, *table, users),
        Statement::RevokeOption {
            privileges,
            table,
            users,
        } => revoke_option(alloc, tables, rights, *user, privileges, *table, users),
        Statement::Select { .. }
        | Statement::Checkpoint
        | Statement::Checkpoints
        | Statement::Export { .. } => unreachable!(),
    }
}
