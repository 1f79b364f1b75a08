//! The statements of a dump.
ghost use Rattle.std.specs.Prelude.{◌≡◌, ◌<◌, ◌≤◌, ◌∷◌, true, map, IfOk, length, drop};
ghost use Rattle.reader_core.specs.declared.statement.Statement.TheVariants as statements;
ghost use Rattle.reader_core.specs.Forming.{AreNamed, AreUsers, IsShort};
ghost use Rattle.system_core.specs.World.{entry};
ghost use Rattle.dump_core.specs.Dump as dumps;
ghost use Rattle.dump_core.specs.Dump.{privileges_of_kinds, may_be_listed, grants_together};

use crate::neighbours::{atom_ahead, kinds_ahead};
use crate::privileges::privileges_of;
use base_core::{
    Column, Distinct, Kind, Name, NoMemory, SeveralValues, User, Value, ValuesBuilder,
};
use grants_core::Grant;
use reader_core::{Privileges, Statement};
use std::alloc::Global;

/// CREATE TABLE with these columns, of which there are 1 to 32, with different names. `NoMemory`
/// where a request for memory was refused.
pub fn creation(alloc: Global, table: Name, columns: &[Column]) -> Result<Statement, NoMemory>
    requires { AreNamed 32 (λ c. c.name) columns.now }
    ensures { IfOk result (λ made. made ≡ statements.CreateTable table columns.now) }
{
    let columns = columns.iter().copied().collect(alloc)?;
    let columns = Distinct::from_vec(alloc, columns)?;
    Ok(Statement::CreateTable { table, columns })
}

/// INSERT of these values, of which there are 1 to 32. `NoMemory` where a request for memory was
/// refused.
pub fn insertion(alloc: Global, table: Name, values: &[Value]) -> Result<Statement, NoMemory>
    requires { IsShort 32 values.now }
    ensures { IfOk result (λ made. made ≡ statements.Insert table values.now) }
{
    let values = ValuesBuilder::twins_of(alloc, values)?;
    let values = SeveralValues::from_builder(values)?;
    Ok(Statement::Insert { table, values })
}

/// GRANT of privileges of these kinds, which a statement may list, to 1 to 16 different users.
/// `NoMemory` where a request for memory was refused.
pub fn granting(
    alloc: Global,
    kinds: &[Kind],
    table: Name,
    users: &[User],
    option: bool,
) -> Result<Statement, NoMemory>
    requires some { 0 < length kinds.now }
    requires listed { may_be_listed (privileges_of_kinds kinds.now) ≡ true }
    requires users { AreUsers users.now }
    ensures { IfOk result (λ made.
        made ≡ statements.Grant (privileges_of_kinds kinds.now) table users.now option) }
{
    let privileges = privileges_of(alloc, kinds)?;
    let privileges = Privileges::from_vec(alloc, privileges)?;
    let users = users.iter().copied().collect(alloc)?;
    let users = Distinct::from_vec(alloc, users)?;
    Ok(Statement::Grant {
        privileges,
        table,
        users,
        option,
    })
}

/// The statement that makes the first of some grants, its user, and how many of them it makes.
#[derive(Drop)]
pub struct FirstGrants {
    pub grantor: User,
    pub statement: Statement,
    pub count: usize,
}

/// The first statement that makes these grants, of which there is at least one, with as many
/// neighbours together as a dump has them. Those behind it are the grants of the next. `NoMemory`
/// where a request for memory was refused.
pub fn first_grants(alloc: Global, grants: &[Grant]) -> Result<FirstGrants, NoMemory>
    requires { 0 < length grants.now }
    ensures first { IfOk result (λ made.
        map dumps.granting (grants_together grants.now)
        ≡ entry 0 made.grantor made.statement
        ∷ map dumps.granting (grants_together (drop made.count grants.now))) }
    ensures some { IfOk result (λ made. 0 < made.count) }
    ensures within { IfOk result (λ made. made.count ≤ length grants.now) }
{
    let many = atom_ahead(grants);
    let (kinds, count) = kinds_ahead(alloc, grants, many)?;
    let first = grants[0];
    let users = grantees(alloc, &grants[..many])?;
    let statement = granting(alloc, &kinds, first.atom.table, &users, first.option)?;
    Ok(FirstGrants {
        grantor: first.grantor,
        statement,
        count,
    })
}

fn grantees(alloc: Global, grants: &[Grant]) -> Result<Vec<User>, NoMemory>
    ensures { IfOk result (λ users. users.items ≡ map (λ g. g.grantee) grants.now) }
{
    Ok(grants.iter().map(|grant| grant.grantee).collect(alloc)?)
}
