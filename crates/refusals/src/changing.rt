//! Several grants at once, and several rows at once while they are captured.
ghost use Rattle.std.specs.Prelude.{◌≡◌, ◌+◌, ◌<◌, ◌≤◌, ◌^◌, [], length, IsSomeAnd};
ghost use Rattle.tables_core.specs.Contents.{all_rows, table_of};
ghost use Rattle.tables_core.specs.Fitting.{ValuesFit};

use crate::telling::{named, unchanged};
use base_core::{
    Assignment, Atom, ColType, Column, Kind, Moment, Name, Row, Sequence, User, Value,
    ValuesBuilder,
};
use grants_core::{Authority, Grant};
use graph_core::Graph;
use std::alloc::Global;
use tables_core::{Tables, columns_differ};

fn tell_grant(rt: &HostRuntime, grant: &Grant) -> Option<()> {
    let name = str::from_utf8(grant.grantee.0.as_bytes()).ok()?;
    match grant.atom.kind {
        Kind::Select(_) => println!(rt; "grant {} SELECT {name}", grant.number).ok(),
        _ => println!(rt; "grant {} INSERT {name}", grant.number).ok(),
    }
}

fn tell_grants(rt: &HostRuntime, graph: &Graph) -> Option<()> {
    for grant in &graph.in_force().ok()? {
        tell_grant(rt, grant)?;
    }
    Some(())
}

/// The grants, which are made again where they were refused.
fn granted(rt: &HostRuntime, graph: &mut Graph) -> Option<()>
    requires { graph.old.content ≡ record { owners = []; in_force = []; made = 0 } }
{
    let (table, owner) = (named("t")?, User(named("o")?));
    let select = Atom {
        table,
        kind: Kind::Select(named("v")?),
    };
    let insert = Atom {
        table,
        kind: Kind::Insert,
    };
    let (atoms, at) = ([select, insert], Moment(2));
    let whom = [User(named("a")?), User(named("b")?), User(named("c")?)];
    graph.create(table, owner).ok()?;
    if !graph.may_grant(owner, &select) || !graph.may_grant(owner, &insert) {
        return None;
    }
    if graph.grant(owner, &atoms, &whom, false, at).is_err() {
        unchanged(rt, graph.made() == 0 && graph.in_force().ok()?.is_empty());
        graph.grant(owner, &atoms, &whom, false, at).ok()?;
    }
    tell_grants(rt, graph)
}

/// Two privileges for three users.
pub fn grant(rt: &HostRuntime, alloc: Global) -> Option<()> {
    let mut graph = Graph::new(alloc);
    let told = granted(rt, &mut graph);
    drop(graph);
    told
}

fn create(alloc: Global, tables: &mut Tables) -> Option<()>
    ensures { length (all_rows tables.new.tables) ≡ length (all_rows tables.old.tables) }
{
    let (table, name) = (named("t")?, named("v")?);
    let mut columns = Vec::new(alloc);
    let ty = ColType::Integer;
    columns.push(Column { name, ty }).ok()?;
    let columns = Sequence::from_vec(columns);
    if !columns_differ(columns.as_slice()) || tables.owner(table).is_some() {
        return None;
    }
    tables.create(table, User(table), columns).ok()
}

fn row(alloc: Global, number: i64) -> Option<Row> {
    let mut values = ValuesBuilder::new(alloc);
    values.push(Value::Int(number)).ok()?;
    let values = values.build().ok()?;
    Some(Row { values })
}

fn put(tables: &mut Tables, name: Name, row: Row) -> Option<()>
    requires few { IsSomeAnd (table_of tables.old.tables name) (λ t. t.inserted < 2 ^ 63) }
    requires fits { IsSomeAnd (table_of tables.old.tables name)
        (λ t. ValuesFit t.columns row.values) }
    ensures { length (all_rows tables.new.tables) ≤ length (all_rows tables.old.tables) + 1 }
{
    let made = tables.insert(name, row);
    made.ok()
}

fn insert(alloc: Global, tables: &mut Tables, number: i64) -> Option<()>
    ensures { length (all_rows tables.new.tables) ≤ length (all_rows tables.old.tables) + 1 }
{
    let table = named("t")?;
    let row = row(alloc, number)?;
    if !tables.takes_row(table, row.values.as_slice()) || tables.inserted(table) > 100 {
        return None;
    }
    put(tables, table, row)
}

fn is_row(row: Option<&Row>, number: i64) -> bool {
    match row {
        Some(row) => row.values.as_slice() == [Value::Int(number)].as_slice(),
        None => false,
    }
}

/// Whether no row was updated, and none was captured.
fn is_kept(tables: &Tables) -> bool {
    let Some(table) = tables.at(0) else {
        return false;
    };
    let rows = table.rows;
    let same = is_row(rows.get(0), 1) && is_row(rows.get(1), 2) && is_row(rows.get(2), 3);
    same && rows.len() == 3 && tables.left() == 3
}

fn nines(alloc: Global) -> Option<Vec<Assignment>> {
    let column = named("v")?;
    let mut sets = Vec::new(alloc);
    let value = Value::Int(9);
    sets.push(Assignment { column, value }).ok()?;
    Some(sets)
}

/// Each row is updated, again where that was refused.
fn updated(rt: &HostRuntime, tables: &mut Tables, sets: &[Assignment]) -> Option<()> {
    let table = named("t")?;
    if !tables.takes_assignments(table, sets) {
        return None;
    }
    if tables.update(table, sets, &[]).is_ok() {
        return Some(());
    }
    unchanged(rt, is_kept(tables));
    tables.update(table, sets, &[]).ok()
}

/// All rows of the table are captured, again where that was refused.
fn captured(rt: &HostRuntime, tables: &mut Tables, out: &mut Vec<Row>) -> Option<()> {
    if tables.capture_rows(0, out, 3).is_err() {
        unchanged(rt, tables.left() == 3 && out.is_empty());
        tables.capture_rows(0, out, 3).ok()?;
    }
    Some(())
}

fn tell_row(rt: &HostRuntime, number: u64, row: &Row) -> Option<()> {
    match row.values.as_slice().first()? {
        Value::Int(value) => println!(rt; "row {number} {value}").ok(),
        Value::Text(_) => None,
    }
}

fn tell_captured(rt: &HostRuntime, row: &Row) -> Option<()> {
    match row.values.as_slice().first()? {
        Value::Int(value) => println!(rt; "captured {value}").ok(),
        Value::Text(_) => None,
    }
}

fn tell_rows(rt: &HostRuntime, tables: &Tables, out: &[Row]) -> Option<()> {
    for row in out {
        tell_captured(rt, row)?;
    }
    let Some(table) = tables.at(0) else {
        return None;
    };
    let rows = table.rows;
    for number in 0..3 {
        tell_row(rt, number, rows.get(number)?)?;
    }
    Some(())
}

fn fill(alloc: Global, tables: &mut Tables) -> Option<()>
    ensures { length (all_rows tables.new.tables) ≤ length (all_rows tables.old.tables) + 3 }
{
    create(alloc, tables)?;
    insert(alloc, tables, 1)?;
    insert(alloc, tables, 2)?;
    insert(alloc, tables, 3)
}

/// Updates and captures the rows, and writes what comes of both.
fn change(
    rt: &HostRuntime,
    tables: &mut Tables,
    sets: &[Assignment],
    out: &mut Vec<Row>,
) -> Option<()> {
    updated(rt, tables, sets)?;
    captured(rt, tables, out)?;
    tell_rows(rt, tables, out)
}

/// The update of three rows during a capture, which gives them as they were.
pub fn update(rt: &HostRuntime, alloc: Global) -> Option<()> {
    let sets = nines(alloc)?;
    let mut tables = Tables::new(alloc);
    let mut out = Vec::new(alloc);
    let filled = fill(alloc, &mut tables);
    tables.begin();
    let told = match filled {
        Some(()) => change(rt, &mut tables, &sets, &mut out),
        None => None,
    };
    drop(tables);
    drop(out);
    drop(sets);
    told
}
