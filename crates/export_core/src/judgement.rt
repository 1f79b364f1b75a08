//! Whether a table is listed, and which of its columns.
ghost use Rattle.std.specs.Prelude.{◌≡◌, ◌≤◌, length, map, zip, IfOk};
ghost use Rattle.std.specs.List.{list_any};
ghost use Rattle.base_core.specs.Privileges.{of_table, to_select};
ghost use Rattle.base_core.specs.declared.privilege.Atom.{Atom as atoms};
ghost use Rattle.base_core.specs.declared.privilege.Kind.{Kind as kinds};
ghost use Rattle.grants_core.specs.Content.{gives};
ghost use Rattle.grants_core.specs.Keys.{same_key};
ghost use Rattle.indexmap.specs.IndexSet.{contains_by};
ghost use Rattle.capture_core.specs.Image.{owns_in_image};
ghost use Rattle.export_core.specs.Export.{held};
ghost use Rattle.export_core.specs.Walk as walks;
ghost use Rattle.export_core.specs.Walk.{by_rights};

use crate::marks::Marks;
use base_core::{Atom, Kind, Name, NoMemory, User};
use capture_core::{Image, TableImage};
use grants_core::Authority;
use graph_core::Key;
use indexmap::IndexSet;
use std::alloc::Global;

/// What an export tells of a table.
#[derive(Drop)]
pub enum Judgement {
    /// Its columns that are marked, and its rows cut to them: the user held SELECT of these at the
    /// point, and holds it now.
    Listed(Marks),
    /// That he held it of no column at the point.
    WithheldThen,
    /// That he holds it now of none of which he held it then.
    WithheldNow,
}

fn to_select(table: Name, column: Name) -> Atom
    ensures { result ≡ to_select table column }
{
    Atom {
        table,
        kind: Kind::Select(column),
    }
}

// Of which columns of the table the user holds SELECT. The owner is asked for once, and holds all.
fn marked_now<A: Authority>(
    alloc: Global,
    rights: &A,
    user: &User,
    table: &TableImage,
) -> Result<Marks, NoMemory>
    ensures { IfOk result
        (λ marks. marks ≡ by_rights (A.content rights.now) user.now table.now) }
{
    let columns = table.columns.as_slice();
    if rights.owns(*user, table.name) {
        return Ok(Marks::all(columns.len()));
    }
    let mut marks = Vec::with_capacity(alloc, columns.len())?;
    for column in columns {
        marks.push(rights.holds(*user, &to_select(table.name, column.name)))?;
    }
    Ok(Marks::of(marks))
}

/// Of which columns of each of these tables of an image the user holds SELECT by the rights at the
/// request alone.
pub fn judged_now<A: Authority>(
    alloc: Global,
    rights: &A,
    user: &User,
    tables: &[TableImage],
) -> Result<Vec<Marks>, NoMemory>
    ensures { IfOk result (λ judged. judged.items
        ≡ map (by_rights (A.content rights.now) user.now) tables.now) }
{
    let mut judged = Vec::with_capacity(alloc, tables.len())?;
    for table in tables {
        judged.push(marked_now(alloc, rights, user, table)?)?;
    }
    Ok(judged)
}

// Whether the user owned the table at the image's point.
fn owned_then(image: &Image, user: &User, table: Name) -> bool
    ensures { (kind : kinds)
        → result ≡ owns_in_image image.now user.now (of_table table kind) }
{
    let kind = Kind::Insert;
    image.owns(user, &Atom { table, kind })
}

// Of which columns of the table the user held SELECT at the image's point, where these privileges
// were given to him. The owner is asked for once, and held all.
fn marked_then(
    alloc: Global,
    image: &Image,
    given: &IndexSet<Key>,
    user: &User,
    table: &TableImage,
) -> Result<Marks, NoMemory>
    requires { (atom : atoms) → contains_by (same_key (record { 0 = atom })) given.now
        ≡ list_any (gives user.now atom) image.now.grants }
    ensures { IfOk result
        (λ marks. marks ≡ held image.now user.now table.now.name table.now.columns) }
{
    let columns = table.columns.as_slice();
    if owned_then(image, user, table.name) {
        return Ok(Marks::all(columns.len()));
    }
    let mut marks = Vec::with_capacity(alloc, columns.len())?;
    for column in columns {
        marks.push(given.contains(&Key(to_select(table.name, column.name))))?;
    }
    Ok(Marks::of(marks))
}

// Listed are the columns that the user held then and holds now. Where there is none, the table is
// withheld, for the point if he held none then.
fn settle(
    alloc: Global,
    image: &Image,
    given: &IndexSet<Key>,
    user: &User,
    table: &TableImage,
    now: &Marks,
) -> Result<Judgement, NoMemory>
    requires { (atom : atoms) → contains_by (same_key (record { 0 = atom })) given.now
        ≡ list_any (gives user.now atom) image.now.grants }
    ensures { IfOk result
        (λ judgement. judgement ≡ walks.settled image.now user.now (table.now, now.now)) }
{
    let then = marked_then(alloc, image, given, user, table)?;
    let could = then.is_any();
    let marks = then.both(alloc, now)?;
    if marks.is_any() {
        Ok(Judgement::Listed(marks))
    } else if could {
        Ok(Judgement::WithheldNow)
    } else {
        Ok(Judgement::WithheldThen)
    }
}

/// How tables of the image are judged, the first ones, where the rights at the request mark the
/// columns of each so. It goes over the image's grants once.
pub fn settled(
    alloc: Global,
    image: &Image,
    user: &User,
    tables: &[TableImage],
    now: &[Marks],
) -> Result<Vec<Judgement>, NoMemory>
    requires { length now.now ≤ length tables.now }
    ensures { IfOk result (λ judged. judged.items
        ≡ map (walks.settled image.now user.now) (zip tables.now now.now)) }
{
    let given = image.grants.privileges_given(alloc, user)?;
    let mut judged = Vec::with_capacity(alloc, now.len())?;
    for at in 0..now.len() {
        judged.push(settle(alloc, image, &given, user, &tables[at], &now[at])?)?;
    }
    Ok(judged)
}
