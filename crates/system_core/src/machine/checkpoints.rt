//! The checkpoints that CHECKPOINTS lists, and what an export of one of them needs.
ghost use Rattle.std.specs.List.{list_any};
ghost use Rattle.std.specs.Prelude.{◌≡◌, ◌&&◌, ◌++◌, ◌∷◌, [], map, option_map, Some, IfOk, OnOk};
ghost use Rattle.base_core.specs.declared.lack.Lack.TheVariants as lacks;
ghost use Rattle.export_core.specs.Export.{held_then, holds_now, held, listed_marks, is_any};
ghost use Rattle.system_core.specs.Judging.{moment_for};
ghost use Rattle.system_core.specs.Standing.{image_check};
ghost use Rattle.system_core.specs.Step.{active_listed};
ghost use Rattle.system_core.specs.declared.machine.event.Checkpoint.TheVariants as checkpoints;

use crate::machine::event::Checkpoint;
use base_core::{Column, Lack, Moment, Name, NoMemory, Sequence, User};
use capture_core::{Capture, Image};
use catalogue_core::Catalogue;
use grants_core::Authority;
use monitor_core::ByColumn;
use std::alloc::Global;

fn kept_entry(kept: &(u64, Moment)) -> Checkpoint
    ensures { result ≡ checkpoints.Kept kept.now.0 kept.now.1 }
{
    Checkpoint::Kept {
        number: kept.0,
        point: kept.1,
    }
}

fn kept_entries(alloc: Global, kept: &[(u64, Moment)]) -> Result<Vec<Checkpoint>, NoMemory>
    ensures { IfOk result
        (λ entries. entries.items ≡ map (λ c. checkpoints.Kept c.0 c.1) kept.now) }
{
    let entries = kept.iter().map(kept_entry).collect(alloc)?;
    Ok(entries)
}

fn push_active(
    entries: &mut Vec<Checkpoint>,
    active: Option<(u64, Moment, u64)>,
) -> Result<(), NoMemory>
    ensures { OnOk result (entries.new.items ≡ entries.old.items
        ++ active_listed (option_map (λ a. record {
          number = a.0;
          point = a.1;
          left = a.2;
        }) active)) }
{
    if let Some((number, point, left)) = active {
        entries.push(Checkpoint::Active {
            number,
            point,
            left,
        })?;
    }
    Ok(())
}

/// The checkpoints that are kept, the oldest first, and then the active one. `NoMemory` where a
/// request for memory was refused.
pub fn listed(
    alloc: Global,
    catalogue: &Catalogue,
    capture: &Capture,
) -> Result<Sequence<Checkpoint>, NoMemory>
    ensures { IfOk result (λ entries. entries
        ≡ map (λ image. checkpoints.Kept image.number image.point) catalogue.now
        ++ active_listed (option_map
        (λ a. record { number = a.number; point = a.point; left = a.left })
        capture.now.active)) }
{
    let kept = catalogue.list()?;
    let mut entries = kept_entries(alloc, &kept)?;
    push_active(&mut entries, capture.active())?;
    Ok(Sequence::from_vec(entries))
}

// Whether the user held SELECT of one of the columns at the image's point.
fn held_any(image: &Image, user: &User, table: Name, columns: &[Column]) -> bool
    ensures { result ≡ is_any (held image.now user.now table columns.now) }
{
    image.holds_one(*user, table, columns)
}

fn any_listed<A: Authority>(
    image: &Image,
    rights: &A,
    user: &User,
    table: Name,
    columns: &[Column],
) -> bool
    ensures { result
        ≡ list_any
        (λ c. holds_now (A.content rights.now) user.now table c.name
        && held_then image.now user.now table c.name)
        columns.now }
{
    columns.iter().any(|column| {
        let atom = ByColumn::Select.of_column(table, column.name);
        rights.holds(*user, &atom) && image.holds(*user, &atom)
    })
}

// Whether he held SELECT of one of them then that he holds now.
fn holds_any<A: Authority>(
    image: &Image,
    rights: &A,
    user: &User,
    table: Name,
    columns: &[Column],
) -> bool
    ensures { result
        ≡ is_any (listed_marks image.now (A.content rights.now) user.now table columns.now) }
{
    any_listed(image, rights, user, table, columns)
}

/// Whether the user may export this table alone: it stood at the image's point, and he held SELECT
/// of a column of it then that he holds now. Else the first lack.
fn may_export_table<A: Authority>(
    image: &Image,
    rights: &A,
    user: &User,
    table: Name,
) -> Result<(), Lack>
    ensures { result ≡ image_check image.now (A.content rights.now) user.now (Some table) }
{
    let columns = image.columns(table);
    if !image.has(table) {
        return Err(Lack::NoTableThen {
            table,
            number: image.number,
        });
    }
    if !held_any(image, user, table, columns) {
        return Err(Lack::NoSelectThen { user: *user, table });
    }
    if !holds_any(image, rights, user, table, columns) {
        return Err(Lack::NoSelectNow { user: *user, table });
    }
    Ok(())
}

/// Whether the user may export the image: all of it, or the table alone that is named. Else the
/// first lack.
pub fn may_export<A: Authority>(
    image: &Image,
    rights: &A,
    user: &User,
    only: &Option<Name>,
) -> Result<(), Lack>
    ensures { result ≡ image_check image.now (A.content rights.now) user.now only.now }
{
    match only {
        None => Ok(()),
        Some(table) => may_export_table(image, rights, user, *table),
    }
}

/// The moment that a lack of an export bears: the point, where it is of what was missing then, and
/// else now.
pub fn judged_at(point: Moment, now: Moment, lack: &Lack) -> Moment
    ensures { result ≡ moment_for point now lack.now }
{
    match lack {
        Lack::NoTableThen { .. } | Lack::NoSelectThen { .. } => point,
        _ => now,
    }
}
