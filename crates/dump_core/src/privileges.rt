//! Kinds as privileges.
ghost use Rattle.std.specs.Prelude.{◌≡◌, ◌<◌, ◌≤◌, ◌∷◌, ◌++◌, [], true, not, ◌&&◌, nat_lt, IfOk, length, drop};
ghost use Rattle.std.specs.List.{filter_map, list_all, list_any};
ghost use Rattle.base_core.specs.Words.{same_name};
ghost use Rattle.reader_core.specs.Privileges.{same_word};
ghost use Rattle.monitor_core.specs.Atoms.{columns_listed};
ghost use Rattle.dump_core.specs.Dump.{are_few_names, privilege_of, privileges_of_kinds, may_be_listed};
ghost use Rattle.dump_core.specs.Kinds.{own_column, columns_ahead, meeting};

use base_core::{Distinct, Kind, Name, NoMemory};
use monitor_core::ByColumn;
use reader_core::{MAX_ITEMS, Privilege};
use std::alloc::Global;

fn own_column(by: ByColumn, kind: &Kind) -> Option<Name>
    ensures { result ≡ own_column by kind.now }
{
    match (by, kind) {
        (ByColumn::Select, Kind::Select(column)) => Some(*column),
        (ByColumn::Update, Kind::Update(column)) => Some(*column),
        _ => None,
    }
}

fn columns_ahead(alloc: Global, by: ByColumn, kinds: &[Kind]) -> Result<Vec<Name>, NoMemory>
    ensures { IfOk result (λ columns. columns.items ≡ columns_ahead by kinds.now) }
{
    let mut columns = Vec::new(alloc);
    for kind in kinds {
        match own_column(by, kind) {
            Some(column) => columns.push(column)?,
            None => return Ok(columns),
        }
    }
    Ok(columns)
}

fn distinct_ahead(
    alloc: Global,
    by: ByColumn,
    kinds: &[Kind],
) -> Result<Distinct<Name, MAX_ITEMS>, NoMemory>
    requires some { 0 < length (columns_ahead by kinds.now) }
    requires few { are_few_names 32 (columns_ahead by kinds.now) ≡ true }
    ensures { IfOk result (λ columns. columns ≡ columns_ahead by kinds.now) }
{
    let columns = columns_ahead(alloc, by, kinds)?;
    Distinct::from_vec(alloc, columns)
}

// The first privilege, and how many of the kinds it is.
fn first_privilege(alloc: Global, kinds: &[Kind]) -> Result<(Privilege, usize), NoMemory>
    requires some { 0 < length kinds.now }
    requires few { list_all (λ p. are_few_names 32 (columns_listed p))
        (privileges_of_kinds kinds.now)
        ≡ true }
    ensures first { IfOk result (λ first. privileges_of_kinds kinds.now
        ≡ first.0 ∷ privileges_of_kinds (drop first.1 kinds.now)) }
    ensures some { IfOk result (λ first. 0 < first.1) }
    ensures within { IfOk result (λ first. first.1 ≤ length kinds.now) }
{
    match &kinds[0] {
        Kind::Select(_) => {
            let columns = distinct_ahead(alloc, ByColumn::Select, kinds)?;
            let count = columns.as_slice().len();
            Ok((Privilege::Select(Some(columns)), count))
        }
        Kind::Insert => Ok((Privilege::Insert, 1)),
        Kind::Delete => Ok((Privilege::Delete, 1)),
        Kind::Update(_) => {
            let columns = distinct_ahead(alloc, ByColumn::Update, kinds)?;
            let count = columns.as_slice().len();
            Ok((Privilege::Update(Some(columns)), count))
        }
    }
}

/// The kinds as privileges, of which each lists few columns. `NoMemory` where a request for memory
/// was refused.
pub(crate) fn privileges_of(alloc: Global, kinds: &[Kind]) -> Result<Vec<Privilege>, NoMemory>
    requires { list_all (λ p. are_few_names 32 (columns_listed p)) (privileges_of_kinds kinds.now)
        ≡ true }
    ensures { IfOk result (λ listed. listed.items ≡ privileges_of_kinds kinds.now) }
{
    let mut listed = Vec::new(alloc);
    let mut rest = kinds;
    while !rest.is_empty() {
        let (privilege, count) = first_privilege(alloc, rest)?;
        listed.push(privilege)?;
        (_, rest) = rest.split_at(count);
    }
    Ok(listed)
}

// ---- one kind more

fn same_word(one: &Kind, other: &Kind) -> bool
    ensures { result ≡ same_word (privilege_of one.now) (privilege_of other.now) }
{
    match (one, other) {
        (Kind::Select(_), Kind::Select(_)) => true,
        (Kind::Insert, Kind::Insert) => true,
        (Kind::Delete, Kind::Delete) => true,
        (Kind::Update(_), Kind::Update(_)) => true,
        _ => false,
    }
}

fn has_word(kinds: &[Kind], kind: &Kind) -> bool
    ensures { result
        ≡ list_any (λ other. same_word (privilege_of other) (privilege_of kind.now)) kinds.now }
{
    kinds.iter().any(|other| same_word(other, kind))
}

fn meeting(last: &Kind, next: &Kind) -> Option<(ByColumn, Name)>
    ensures { result ≡ meeting last.now next.now }
{
    match (last, next) {
        (Kind::Select(_), Kind::Select(column)) => Some((ByColumn::Select, *column)),
        (Kind::Update(_), Kind::Update(column)) => Some((ByColumn::Update, *column)),
        _ => None,
    }
}

// Whether the column is none of those of the kinds, and these are fewer than 32.
fn takes_column(by: ByColumn, kinds: &[Kind], column: Name) -> bool
    ensures { result
        ≡ (nat_lt (length (filter_map (own_column by) kinds.now)) 32
        && not (list_any (λ n. same_name n column) (filter_map (own_column by) kinds.now))) }
{
    let mut count = 0;
    for kind in kinds {
        if let Some(own) = own_column(by, kind) {
            if own == column {
                return false;
            }
            count += 1;
        }
    }
    count < MAX_ITEMS
}

/// Whether a statement may list the kinds with one more behind them, where it may list them.
pub(crate) fn may_list_also(kinds: &[Kind], kind: &Kind) -> bool
    requires some { 0 < length kinds.now }
    requires listed { may_be_listed (privileges_of_kinds kinds.now) ≡ true }
    ensures { result ≡ may_be_listed (privileges_of_kinds (kinds.now ++ kind.now ∷ [])) }
{
    let last = kinds.len() - 1;
    match meeting(&kinds[last], kind) {
        Some(next) => takes_column(next.0, kinds, next.1),
        None => !has_word(kinds, kind),
    }
}
