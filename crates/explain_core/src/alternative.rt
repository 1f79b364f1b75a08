//! What other grants were missing, where one fell for want of a support.
ghost use Rattle.std.specs.Prelude.{◌≡◌, ◌++◌, ◌∷◌, [], IfOk, OnOk, map, filter};
ghost use Rattle.explain_core.specs.Alternatives.{alternative_of, alternatives, alternatives_to};
ghost use Rattle.explain_core.specs.Alternatives.{is_alternative, missing_at, option_missing, was_until};

use crate::life::{Life, is_end};
use base_core::{Moment, NoMemory};
use grants_core::Grant;
use std::alloc::Global;

/// What a grant was missing at a moment, to support another.
#[derive(Clone, Copy)]
pub enum Missing {
    /// It fell then itself.
    Itself,
    /// It was made without the option.
    Option,
    /// Its option ended before, at this moment.
    OptionSince(Moment),
    /// Its option ended then.
    OptionNow,
}

/// A grant that was there where another fell, and could have kept it in place of its support, but for what it was
/// missing, or as it was not earlier.
#[derive(Clone, Copy)]
pub struct Alternative {
    pub life: Life,
    /// The moment of the grant that it did not keep.
    pub unkept: Moment,
    pub missing: Option<Missing>,
    /// Whether it was not made before that.
    pub is_late: bool,
}

fn option_missing(end: Option<Moment>, at: Moment) -> Option<Missing>
    ensures { result ≡ option_missing at end }
{
    let end = end?;
    if end.0 < at.0 {
        Some(Missing::OptionSince(end))
    } else if end.0 == at.0 {
        Some(Missing::OptionNow)
    } else {
        None
    }
}

/// What the grant of a life was missing at the moment, to support another.
fn missing_at(life: &Life, at: Moment) -> Option<Missing>
    ensures { result ≡ missing_at at life.now }
{
    if is_end(life.fell, at) {
        Some(Missing::Itself)
    } else if !life.grant.option {
        Some(Missing::Option)
    } else {
        option_missing(life.option_end, at)
    }
}

/// Whether a life that ends then was there until the moment.
fn was_until(fell: Option<Moment>, at: Moment) -> bool
    ensures { result ≡ was_until at fell }
{
    match fell {
        Some(fell) => at.0 <= fell.0,
        None => true,
    }
}

/// Whether a life is of a grant that could have kept the second of these in place of the first.
fn is_alternative(life: &Life, support: &Grant, unkept: &Grant, at: Moment) -> bool
    ensures { result ≡ is_alternative at support.now unkept.now life.now }
{
    let grant = &life.grant;
    (grant.grantee == unkept.grantor && grant.atom == unkept.atom)
        && ((grant.number != support.number && grant.number != unkept.number)
            && (grant.moment.0 < at.0 && was_until(life.fell, at)))
}

fn alternative_of(life: &Life, unkept: &Grant, at: Moment) -> Alternative
    ensures { result ≡ alternative_of at unkept.now life.now }
{
    Alternative {
        life: *life,
        unkept: unkept.moment,
        missing: missing_at(life, at),
        is_late: unkept.moment.0 <= life.grant.moment.0,
    }
}

/// Appends those of the lives that could have kept the second of two grants in place of the first.
fn push_alternatives(
    found: &mut Vec<Alternative>,
    lives: &[Life],
    support: &Life,
    unkept: &Life,
    at: Moment,
) -> Result<(), NoMemory>
    ensures { OnOk result (found.new.items
        ≡ found.old.items ++ alternatives_to at lives.now support.now unkept.now) }
{
    for life in lives {
        if is_alternative(life, &support.grant, &unkept.grant, at) {
            found.push(alternative_of(life, &unkept.grant, at))?;
        }
    }
    Ok(())
}

/// For each grant of a descent but the first, those of the lives that could have kept it where it fell at the moment,
/// and what each was missing. The lives are to have all grants of its privilege. `NoMemory` where a request for memory
/// was refused.
pub fn alternatives(
    alloc: Global,
    lives: &[Life],
    descent: &[Life],
    at: Moment,
) -> Result<Vec<Alternative>, NoMemory>
    ensures { IfOk result (λ found. found.items ≡ alternatives at lives.now descent.now) }
{
    let mut found = Vec::new(alloc);
    let mut rest = descent;
    while let Some((support, behind)) = rest.split_first() {
        if let Some(unkept) = behind.first() {
            push_alternatives(&mut found, lives, support, unkept, at)?;
        }
        rest = behind;
    }
    Ok(found)
}
