//! The types of places, as a client tells them.
ghost use Rattle.std.specs.Prelude.{◌≡◌, IfErr, IfOk};
ghost use Rattle.messages_core.specs.Rows.{type_number};
ghost use Rattle.binding_core.specs.Telling.{AreNumbers, AreWanted, IsTypeFault, told_number, told_type};

use crate::fault::TypeFault;
use base_core::{ColType, NoMemory};
use messages_core::Int32s;
use std::alloc::Global;

/// The type of a place for which this number was told. None where it is of no type that a column
/// has.
fn told_type(oid: u32, guess: ColType) -> Option<ColType>
    ensures { result ≡ told_type oid guess }
{
    match oid {
        0 => Some(guess),
        20 | 21 | 23 => Some(ColType::Integer),
        25 | 705 | 1043 => Some(ColType::Text),
        _ => None,
    }
}

/// The types of a statement's places, of which some are told and all are guessed: what is told
/// goes before what is guessed, but for 0.
///
/// `UnknownType` has the first number that is of no type of the language; where each is, but more
/// are told than there are places, it is `WrongCount`. `NoMemory` where a request for memory was
/// refused.
pub fn wanted_types(
    alloc: Global,
    told: &Int32s<'_>,
    guessed: &[ColType],
) -> Result<Vec<ColType>, TypeFault>
    ensures types { IfOk result (λ types. AreWanted told.now guessed.now types.items) }
    ensures faulty { IfErr result (IsTypeFault told.now guessed.now) }
{
    let mut left = told.iter();
    let mut types = Vec::new(alloc);
    for guess in guessed {
        let oid = left.next().unwrap_or(0);
        let Some(ty) = told_type(oid, *guess) else {
            return Err(TypeFault::UnknownType(oid));
        };
        types.push(ty)?;
    }
    if left.next().is_some() {
        return Err(TypeFault::WrongCount);
    }
    Ok(types)
}

/// The number of a type in PostgreSQL's catalogue.
fn type_number(ty: ColType) -> u32
    ensures { result ≡ type_number ty }
{
    match ty {
        ColType::Integer => 20,
        ColType::Text => 25,
    }
}

/// The number of a place of this type, for which this one was told.
fn told_number(oid: u32, ty: ColType) -> u32
    ensures { result ≡ told_number oid ty }
{
    match oid {
        0 | 705 => type_number(ty),
        _ => oid,
    }
}

/// The numbers of a statement's places in PostgreSQL's catalogue of types: each as it was told, and where it was
/// told as 0 or as unknown, or not told, that of its type. `NoMemory` where a request for memory was refused.
pub fn told_numbers(
    alloc: Global,
    told: &Int32s<'_>,
    types: &[ColType],
) -> Result<Vec<u32>, NoMemory>
    ensures numbers { IfOk result (λ numbers. AreNumbers told.now types.now numbers.items) }
{
    let mut left = told.iter();
    let mut numbers = Vec::new(alloc);
    for ty in types {
        let oid = left.next().unwrap_or(0);
        numbers.push(told_number(oid, *ty))?;
    }
    Ok(numbers)
}
