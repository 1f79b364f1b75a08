//! Statements, prepared.
ghost use Rattle.std.specs.Prelude.{◌≡◌, Some, MatchOption};
ghost use Rattle.session_core.specs.Gains.{Watches};
ghost use Rattle.preparing_core.specs.Preparing.{Prepares, SaysOne, SaysSeveral};

use crate::fault::PrepareFault;
use crate::guessing::guess_types;
use crate::prepared::Prepared;
use base_core::{Sequence, User};
use binding_core::{told_numbers, wanted_types};
use desk_core::{Desk, Pass};
use journal_core::Keeper;
use lexer_core::Token;
use messages_core::Int32s;
use parameters_core::{first_statement, is_empty_statement};
use sending_core::Problem;
use std::alloc::Global;
use std::sync::Wait;

/// The statement that a text says, if it says no other.
fn one_statement(text: &[u8]) -> Option<&[u8]>
    ensures { MatchOption result (SaysSeveral text.now) (λ one. SaysOne text.now one.now) }
{
    let (statement, rest) = first_statement(text);
    match rest {
        None => Some(statement),
        Some(rest) if is_empty_statement(rest) => Some(statement),
        Some(_) => None,
    }
}

/// Prepares the one statement of a text for a user, through the pass: nothing is changed. `told` has the
/// types of its first places, by their numbers in PostgreSQL's catalogue; 0 leaves one to the column for
/// which it stands. What the vector of tokens has before and behind the call means nothing.
///
/// `Problem(TooManyInQuery)` where the text says several statements. The statement is described with the
/// number 1 in each of its places: `Faulty`, `Denied` or `Unread` are of that line, and of a fault
/// `parameters_core::position` finds the byte of the statement. `LongLine` where the line would be too
/// long, or with numbers of up to three digits in its places. `UnknownType` where a type that was told
/// is of no column, and `WrongCount` where more types were told than there are places. `NoMemory` where
/// a request for memory was refused.
pub fn prepare<K: Keeper + Drop, R: Wait>(
    rt: &R,
    alloc: Global,
    desk: &Desk<K>,
    pass: &mut Pass<K>,
    user: User,
    text: &[u8],
    told: &Int32s<'_>,
    tokens: &mut Vec<Token>,
) -> Result<Prepared, PrepareFault>
    requires pass { pass.old.lock ≡ Some desk.now }
    ensures prepares { Prepares desk.now user text.now told.now pass.old result pass.new }
    ensures watched { Watches pass.old pass.new }
{
    let Some(statement) = one_statement(text) else {
        return Err(PrepareFault::Problem(Problem::TooManyInQuery));
    };
    let guess = guess_types(rt, alloc, desk, pass, user, statement, tokens)?;
    let types = wanted_types(alloc, told, guess.as_slice())?;
    let numbers = told_numbers(alloc, told, types.as_slice())?;
    let text = statement.to_vec(alloc)?;
    Ok(Prepared {
        text: Sequence::from_vec(text),
        types: Sequence::from_vec(types),
        numbers: Sequence::from_vec(numbers),
    })
}
