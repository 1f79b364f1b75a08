//! The types of places, as they are guessed.
ghost use Rattle.std.specs.Prelude.{◌≡◌, Some, IfErr, IfOk, replicate};
ghost use Rattle.session_core.specs.Gains.{Watches};
ghost use Rattle.base_core.specs.declared.value.ColType.TheVariants as types;
ghost use Rattle.parameters_core.specs.Places.{IsGreatestNumber};
ghost use Rattle.preparing_core.specs.Guessing.{AreGuessed, AreUnguessed, Guesses, IsNumbered, IsUnnumbered};

use crate::describing::{Found, found_by};
use crate::fault::PrepareFault;
use asking_core::describe;
use base_core::{ColType, Column, NoMemory, Sequence, User};
use binding_core::{place_numbers, place_types};
use desk_core::{Desk, Pass};
use journal_core::Keeper;
use lexer_core::Token;
use parameters_core::{fill, fill_with_ones, greatest_place, is_empty_statement};
use reader_core::{Statement, read_with};
use sending_core::Problem;
use std::alloc::Global;
use std::sync::Wait;

/// The statement that a text says with so many numbers in its places, from this one on. The line and the
/// tokens are room for it.
fn numbered_statement(
    alloc: Global,
    line: &mut Vec<u8>,
    tokens: &mut Vec<Token>,
    text: &[u8],
    first: u8,
    count: u8,
) -> Result<Statement, PrepareFault>
    requires { IsGreatestNumber text.now count }
    ensures numbered { IfOk result (IsNumbered text.now first count) }
    ensures faulty { IfErr result (IsUnnumbered text.now first count) }
{
    let values = place_numbers(alloc, first, count)?;
    fill(line, text, values.as_slice())?;
    match read_with(alloc, tokens, line.as_slice()) {
        Ok(statement) => Ok(statement),
        // Other numbers than ones change only literals, so only memory can lack.
        Err(_) => Err(PrepareFault::Problem(Problem::NoMemory)),
    }
}

/// The types of a text's places, so many, by the columns for which they stand.
fn guess_by_columns(
    alloc: Global,
    line: &mut Vec<u8>,
    tokens: &mut Vec<Token>,
    text: &[u8],
    columns: &[Column],
    count: u8,
) -> Result<Sequence<ColType>, PrepareFault>
    requires { IsGreatestNumber text.now count }
    ensures guessed { IfOk result (AreGuessed text.now columns.now count) }
    ensures faulty { IfErr result (AreUnguessed text.now count) }
{
    let first = numbered_statement(alloc, line, tokens, text, 1, count)?;
    let second = numbered_statement(alloc, line, tokens, text, 101, count)?;
    let guess = place_types(alloc, columns, &first, &second, count)?;
    Ok(Sequence::from_vec(guess))
}

/// So many texts.
fn text_types(alloc: Global, count: u8) -> Result<Sequence<ColType>, NoMemory>
    ensures { IfOk result (λ guess. guess ≡ replicate count types.Text) }
{
    let guess = vec![in alloc; ColType::Text; count as usize]?;
    Ok(Sequence::from_vec(guess))
}

/// The types of a statement's places, of which a client has told nothing. Nothing is changed.
pub(crate) fn guess_types<K: Keeper + Drop, R: Wait>(
    rt: &R,
    alloc: Global,
    desk: &Desk<K>,
    pass: &mut Pass<K>,
    user: User,
    statement: &[u8],
    tokens: &mut Vec<Token>,
) -> Result<Sequence<ColType>, PrepareFault>
    requires pass { pass.old.lock ≡ Some desk.now }
    ensures guesses { Guesses desk.now user statement.now pass.old result pass.new }
    ensures watched { Watches pass.old pass.new }
{
    if is_empty_statement(statement) {
        return Ok(Sequence::new(alloc));
    }
    let mut line = Vec::new(alloc);
    fill_with_ones(&mut line, statement)?;
    let told = describe(rt, alloc, desk, pass, user, line.as_slice(), tokens);
    let found = found_by(told)?;
    let count = greatest_place(statement);
    match found {
        Found::Command(_) => Ok(text_types(alloc, count)?),
        Found::Columns(columns) => {
            guess_by_columns(
                alloc,
                &mut line,
                tokens,
                statement,
                columns.as_slice(),
                count,
            )
        }
    }
}
