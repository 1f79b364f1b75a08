//! The rows that a line answers, as they are described before it is asked.
ghost use Rattle.std.specs.Prelude.{◌≡◌, Some, IfErr, IfOk};
ghost use Rattle.session_core.specs.Gains.{Watches};
ghost use Rattle.asking_core.specs.Columns.{result_columns};
ghost use Rattle.preparing_core.specs.Shapes.{DescribesRows, IsFound, fault_told, shape_of};

use crate::fault::PrepareFault;
use crate::shape::Shape;
use asking_core::{Described, describe, result_columns};
use base_core::{Column, Sequence, User};
use desk_core::{Desk, Pass};
use journal_core::Keeper;
use lexer_core::Token;
use reader_core::{Statement, read_with};
use sending_core::Few;
use std::alloc::Global;
use std::sync::Wait;
use system_core::Reply;
use utility_core::Command;

/// What is found of a line that is described.
#[derive(Drop)]
pub enum Found {
    /// It is this command beside the language.
    Command(Command),
    /// These are the columns of its statement's table.
    Columns(Sequence<Column>),
}

/// What is found by this, or what stands in the way.
pub(crate) fn found_by(told: Described) -> Result<Found, PrepareFault>
    ensures found { IfOk result (IsFound told) }
    ensures faulty { IfErr result (λ fault. fault_told told ≡ Some fault) }
{
    match told {
        Described::Command(command) => Ok(Found::Command(command)),
        Described::Told(Reply::Described { columns, .. }) => Ok(Found::Columns(columns)),
        Described::Told(reply) => Err(PrepareFault::Denied(reply)),
        Described::Faulty { code, offset } => Err(PrepareFault::Faulty { code, offset }),
        Described::Unread => Err(PrepareFault::Unread),
    }
}

/// The rows that a SELECT answers, where its table has these columns.
fn rows_of(
    alloc: Global,
    statement: &Statement,
    columns: Sequence<Column>,
) -> Result<Shape, PrepareFault>
    ensures rows { IfOk result (λ shape. shape ≡ Shape.Rows (result_columns statement.now columns)) }
    ensures unread { IfErr result (λ fault. fault ≡ PrepareFault.Unread) }
{
    let Ok(chosen) = result_columns(alloc, statement, columns) else {
        return Err(PrepareFault::Unread);
    };
    match Few::new(chosen) {
        Some(chosen) => Ok(Shape::Rows(chosen)),
        None => Err(PrepareFault::Unread),
    }
}

/// The rows that a statement answers, where its table has these columns.
fn shape_of(
    alloc: Global,
    statement: &Statement,
    columns: Sequence<Column>,
) -> Result<Shape, PrepareFault>
    ensures shape { IfOk result (λ shape. shape ≡ shape_of statement.now columns) }
    ensures unread { IfErr result (λ fault. fault ≡ PrepareFault.Unread) }
{
    match statement {
        Statement::Select { .. } => rows_of(alloc, statement, columns),
        Statement::Checkpoints => Ok(Shape::Checkpoints),
        Statement::Export { .. } => Ok(Shape::Export),
        _ => Ok(Shape::Nothing),
    }
}

/// What is told of the rows of a user's line, through the pass: nothing is changed. What the vector of
/// tokens has before and behind the call means nothing.
///
/// `Faulty` where the line says no statement and is no command, `Denied` where the desk tells no columns,
/// and `Unread` where a request for memory was refused.
pub fn describe_rows<K: Keeper + Drop, R: Wait>(
    rt: &R,
    alloc: Global,
    desk: &Desk<K>,
    pass: &mut Pass<K>,
    user: User,
    line: &[u8],
    tokens: &mut Vec<Token>,
) -> Result<Shape, PrepareFault>
    requires pass { pass.old.lock ≡ Some desk.now }
    ensures describes { DescribesRows desk.now user line.now pass.old result pass.new }
    ensures watched { Watches pass.old pass.new }
{
    let told = describe(rt, alloc, desk, pass, user, line, tokens);
    let found = found_by(told)?;
    match found {
        Found::Command(command) => Ok(Shape::Command(command)),
        Found::Columns(columns) => {
            let Ok(statement) = read_with(alloc, tokens, line) else {
                return Err(PrepareFault::Unread);
            };
            shape_of(alloc, &statement, columns)
        }
    }
}
