//! What a statement would answer.
ghost use Rattle.std.specs.Prelude.{◌≡◌, Some, IfOk, option_and_then, slice_get};
ghost use Rattle.base_core.specs.Filter.{column_index};
ghost use Rattle.session_core.specs.Gains.{Watches};
ghost use Rattle.reader_core.specs.Language.{IsReadFault};
ghost use Rattle.asking_core.specs.Asking.{DescribesLine, IsUnsaid};
ghost use Rattle.asking_core.specs.Columns.{columns_named, result_columns};

use crate::asking::command_told;
use base_core::{Column, Name, NoMemory, Sequence, User, column_index};
use desk_core::{Desk, Pass};
use journal_core::Keeper;
use lexer_core::{Code, ReadFault, Token};
use reader_core::{Statement, read_with};
use std::alloc::Global;
use std::sync::Wait;
use system_core::Reply;
use utility_core::Command;

/// What is told of a line that is only described.
#[derive(Drop)]
pub enum Described {
    /// It is this command beside the language.
    Command(Command),
    /// It says no statement: this is its one fault, at this byte.
    Faulty { code: Code, offset: usize },
    /// There was no memory to read it.
    Unread,
    /// The desk has answered so: with the columns of the statement's table, its denial, or a refusal.
    Told(Reply),
}

/// The column of this name.
fn column_named(columns: &[Column], name: Name) -> Option<Column>
    ensures { result ≡ option_and_then (slice_get columns.now) (column_index columns.now name) }
{
    columns.get(column_index(columns, name)?).copied()
}

/// These of the columns, in the order of the names; names that no column has are left out.
fn columns_named(
    alloc: Global,
    columns: &[Column],
    list: &[Name],
) -> Result<Sequence<Column>, NoMemory>
    ensures { IfOk result (λ listed. listed ≡ columns_named columns.now list.now) }
{
    let mut listed = Vec::new(alloc);
    let mut rest = list;
    while let [name, behind @ ..] = rest {
        if let Some(column) = column_named(columns, *name) {
            listed.push(column)?;
        }
        rest = behind;
    }
    Ok(Sequence::from_vec(listed))
}

/// The columns of the rows that a statement answers, of these columns of its table: those that a SELECT
/// lists, in that order, or all where it lists none. A statement without rows of a table has none.
/// `NoMemory` where a request for memory was refused.
pub fn result_columns(
    alloc: Global,
    statement: &Statement,
    columns: Sequence<Column>,
) -> Result<Sequence<Column>, NoMemory>
    ensures { IfOk result (λ chosen. chosen ≡ result_columns statement.now columns) }
{
    match statement {
        Statement::Select { list: None, .. } => Ok(columns),
        Statement::Select {
            list: Some(list),
            ..
        } => columns_named(alloc, columns.as_slice(), list.as_slice()),
        _ => Ok(Sequence::new(alloc)),
    }
}

/// What is told of a line that says no statement.
fn unsaid(tokens: &mut Vec<Token>, line: &[u8], code: Code, offset: usize) -> Described
    requires { IsReadFault line.now code offset }
    ensures { IsUnsaid line.now result }
{
    match command_told(tokens, line) {
        Ok(Some(command)) => Described::Command(command),
        Ok(None) => Described::Faulty { code, offset },
        Err(NoMemory) => Described::Unread,
    }
}

/// What is told of one line of a user that is only described, through the pass: nothing is changed. What
/// the vector of tokens has before and behind the call means nothing.
pub fn describe<K: Keeper + Drop, R: Wait>(
    rt: &R,
    alloc: Global,
    desk: &Desk<K>,
    pass: &mut Pass<K>,
    user: User,
    line: &[u8],
    tokens: &mut Vec<Token>,
) -> Described
    requires pass { pass.old.lock ≡ Some desk.now }
    ensures describes { DescribesLine desk.now user line.now pass.old result pass.new }
    ensures watched { Watches pass.old pass.new }
{
    match read_with(alloc, tokens, line) {
        Ok(statement) => Described::Told(desk.describe(rt, pass, user, statement)),
        Err(ReadFault::At { code, offset }) => unsaid(tokens, line, code, offset),
        Err(ReadFault::NoMemory) => Described::Unread,
    }
}
