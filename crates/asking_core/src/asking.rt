//! A line of a user, asked at the desk.
ghost use Rattle.std.specs.Prelude.{◌≡◌, ℕ, List, Some, None, true, IfOk, MatchOption};
ghost use Rattle.turnstile.specs.Passes.{IsSamePass};
ghost use Rattle.reader_core.specs.Language.{Spells, IsReadFault};
ghost use Rattle.session_core.specs.Gains.{Gains};
ghost use Rattle.asking_core.specs.Asking.{AsksLine, Declines, AsksStatement, IsCommand, IsNoCommand};
ghost use Rattle.asking_core.specs.Manners.{bar_of, wants_described};
ghost use Rattle.asking_core.specs.declared.manner.Manner.{Manner};

use crate::describing::result_columns;
use crate::manner::{Bar, Manner, bar_of, may_answer, wants_described};
use answer_core::Tag;
use base_core::{Column, NoMemory, User};
use desk_core::{Desk, Pass, Unkept};
use journal_core::Keeper;
use lexer_core::{Code, ReadFault, Token, read_tokens};
use reader_core::{Statement, read_with};
use sending_core::Few;
use session_core::Witness;
use std::alloc::Global;
use std::sync::Wait;
use system_core::Reply;
use utility_core::{Command, command_of, is_version_question, underscored_name};

/// What comes of a line.
#[derive(Drop)]
pub enum Asked {
    /// It is this command beside the language.
    Command(Command),
    /// It says no statement: this is its one fault, at this byte.
    Faulty {
        code: Code,
        offset: usize,
    },
    /// There was no memory to read it.
    Unread,
    /// It was not asked, for this reason.
    Barred(Bar),
    /// The desk has answered its statement, of this kind, so. These are the columns of its rows, if they
    /// were wanted and it is a SELECT that is not denied.
    Told {
        tag: Tag,
        reply: Reply,
        columns: Option<Few<Column>>,
    },
    /// The desk withholds the reply, which is that to a change.
    Withheld,
}

/// The command that a line is, if it is one.
pub(crate) fn command_told(
    tokens: &mut Vec<Token>,
    line: &[u8],
) -> Result<Option<Command>, NoMemory>
    ensures { IfOk result
        (λ told. MatchOption told (IsNoCommand line.now) (IsCommand line.now)) }
{
    if is_version_question(line) {
        return Ok(Some(Command::Version));
    }
    if let Some(_) = underscored_name(line) {
        return Ok(Some(Command::DeallocateUnderscored));
    }
    match read_tokens(tokens, line) {
        Ok(()) => Ok(command_of(line, tokens.as_slice())),
        Err(ReadFault::At { .. }) => Ok(None),
        Err(ReadFault::NoMemory) => Err(NoMemory),
    }
}

/// Has the desk answer a statement, in a turn of the pass.
fn say<K: Keeper + Drop, R: Wait, G: Witness>(
    rt: &R,
    desk: &Desk<K>,
    pass: &mut Pass<K>,
    user: User,
    statement: Statement,
    columns: Option<Few<Column>>,
    gate: &G,
) -> Asked
    requires pass { pass.old.lock ≡ Some desk.now }
    requires spelled { (line : List ℕ) × Spells line statement }
    ensures says { AsksStatement desk.now user statement columns pass.old result pass.new }
    ensures gained { Gains user pass.old pass.new }
{
    let tag = Tag::of(&statement);
    match desk.execute(rt, pass, user, statement) {
        Ok(reply) => {
            gate.replied(&user, &reply);
            Asked::Told {
                tag,
                reply,
                columns,
            }
        }
        Err(Unkept) => Asked::Withheld,
    }
}

/// The same for a SELECT whose columns are wanted: first they are asked, in a turn of their own.
fn say_described<K: Keeper + Drop, R: Wait, G: Witness>(
    rt: &R,
    alloc: Global,
    desk: &Desk<K>,
    pass: &mut Pass<K>,
    user: User,
    line: &[u8],
    statement: Statement,
    tokens: &mut Vec<Token>,
    gate: &G,
) -> Asked
    requires pass { pass.old.lock ≡ Some desk.now }
    requires spelled { Spells line.now statement }
    ensures asks { (manner : Manner) → bar_of manner statement ≡ None
        → wants_described manner statement ≡ true
        → AsksLine desk.now user manner line.now pass.old result pass.new }
    ensures gained { Gains user pass.old pass.new }
{
    let columns = match desk.describe(rt, pass, user, statement) {
        Reply::Described { columns, .. } => columns,
        reply => {
            gate.replied(&user, &reply);
            return Asked::Told {
                tag: Tag::Select,
                reply,
                columns: None,
            };
        }
    };
    let Ok(statement) = read_with(alloc, tokens, line) else {
        return Asked::Unread;
    };
    let Ok(columns) = result_columns(alloc, &statement, columns) else {
        return Asked::Unread;
    };
    match Few::new(columns) {
        Some(columns) => say(rt, desk, pass, user, statement, Some(columns), gate),
        None => Asked::Unread,
    }
}

/// What a line comes to that says no statement.
fn unasked<G: Witness>(
    tokens: &mut Vec<Token>,
    line: &[u8],
    code: Code,
    offset: usize,
    manner: Manner,
    gate: &G,
) -> Asked
    requires { IsReadFault line.now code offset }
    ensures { Declines line.now manner result }
{
    match command_told(tokens, line) {
        Ok(Some(command)) if may_answer(manner.status, command) => Asked::Command(command),
        Ok(Some(_)) => Asked::Barred(Bar::FailedBlock),
        Ok(None) => {
            gate.faulty();
            Asked::Faulty { code, offset }
        }
        Err(NoMemory) => {
            gate.unread();
            Asked::Unread
        }
    }
}

/// One line of a user, asked at the desk through the pass, in this manner. The gate is told of it. What
/// the vector of tokens has before and behind the call means nothing.
pub fn ask<K: Keeper + Drop, R: Wait, G: Witness>(
    rt: &R,
    alloc: Global,
    desk: &Desk<K>,
    pass: &mut Pass<K>,
    user: User,
    line: &[u8],
    tokens: &mut Vec<Token>,
    manner: Manner,
    gate: &G,
) -> Asked
    requires pass { pass.old.lock ≡ Some desk.now }
    ensures asks { AsksLine desk.now user manner line.now pass.old result pass.new }
    ensures gained { Gains user pass.old pass.new }
{
    let statement = match read_with(alloc, tokens, line) {
        Ok(statement) => statement,
        Err(ReadFault::At { code, offset }) => {
            return unasked(tokens, line, code, offset, manner, gate);
        }
        Err(ReadFault::NoMemory) => {
            gate.unread();
            return Asked::Unread;
        }
    };
    gate.said(&statement);
    if let Some(bar) = bar_of(manner, &statement) {
        return Asked::Barred(bar);
    }
    if wants_described(manner, &statement) {
        return say_described(rt, alloc, desk, pass, user, line, statement, tokens, gate);
    }
    say(rt, desk, pass, user, statement, None, gate)
}
