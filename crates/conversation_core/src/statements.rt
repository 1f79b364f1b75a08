//! The statements that a session has prepared.
ghost use Rattle.std.specs.Prelude.{◌≡◌, MatchOption, OnErr, OnOk};
ghost use Rattle.std.specs.Option.{option_copied};
ghost use Rattle.conversation_core.specs.Extending.{IsNameFault, IsNameFree};
ghost use Rattle.conversation_core.specs.State.{is_called, is_unnamed, statement_count, statement_named, with_statement, without_statement};

use crate::conversation::Conversation;
use base_core::Sequence;
use preparing_core::Prepared;
use sending_core::Problem;
use std::alloc::AllocError;

/// The named statements that a session may have prepared.
pub const MOST_PREPARED: usize = 1_024;

/// A prepared statement and its name, which is empty for the unnamed one.
#[derive(Drop)]
pub struct NamedStatement {
    pub name: Sequence<u8>,
    pub prepared: Prepared,
}

/// Whether a name is that of the unnamed statement, or of the unnamed portal.
pub(crate) fn is_unnamed(name: &[u8]) -> bool
    ensures { result ≡ is_unnamed name.now }
{
    match name {
        [] => true,
        _ => false,
    }
}

impl NamedStatement {
    /// Whether this is its name.
    pub(crate) fn is_called(&self, name: &[u8]) -> bool
        ensures { result ≡ is_called name.now self.now }
    {
        self.name.as_slice() == name
    }
}

/// What was prepared by this name.
fn statement_named<'a>(statements: &'a [NamedStatement], name: &[u8]) -> Option<&'a NamedStatement>
    ensures { option_copied result ≡ statement_named name.now statements.now }
{
    statements
        .iter()
        .find(|statement| statement.is_called(name))
}

/// How many were prepared by a name.
fn statement_count(statements: &[NamedStatement]) -> usize
    ensures { result ≡ statement_count statements.now }
{
    statements
        .iter()
        .filter(|statement| !is_unnamed(statement.name.as_slice()))
        .count()
}

/// Drops what was prepared by this name.
pub(crate) fn remove_statement(statements: &mut Vec<NamedStatement>, name: &[u8])
    ensures { statements.new.items ≡ without_statement name.now statements.old.items }
{
    statements.retain(|statement| !statement.is_called(name));
}

/// Keeps a statement by this name, in place of what was prepared by it before. `AllocError` where memory was
/// refused: then all is as before.
pub(crate) fn keep_statement(
    statements: &mut Vec<NamedStatement>,
    name: Sequence<u8>,
    prepared: Prepared,
) -> Result<(), AllocError>
    ensures ok { OnOk result
        (statements.new.items ≡ with_statement name prepared statements.old.items) }
    ensures err { OnErr result (statements.new.items ≡ statements.old.items) }
{
    statements.reserve(1)?;
    let called = name.as_slice();
    statements.retain(|statement| !statement.is_called(called));
    statements.push_reserved(NamedStatement { name, prepared });
    Ok(())
}

/// What stands in the way of a name for a statement.
fn name_fault(statements: &[NamedStatement], name: &[u8]) -> Option<Problem>
    ensures { MatchOption result (IsNameFree statements.now name.now)
        (IsNameFault statements.now name.now) }
{
    if is_unnamed(name) {
        return None;
    }
    if statement_named(statements, name).is_some() {
        return Some(Problem::StatementExists);
    }
    if statement_count(statements) >= MOST_PREPARED {
        return Some(Problem::TooManyStatements);
    }
    None
}

impl Conversation {
    /// What was prepared by this name.
    pub(crate) fn prepared(&self, name: &[u8]) -> Option<&NamedStatement>
        ensures { option_copied result ≡ statement_named name.now self.now.state.statements }
    {
        statement_named(self.statements.as_slice(), name)
    }

    /// What stands in the way of a name for a statement.
    pub(crate) fn statement_fault(&self, name: &[u8]) -> Option<Problem>
        ensures { MatchOption result (IsNameFree self.now.state.statements name.now)
            (IsNameFault self.now.state.statements name.now) }
    {
        name_fault(self.statements.as_slice(), name)
    }
}
