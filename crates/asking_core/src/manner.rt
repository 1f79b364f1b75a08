//! How a statement is asked, and what may bar it.
ghost use Rattle.std.specs.Prelude.{◌≡◌};
ghost use Rattle.asking_core.specs.Manners.{bar_of, is_select, may_answer, wants_described};

use messages_core::Status;
use monitor_core::is_change;
use reader_core::Statement;
use utility_core::Command;

/// How a statement is asked.
#[derive(Clone, Copy)]
pub struct Manner {
    /// How the block of its session stands.
    pub status: Status,
    /// Whether its message says no other statement.
    pub is_alone: bool,
    /// Whether the columns of its rows are wanted.
    pub wants_columns: bool,
}

/// Why a statement is not asked.
#[derive(Clone, Copy, PartialEq, Eq)]
pub enum Bar {
    /// The block has failed: only its end is heard.
    FailedBlock,
    /// A change inside a block, which could not be rolled back.
    ChangeInBlock,
    /// A change among several statements of one message, which could not be rolled back with them.
    ChangeAmongSeveral,
}

/// What bars this statement, if anything does.
pub(crate) fn bar_of(manner: Manner, statement: &Statement) -> Option<Bar>
    ensures { result ≡ bar_of manner statement.now }
{
    let is_change = is_change(statement);
    match manner.status {
        Status::InFailedTransaction => Some(Bar::FailedBlock),
        Status::InTransaction if is_change => Some(Bar::ChangeInBlock),
        Status::Idle if is_change && !manner.is_alone => Some(Bar::ChangeAmongSeveral),
        _ => None,
    }
}

/// Whether a command is heard where the block stands so.
pub(crate) fn may_answer(status: Status, command: Command) -> bool
    ensures { result ≡ may_answer status command }
{
    match status {
        Status::InFailedTransaction => match command {
            Command::Commit | Command::Rollback => true,
            _ => false,
        },
        _ => true,
    }
}

fn is_select(statement: &Statement) -> bool
    ensures { result ≡ is_select statement.now }
{
    match statement {
        Statement::Select { .. } => true,
        _ => false,
    }
}

/// Whether the columns of the statement's rows are to be told with them.
pub(crate) fn wants_described(manner: Manner, statement: &Statement) -> bool
    ensures { result ≡ wants_described manner statement.now }
{
    manner.wants_columns && is_select(statement)
}
