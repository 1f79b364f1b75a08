//! The rows that a line answers.

use base_core::Column;
use sending_core::Few;
use utility_core::Command;

/// The rows that a line answers.
#[derive(Drop)]
pub enum Shape {
    /// None.
    Nothing,
    /// Rows of a table, with these columns.
    Rows(Few<Column>),
    /// The checkpoints that are kept.
    Checkpoints,
    /// The records of an export.
    Export,
    /// What a command beside the language answers.
    Command(Command),
}
