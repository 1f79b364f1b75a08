//! What a client is told of the statement that was carried out.
ghost use Rattle.std.specs.Prelude.{◌≡◌, []};
ghost use Rattle.answer_core.specs.Tags.{tag_of, tag_text};

use reader_core::Statement;
use reply_core::ReplyBuffer;

/// The kind of a statement, as CommandComplete tells it.
#[derive(Clone, Copy)]
pub enum Tag {
    CreateTable,
    Insert,
    Update,
    Delete,
    Grant,
    Revoke,
    Checkpoint,
    /// A statement that rows answer: SELECT, CHECKPOINTS and EXPORT.
    Select,
}

impl Tag {
    /// The kind of this statement.
    pub fn of(statement: &Statement) -> Tag
        ensures { result ≡ tag_of statement.now }
    {
        match statement {
            Statement::CreateTable { .. } => Tag::CreateTable,
            Statement::Insert { .. } => Tag::Insert,
            Statement::Delete { .. } => Tag::Delete,
            Statement::Update { .. } => Tag::Update,
            Statement::Grant { .. } => Tag::Grant,
            Statement::Revoke { .. } | Statement::RevokeOption { .. } => Tag::Revoke,
            Statement::Checkpoint => Tag::Checkpoint,
            Statement::Select { .. } | Statement::Checkpoints | Statement::Export { .. } => {
                Tag::Select
            }
        }
    }

    /// Appends the text of the tag, with how many rows were sent. It takes no memory.
    pub(crate) fn push(self, buffer: &mut ReplyBuffer, count: u64)
        requires { buffer.old ≡ [] }
        ensures { buffer.new ≡ tag_text self count }
    {
        match self {
            Tag::CreateTable => buffer.push(b"CREATE TABLE"),
            Tag::Insert => buffer.push(b"INSERT 0 1"),
            Tag::Update => buffer.push(b"UPDATE"),
            Tag::Delete => buffer.push(b"DELETE"),
            Tag::Grant => buffer.push(b"GRANT"),
            Tag::Revoke => buffer.push(b"REVOKE"),
            Tag::Checkpoint => buffer.push(b"CHECKPOINT"),
            Tag::Select => {
                buffer.push(b"SELECT ");
                buffer.push_number(count);
            }
        }
    }
}
