//! Lines read as statements.
ghost use Rattle.std.specs.Prelude.{◌≡◌, ℕ, IfOk, IfErr, Ok, Err};
ghost use Rattle.lexer_core.specs.declared.fault.Code.{Code};
ghost use Rattle.reader_core.specs.declared.statement.Statement.{Statement as Said};
ghost use Rattle.reader_core.specs.Language.{Spells, IsReadFault, IsReadFaultOf, UnlessNoMemory};

use crate::parsing::reader::Reader;
use crate::statement::Statement;
use lexer_core::{Code, ReadFault, Token, read_tokens};
use std::alloc::Global;

fn parse(alloc: Global, tokens: &mut Vec<Token>, line: &[u8]) -> Result<Statement, ReadFault>
    ensures spelled { IfOk result (Spells line.now) }
    ensures faulty { IfErr result (IsReadFaultOf line.now) }
{
    read_tokens(tokens, line)?;
    if tokens.is_empty() {
        return Err(ReadFault::At {
            code: Code::Empty,
            offset: 0,
        });
    }
    let mut reader = Reader::new(line, tokens.as_slice());
    let statement = reader.body(alloc)?;
    reader.finish()?;
    Ok(statement)
}

/// Reads a line, without its line end, as a statement.
///
/// Ok exactly where the line spells a statement, with the one that it spells. Else the line's one
/// fault: its code, and where it stands, in bytes from the front of the line. `NoMemory` where a
/// request for memory was refused, and then nothing is known of the line.
///
/// The vector has room for the tokens, which is kept from line to line; what it has before and
/// behind the call means nothing.
pub fn read_with(
    alloc: Global,
    tokens: &mut Vec<Token>,
    line: &[u8],
) -> Result<Statement, ReadFault>
    ensures spelled { IfOk result (Spells line.now) }
    ensures faulty { IfErr result (IsReadFaultOf line.now) }

    // What is spelled is read, and what is wrong is named.
    ensures exact { (s : Said) → Spells line.now s → UnlessNoMemory result (Ok s) }
    ensures exact_fault { (code : Code) (offset : ℕ) → IsReadFault line.now code offset
        → UnlessNoMemory result (Err (ReadFault.At code offset)) }
{
    parse(alloc, tokens, line)
}

/// Reads a line with room of its own for the tokens, as [`read_with`] does.
pub fn read(alloc: Global, line: &[u8]) -> Result<Statement, ReadFault>
    ensures spelled { IfOk result (Spells line.now) }
    ensures faulty { IfErr result (IsReadFaultOf line.now) }
    ensures exact { (s : Said) → Spells line.now s → UnlessNoMemory result (Ok s) }
    ensures exact_fault { (code : Code) (offset : ℕ) → IsReadFault line.now code offset
        → UnlessNoMemory result (Err (ReadFault.At code offset)) }
{
    read_with(alloc, &mut Vec::new(alloc), line)
}
