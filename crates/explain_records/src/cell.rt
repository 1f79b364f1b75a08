//! What stands in the records of rights.
ghost use Rattle.std.specs.Prelude.{◌≡◌, ◌<◌, ◌≤◌, ◌+◌, ◌++◌, ◌∷◌, [], length, decimal, OnOk};
ghost use Rattle.base_core.specs.Words.{IsName};
ghost use Rattle.reply_core.specs.Texts.{joined, kind_text};
ghost use Rattle.export_core.specs.Record.{IsBegun, IsPlain, comma, field_text, text_in};
ghost use Rattle.explain_records.specs.declared.cell.TheConstants.{KIND_BYTES};
ghost use Rattle.explain_records.specs.Cells.{cell_text, flag_text, word_text};
ghost use Rattle.explain_records.specs.Records.{any_text, any_moment_text};

use arrayvec::ArrayVec;
use base_core::{Kind, Moment, Name, NoMemory};
use csv::Writer;
use export_core::record::{Field, put_field};
use itoa::Buffer;

/// The most bytes of a kind: `UPDATE(`, a name and `)`.
const KIND_BYTES: usize = 38;

/// The words that records have.
#[derive(Clone, Copy)]
pub enum Word {
    Owner,
    Owns,
    Holds,
    Lacks,
    Revoked,
    Fell,
    OptionRevoked,
    Loses,
    Keeps,
    KeepsWithoutOption,
    Came,
    LostOption,
    Granted,
    Created,
    Privilege,
    OptionAlone,
}

/// What stands in a record as a field.
#[derive(Clone, Copy)]
pub enum Cell {
    Nothing,
    Name(Name),
    Kind(Kind),
    Flag(bool),
    Number(u64),
    Word(Word),
}

pub fn word_text(word: Word) -> &'static [u8]
    ensures text { result.now ≡ word_text word }
    ensures some { 0 < length result.now }
    ensures plain { IsPlain result.now }
{
    match word {
        Word::Owner => b"OWNER",
        Word::Owns => b"owns",
        Word::Holds => b"holds",
        Word::Lacks => b"lacks",
        Word::Revoked => b"revoked",
        Word::Fell => b"fell",
        Word::OptionRevoked => b"option revoked",
        Word::Loses => b"loses",
        Word::Keeps => b"keeps",
        Word::KeepsWithoutOption => b"keeps without option",
        Word::Came => b"came",
        Word::LostOption => b"lost option",
        Word::Granted => b"granted",
        Word::Created => b"created",
        Word::Privilege => b"privilege",
        Word::OptionAlone => b"option",
    }
}

fn flag_text(flag: bool) -> &'static [u8]
    ensures text { result.now ≡ flag_text flag }
    ensures plain { IsPlain result.now }
{
    if flag { b"yes" } else { b"no" }
}

/// A name between two parts.
fn name_in(before: &[u8], name: &Name, behind: &[u8]) -> ArrayVec<u8, KIND_BYTES>
    requires { length before.now + 30 + length behind.now ≤ KIND_BYTES }
    ensures text { result.items ≡ joined (before.now ∷ name.now ∷ behind.now ∷ []) }
    ensures name { IsName name.now }
{
    let mut text = ArrayVec::new();
    text.try_extend_from_slice(before).unwrap();
    text.try_extend_from_slice(name.as_bytes()).unwrap();
    text.try_extend_from_slice(behind).unwrap();
    text
}

/// A kind as replies name it: `SELECT(wage)`.
fn put_kind(writer: &mut Writer<Vec<u8>>, kind: &Kind) -> Result<(), NoMemory>
    requires { IsBegun writer.old }
    ensures text { OnOk result (text_in writer.new
        ≡ text_in writer.old ++ comma ∷ field_text (kind_text kind.now)) }
    ensures begun { OnOk result (IsBegun writer.new) }
{
    match kind {
        Kind::Select(column) => put_field(writer, name_in(b"SELECT(", column, b")").as_slice()),
        Kind::Insert => put_field(writer, b"INSERT"),
        Kind::Delete => put_field(writer, b"DELETE"),
        Kind::Update(column) => put_field(writer, name_in(b"UPDATE(", column, b")").as_slice()),
    }
}

fn put_number(writer: &mut Writer<Vec<u8>>, number: u64) -> Result<(), NoMemory>
    requires { IsBegun writer.old }
    ensures text { OnOk result (text_in writer.new
        ≡ text_in writer.old ++ comma ∷ field_text (decimal number)) }
    ensures begun { OnOk result (IsBegun writer.new) }
{
    let mut digits = Buffer::new();
    put_field(writer, digits.format(number).as_bytes())
}

impl Field for Cell {
    ghost bytes = { cell_text };

    fn put(&self, writer: &mut Writer<Vec<u8>>) -> Result<(), NoMemory> {
        match self {
            Cell::Nothing => put_field(writer, b""),
            Cell::Name(name) => name.put(writer),
            Cell::Kind(kind) => put_kind(writer, kind),
            Cell::Flag(flag) => put_field(writer, flag_text(*flag)),
            Cell::Number(number) => put_number(writer, *number),
            Cell::Word(word) => put_field(writer, word_text(*word)),
        }
    }
}

/// A number, or nothing.
pub fn any(number: Option<u64>) -> Cell
    ensures { cell_text result ≡ any_text number }
{
    match number {
        Some(number) => Cell::Number(number),
        None => Cell::Nothing,
    }
}

/// A moment, or nothing.
pub fn any_moment(at: Option<Moment>) -> Cell
    ensures { cell_text result ≡ any_moment_text at }
{
    match at {
        Some(at) => Cell::Number(at.0),
        None => Cell::Nothing,
    }
}
