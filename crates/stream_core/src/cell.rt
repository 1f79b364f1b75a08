//! What stands in the records of a stream.
ghost use Rattle.std.specs.Prelude.{◌≡◌, ◌++◌, ◌∷◌, decimal, OnOk};
ghost use Rattle.export_core.specs.Record.{IsBegun, IsPlain, comma, field_text, text_in};
ghost use Rattle.stream_core.specs.Cells.{cell_bytes};
ghost use Rattle.stream_core.specs.Lines.{column_text, option_text, privilege_text, column_type_text, effect_word};

use crate::effect::Effect;
use base_core::{ColType, Kind, Name, NoMemory};
use csv::Writer;
use export_core::record::{Field, put_field};
use itoa::Buffer;

/// What stands in a record as a field, but for values.
#[derive(Clone, Copy)]
pub enum Cell {
    Name(Name),
    Number(u64),
    TypeOf(ColType),
    /// What a privilege allows, without its column.
    Privilege(Kind),
    /// The column of a privilege, or nothing.
    ColumnOf(Kind),
    Flag(bool),
}

fn column_type_text(ty: ColType) -> &'static [u8]
    ensures text { result.now ≡ column_type_text ty }
    ensures plain { IsPlain result.now }
{
    match ty {
        ColType::Integer => b"INTEGER",
        ColType::Text => b"TEXT",
    }
}

fn privilege_text(kind: Kind) -> &'static [u8]
    ensures text { result.now ≡ privilege_text kind }
    ensures plain { IsPlain result.now }
{
    match kind {
        Kind::Select(_) => b"SELECT",
        Kind::Insert => b"INSERT",
        Kind::Delete => b"DELETE",
        Kind::Update(_) => b"UPDATE",
    }
}

fn option_text(flag: bool) -> &'static [u8]
    ensures text { result.now ≡ option_text flag }
    ensures plain { IsPlain result.now }
{
    if flag { b"yes" } else { b"no" }
}

/// What an effect is called.
pub fn effect_word(effect: &Effect) -> &'static [u8]
    ensures text { result.now ≡ effect_word effect.now }
    ensures plain { IsPlain result.now }
{
    match effect {
        Effect::TableMade { .. } => b"created",
        Effect::RowInserted { .. } => b"inserted",
        Effect::RowUpdated { .. } => b"updated",
        Effect::RowDeleted { .. } => b"deleted",
        Effect::GrantMade(_) => b"granted",
        Effect::OptionLost { .. } => b"option lost",
        Effect::GrantFell { .. } => b"fell",
    }
}

fn put_number(writer: &mut Writer<Vec<u8>>, number: u64) -> Result<(), NoMemory>
    requires { IsBegun writer.old }
    ensures text { OnOk result (text_in writer.new
        ≡ text_in writer.old ++ comma ∷ field_text (decimal number)) }
    ensures begun { OnOk result (IsBegun writer.new) }
{
    let mut digits = Buffer::new();
    put_field(writer, digits.format(number).as_bytes())
}

/// The column of a privilege. INSERT and DELETE have none.
fn put_column(writer: &mut Writer<Vec<u8>>, kind: &Kind) -> Result<(), NoMemory>
    requires { IsBegun writer.old }
    ensures text { OnOk result (text_in writer.new
        ≡ text_in writer.old ++ comma ∷ field_text (column_text kind.now)) }
    ensures begun { OnOk result (IsBegun writer.new) }
{
    match kind {
        Kind::Select(column) | Kind::Update(column) => column.put(writer),
        Kind::Insert | Kind::Delete => put_field(writer, b""),
    }
}

impl Field for Cell {
    ghost bytes = { cell_bytes };

    fn put(&self, writer: &mut Writer<Vec<u8>>) -> Result<(), NoMemory> {
        match self {
            Cell::Name(name) => name.put(writer),
            Cell::Number(number) => put_number(writer, *number),
            Cell::TypeOf(ty) => put_field(writer, column_type_text(*ty)),
            Cell::Privilege(kind) => put_field(writer, privilege_text(*kind)),
            Cell::ColumnOf(kind) => put_column(writer, kind),
            Cell::Flag(flag) => put_field(writer, option_text(*flag)),
        }
    }
}
