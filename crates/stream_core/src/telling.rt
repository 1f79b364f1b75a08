//! The records of effects.
ghost use Rattle.std.specs.Prelude.{◌≡◌, ◌++◌, ◌∷◌, [], decimal, map, OnOk};
ghost use Rattle.std.specs.List.{flat_map};
ghost use Rattle.export_core.specs.Record.{IsBegun, IsBetween, field_text, more_text, text_in, value_field};
ghost use Rattle.stream_core.specs.Cells.{cell_bytes};
ghost use Rattle.stream_core.specs.Lines.{column_fields, effect_line, effect_lines, effect_fields, grant_fields, effect_word};

use crate::cell::{Cell, effect_word};
use crate::effect::Effect;
use base_core::{Column, Name, NoMemory, Row, User};
use csv::Writer;
use export_core::record::{begin, end, put_field, put_fields};
use grants_core::Grant;
use itoa::Buffer;

/// The fields of a grant.
fn grant_cells(grant: &Grant) -> [Cell; 7]
    ensures { map cell_bytes result ≡ grant_fields grant.now }
{
    [
        Cell::Number(grant.number),
        Cell::Name(grant.grantor.0),
        Cell::Name(grant.grantee.0),
        Cell::Name(grant.atom.table),
        Cell::Privilege(grant.atom.kind),
        Cell::ColumnOf(grant.atom.kind),
        Cell::Flag(grant.option),
    ]
}

/// Writes of each of the columns its name and its type.
fn put_columns(writer: &mut Writer<Vec<u8>>, columns: &[Column]) -> Result<(), NoMemory>
    requires { IsBegun writer.old }
    ensures text { OnOk result (text_in writer.new
        ≡ text_in writer.old ++ more_text (flat_map column_fields columns.now)) }
    ensures begun { OnOk result (IsBegun writer.new) }
{
    for column in columns {
        put_fields(writer, &[Cell::Name(column.name), Cell::TypeOf(column.ty)])?;
    }
    Ok(())
}

/// Writes a table, its owner and its columns.
fn put_table(
    writer: &mut Writer<Vec<u8>>,
    table: &Name,
    owner: &User,
    columns: &[Column],
) -> Result<(), NoMemory>
    requires { IsBegun writer.old }
    ensures text { OnOk result (text_in writer.new ≡ text_in writer.old
        ++ more_text (table.now ∷ owner.now.0 ∷ flat_map column_fields columns.now)) }
    ensures begun { OnOk result (IsBegun writer.new) }
{
    put_fields(writer, &[Cell::Name(*table), Cell::Name(owner.0)])?;
    put_columns(writer, columns)
}

/// Writes a row: its table, its number and its values.
fn put_row(
    writer: &mut Writer<Vec<u8>>,
    table: &Name,
    number: u64,
    row: &Row,
) -> Result<(), NoMemory>
    requires { IsBegun writer.old }
    ensures text { OnOk result (text_in writer.new ≡ text_in writer.old
        ++ more_text (table.now ∷ decimal number ∷ map value_field row.now.values)) }
    ensures begun { OnOk result (IsBegun writer.new) }
{
    put_fields(writer, &[Cell::Name(*table), Cell::Number(number)])?;
    put_fields(writer, row.values.as_slice())
}

/// Writes what stands behind the word.
fn put_rest(writer: &mut Writer<Vec<u8>>, effect: &Effect) -> Result<(), NoMemory>
    requires { IsBegun writer.old }
    ensures text { OnOk result (text_in writer.new
        ≡ text_in writer.old ++ more_text (effect_fields effect.now)) }
    ensures begun { OnOk result (IsBegun writer.new) }
{
    match effect {
        Effect::TableMade {
            table,
            owner,
            columns,
        } => put_table(writer, table, owner, columns.as_slice()),
        Effect::RowInserted { table, number, row } => put_row(writer, table, *number, row),
        Effect::RowUpdated { table, number, row } => put_row(writer, table, *number, row),
        Effect::RowDeleted { table, number } => {
            put_fields(writer, &[Cell::Name(*table), Cell::Number(*number)])
        }
        Effect::GrantMade(grant) => put_fields(writer, &grant_cells(grant)),
        Effect::OptionLost { number } => put_fields(writer, &[Cell::Number(*number)]),
        Effect::GrantFell { number } => put_fields(writer, &[Cell::Number(*number)]),
    }
}

/// Writes the first three fields: the moment, how many records follow in it, and the word.
fn put_head(
    writer: &mut Writer<Vec<u8>>,
    moment: u64,
    left: u64,
    effect: &Effect,
) -> Result<(), NoMemory>
    requires { IsBetween writer.old }
    ensures text { OnOk result (text_in writer.new ≡ text_in writer.old
        ++ field_text (decimal moment) ++ more_text (decimal left ∷ effect_word effect.now ∷ [])) }
    ensures begun { OnOk result (IsBegun writer.new) }
{
    let mut digits = Buffer::new();
    begin(writer, digits.format(moment).as_bytes())?;
    put_fields(writer, &[Cell::Number(left)])?;
    put_field(writer, effect_word(effect))
}

/// Writes the record of an effect of this moment, behind which so many follow.
fn put_effect(
    writer: &mut Writer<Vec<u8>>,
    moment: u64,
    left: u64,
    effect: &Effect,
) -> Result<(), NoMemory>
    requires { IsBetween writer.old }
    ensures text { OnOk result (text_in writer.new
        ≡ text_in writer.old ++ effect_line moment left effect.now) }
    ensures between { OnOk result (IsBetween writer.new) }
{
    put_head(writer, moment, left, effect)?;
    put_rest(writer, effect)?;
    end(writer)
}

/// Writes the records of the effects of one moment. `NoMemory` where a request for memory was refused.
pub fn put_effects(
    writer: &mut Writer<Vec<u8>>,
    moment: u64,
    effects: &[Effect],
) -> Result<(), NoMemory>
    requires { IsBetween writer.old }
    ensures text { OnOk result (text_in writer.new
        ≡ text_in writer.old ++ effect_lines moment effects.now) }
    ensures between { OnOk result (IsBetween writer.new) }
{
    let mut left = effects.len() as u64;
    for effect in effects {
        left -= 1;
        put_effect(writer, moment, left, effect)?;
    }
    Ok(())
}
