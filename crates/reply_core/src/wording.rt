//! The texts of replies, lacks and faults.
ghost use Rattle.std.specs.Prelude.{◌≡◌, ◌≤◌, ◌+◌, ◌++◌, ◌∷◌, [], codes, decimal, length};
ghost use Rattle.export_core.specs.Record.{field_text};
ghost use Rattle.export_core.specs.Ticket.{header_line};
ghost use Rattle.reply_core.specs.Texts.{joined, kind_text, type_text, what_text, about_atom, not_given, stamped, lack_text, refusal_text, list_line, checkpoint_line, head_text, reply_text, fault_text};
ghost use Rattle.reply_core.specs.declared.buffer.TheConstants.{REPLY_BYTES};
ghost use Rattle.reply_core.specs.declared.wording.TheConstants.{KIND_BYTES, ABOUT_ATOM_BYTES, NOT_GIVEN_BYTES, NO_SELECT_BYTES, LACK_BYTES};

use crate::buffer::ReplyBuffer;
use base_core::{Atom, ColType, Kind, Lack, Moment, Name, User, What};
use export_core::Ticket;
use lexer_core::Code;
use system_core::{Checkpoint, Reply};

/// The most bytes of a privilege: `UPDATE(`, a name and `)`.
const KIND_BYTES: usize = 38;

/// The most bytes of a user, a privilege and its table, without what is said of them.
const ABOUT_ATOM_BYTES: usize = 102;

/// The most bytes of a user, a privilege, its table, and another user, without what is said of
/// them.
const NOT_GIVEN_BYTES: usize = 136;

/// The most bytes of a user, SELECT and a table, without what is said of them.
const NO_SELECT_BYTES: usize = 71;

/// The most bytes of what is missing: it names two users, a privilege and its table.
const LACK_BYTES: usize = 159;

fn type_text(ty: ColType) -> &'static [u8]
    ensures text { result.now ≡ type_text ty }
    ensures short { length result.now ≤ 7 }
{
    match ty {
        ColType::Integer => b"INTEGER",
        ColType::Text => b"TEXT",
    }
}

fn what_text(what: What) -> &'static [u8]
    ensures text { result.now ≡ what_text what }
    ensures short { length result.now ≤ 11 }
{
    match what {
        What::Changes => b"changes",
        What::Tables => b"tables",
        What::Grants => b"grants",
        What::Checkpoints => b"checkpoints",
    }
}

fn push_kind(text: &mut ReplyBuffer, kind: &Kind)
    requires { length text.old + KIND_BYTES ≤ REPLY_BYTES }
    ensures text { text.new ≡ text.old ++ kind_text kind.now }
    ensures short { length text.new ≤ length text.old + KIND_BYTES }
{
    match kind {
        Kind::Select(column) => push_name_in(text, b"SELECT(", column, b")"),
        Kind::Insert => text.push(b"INSERT"),
        Kind::Delete => text.push(b"DELETE"),
        Kind::Update(column) => push_name_in(text, b"UPDATE(", column, b")"),
    }
}

/// A name between two texts.
fn push_name_in(text: &mut ReplyBuffer, before: &[u8], name: &Name, behind: &[u8])
    requires { length text.old + length before.now + 30 + length behind.now ≤ REPLY_BYTES }
    ensures text { text.new ≡ text.old ++ joined (before.now ∷ name.now ∷ behind.now ∷ []) }
    ensures short { length text.new ≤ length text.old + length before.now + 30 + length behind.now }
{
    text.push(before);
    text.push_name(name);
    text.push(behind);
}

/// A number between two texts.
fn push_number_in(text: &mut ReplyBuffer, before: &[u8], number: u64, behind: &[u8])
    requires { length text.old + length before.now + 20 + length behind.now ≤ REPLY_BYTES }
    ensures text { text.new
        ≡ text.old ++ joined (before.now ∷ decimal number ∷ behind.now ∷ []) }
    ensures short { length text.new ≤ length text.old + length before.now + 20 + length behind.now }
{
    text.push(before);
    text.push_number(number);
    text.push(behind);
}

/// A number as a field of a record, between two texts.
fn push_field_in(text: &mut ReplyBuffer, before: &[u8], number: u64, behind: &[u8])
    requires { length text.old + length before.now + 20 + length behind.now ≤ REPLY_BYTES }
    ensures text { text.new
        ≡ text.old ++ joined (before.now ∷ field_text (decimal number) ∷ behind.now ∷ []) }
    ensures short { length text.new ≤ length text.old + length before.now + 20 + length behind.now }
{
    push_number_in(text, before, number, behind);
}

/// A user, what is said of him, a privilege, and its table.
fn push_about_atom(text: &mut ReplyBuffer, user: &User, said: &[u8], atom: &Atom)
    requires { length text.old + length said.now + ABOUT_ATOM_BYTES ≤ REPLY_BYTES }
    ensures text { text.new ≡ text.old ++ about_atom user.now said.now atom.now }
    ensures short { length text.new ≤ length text.old + length said.now + ABOUT_ATOM_BYTES }
{
    text.push_name(&user.0);
    text.push(said);
    push_kind(text, &atom.kind);
    text.push(b" on ");
    text.push_name(&atom.table);
}

/// A user, what is said of him, and the table that he may not select.
fn push_no_select(text: &mut ReplyBuffer, user: &User, said: &[u8], table: &Name)
    requires { length text.old + length said.now + NO_SELECT_BYTES ≤ REPLY_BYTES }
    ensures text { text.new ≡ text.old
        ++ joined (user.now.0 ∷ said.now ∷ codes " SELECT on " ∷ table.now ∷ []) }
    ensures short { length text.new ≤ length text.old + length said.now + NO_SELECT_BYTES }
{
    text.push_name(&user.0);
    text.push(said);
    text.push(b" SELECT on ");
    text.push_name(table);
}

fn push_no_column(text: &mut ReplyBuffer, table: &Name, column: &Name)
    requires { length text.old + LACK_BYTES ≤ REPLY_BYTES }
    ensures text { text.new ≡ text.old ++ lack_text (Lack.NoColumn table.now column.now) }
    ensures short { length text.new ≤ length text.old + LACK_BYTES }
{
    push_name_in(text, b"no column ", column, b" in ");
    text.push_name(table);
}

/// A user, what he has not granted, a privilege and its table, and to whom.
fn push_not_given(text: &mut ReplyBuffer, by: &User, said: &[u8], to: &User, atom: &Atom)
    requires { length text.old + length said.now + NOT_GIVEN_BYTES ≤ REPLY_BYTES }
    ensures text { text.new ≡ text.old ++ not_given by.now said.now to.now atom.now }
    ensures short { length text.new ≤ length text.old + length said.now + NOT_GIVEN_BYTES }
{
    push_about_atom(text, by, said, atom);
    text.push(b" to ");
    text.push_name(&to.0);
}

fn push_no_table_then(text: &mut ReplyBuffer, table: &Name, number: u64)
    requires { length text.old + LACK_BYTES ≤ REPLY_BYTES }
    ensures text { text.new ≡ text.old ++ lack_text (Lack.NoTableThen table.now number) }
    ensures short { length text.new ≤ length text.old + LACK_BYTES }
{
    push_name_in(text, b"no table ", table, b" at checkpoint ");
    text.push_number(number);
}

fn push_wrong_count(text: &mut ReplyBuffer, given: usize, wanted: usize)
    requires { length text.old + LACK_BYTES ≤ REPLY_BYTES }
    ensures text { text.new ≡ text.old ++ lack_text (Lack.WrongCount given wanted) }
    ensures short { length text.new ≤ length text.old + LACK_BYTES }
{
    text.push_number(given as u64);
    push_number_in(text, b" values for ", wanted as u64, b" columns");
}

fn push_wrong_type(text: &mut ReplyBuffer, column: &Name, wanted: ColType)
    requires { length text.old + LACK_BYTES ≤ REPLY_BYTES }
    ensures text { text.new ≡ text.old ++ lack_text (Lack.WrongType column.now wanted) }
    ensures short { length text.new ≤ length text.old + LACK_BYTES }
{
    push_name_in(text, b"column ", column, b" takes ");
    text.push(type_text(wanted));
}

fn push_full(text: &mut ReplyBuffer, what: What)
    requires { length text.old + LACK_BYTES ≤ REPLY_BYTES }
    ensures text { text.new ≡ text.old ++ lack_text (Lack.Full what) }
    ensures short { length text.new ≤ length text.old + LACK_BYTES }
{
    text.push(b"full: ");
    text.push(what_text(what));
}

/// Appends what is missing, without the moment.
fn push_lack(text: &mut ReplyBuffer, lack: &Lack)
    requires { length text.old + LACK_BYTES ≤ REPLY_BYTES }
    ensures text { text.new ≡ text.old ++ lack_text lack.now }
    ensures short { length text.new ≤ length text.old + LACK_BYTES }
{
    match lack {
        Lack::NoTable(table) => push_name_in(text, b"no table ", table, b""),
        Lack::TableExists(table) => push_name_in(text, b"table ", table, b" exists"),
        Lack::NoColumn { table, column } => push_no_column(text, table, column),
        Lack::NoPrivilege { user, atom } => push_about_atom(text, user, b" lacks ", atom),
        Lack::NoGrantOption { user, atom } => push_about_atom(text, user, b" may not grant ", atom),
        Lack::NoGrant { by, to, atom } => push_not_given(text, by, b" granted no ", to, atom),
        Lack::NoCheckpoint(number) => push_number_in(text, b"no checkpoint ", *number, b""),
        Lack::NoTableThen { table, number } => push_no_table_then(text, table, *number),
        Lack::NoSelectThen { user, table } => push_no_select(text, user, b" lacked", table),
        Lack::NoSelectNow { user, table } => push_no_select(text, user, b" now lacks", table),
        Lack::WrongCount { given, wanted } => push_wrong_count(text, *given, *wanted),
        Lack::WrongType { column, wanted } => push_wrong_type(text, column, *wanted),
        Lack::Full(what) => push_full(text, *what),
        Lack::Busy => text.push(b"busy"),
        Lack::NoMemory => text.push(b"no memory"),
        Lack::Worn => text.push(b"worn"),
        Lack::NoOptionGiven { by, to, atom } => {
            push_not_given(text, by, b" granted no option for ", to, atom)
        }
    }
}

/// A word, the moment, and what is missing.
fn push_stamped(text: &mut ReplyBuffer, word: &[u8], at: Moment, lack: &Lack)
    requires { length text.old + length word.now + LACK_BYTES + 23 ≤ REPLY_BYTES }
    ensures { text.new ≡ text.old ++ stamped word.now at.0 lack.now }
{
    push_number_in(text, word, at.0, b": ");
    push_lack(text, lack);
    text.push(b"\n");
}

fn push_refusal(text: &mut ReplyBuffer, at: Moment, lack: &Lack)
    requires { length text.old + 191 ≤ REPLY_BYTES }
    ensures { text.new ≡ text.old ++ refusal_text at.0 lack.now }
{
    if let Lack::Worn = lack {
        text.push(b"refused: worn\n");
        return;
    }
    push_stamped(text, b"refused @", at, lack);
}

fn push_begun(text: &mut ReplyBuffer, number: u64, at: Moment)
    requires { length text.old + 60 ≤ REPLY_BYTES }
    ensures { text.new ≡ text.old ++ reply_text (Reply.Begun number at) }
{
    push_number_in(text, b"checkpoint ", number, b" begun @");
    push_number_in(text, b"", at.0, b"\n");
}

fn push_header(text: &mut ReplyBuffer, ticket: &Ticket)
    requires { length text.old + 77 ≤ REPLY_BYTES }
    ensures { text.new ≡ text.old ++ header_line ticket.now }
{
    push_number_in(text, b"export ", ticket.number(), b" point ");
    push_number_in(text, b"", ticket.point().0, b" @");
    push_number_in(text, b"", ticket.at().0, b"\n");
}

/// Appends the text of a change that made this moment, `done @m`.
#[inline(always)]
pub fn push_done(text: &mut ReplyBuffer, at: Moment)
    requires { text.old ≡ [] }
    ensures { text.new ≡ reply_text (Reply.Done at) }
{
    text.push(b"done @");
    text.push_number(at.0);
    text.push(b"\n");
}

/// Appends the first line of a list: a word, how many records come, and the moment.
fn push_list(text: &mut ReplyBuffer, word: &[u8], count: usize, at: Moment)
    requires { length text.old + length word.now + 43 ≤ REPLY_BYTES }
    ensures { text.new ≡ text.old ++ list_line word.now count at.0 }
{
    push_number_in(text, word, count as u64, b" @");
    push_number_in(text, b"", at.0, b"\n");
}

/// Appends the first line of a reply, which is all of it but for the records of a list and of an
/// export: `done @m`; `rows N @m` or `checkpoints N @m`, with how many records come;
/// `checkpoint n begun @m` or `checkpoint n abandoned`; `export n point p @m`; `denied @m:` or
/// `refused @m:` and what is missing; nothing for the other replies of the checkpointer, nor for a
/// description.
pub fn push_head(text: &mut ReplyBuffer, reply: &Reply)
    requires { text.old ≡ [] }
    ensures { text.new ≡ head_text reply.now }
{
    match reply {
        Reply::Done { at } => push_done(text, *at),
        Reply::Rows { at, rows } => push_list(text, b"rows ", rows.len(), *at),
        Reply::Listed { at, entries } => push_list(text, b"checkpoints ", entries.len(), *at),
        Reply::Begun { number, at } => push_begun(text, *number, *at),
        Reply::Export(ticket) => push_header(text, ticket),
        Reply::Denied { at, lack } => push_stamped(text, b"denied @", *at, lack),
        Reply::Refused { at, lack } => push_refusal(text, *at, lack),
        Reply::Abandoned { number } => {
            push_number_in(text, b"checkpoint ", *number, b" abandoned\n")
        }
        Reply::Idle | Reply::Stepped { .. } | Reply::Finished { .. } | Reply::Described { .. } => {}
    }
}

/// Appends the line of a checkpoint, as it is listed: `finished,n,p` or `active,n,p,left`.
pub fn push_checkpoint(text: &mut ReplyBuffer, checkpoint: &Checkpoint)
    requires { text.old ≡ [] }
    ensures { text.new ≡ checkpoint_line checkpoint.now }
{
    match checkpoint {
        Checkpoint::Kept { number, point } => {
            push_field_in(text, b"finished,", *number, b",");
            push_field_in(text, b"", point.0, b"\n");
        }
        Checkpoint::Active {
            number,
            point,
            left,
        } => {
            push_field_in(text, b"active,", *number, b",");
            push_field_in(text, b"", point.0, b",");
            push_field_in(text, b"", *left, b"\n");
        }
    }
}

/// Appends the text of a fault at this byte of its line, with its line feed. It takes no memory.
pub fn push_fault(text: &mut ReplyBuffer, code: Code, offset: usize)
    requires { text.old ≡ [] }
    ensures { text.new ≡ fault_text code offset }
{
    push_number_in(text, b"error ", code.number() as u64, b" at ");
    push_number_in(text, b"", offset as u64, b": ");
    text.push(code.text().as_bytes());
    text.push(b"\n");
}
