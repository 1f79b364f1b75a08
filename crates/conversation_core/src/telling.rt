//! What a line that was asked is answered with.
ghost use Rattle.std.specs.Prelude.{◌≡◌, ◌<◌, ◌≤◌, ◌+◌, ◌++◌, ◌∷◌, [], true, not, if◌then◌else◌};
ghost use Rattle.std.specs.Option.{option_to_list};
ghost use Rattle.sending_core.specs.Queue.{capacity};
ghost use Rattle.sending_core.specs.declared.item.Item.TheVariants as items;
ghost use Rattle.sending_core.specs.declared.problem.Problem.TheVariants as problems;
ghost use Rattle.system_core.specs.Replies.{told_moment};
ghost use Rattle.conversation_core.specs.State.{Adds, ended, noted};
ghost use Rattle.conversation_core.specs.Telling.{AnswersAsked, bar_problem, column_items, fatal_error, is_error, plain, request_of};

use crate::conversation::Conversation;
use answer_core::{Formats, Request, Tag};
use asking_core::{Asked, Bar};
use base_core::Column;
use lexer_core::Token;
use messages_core::{Format, Severity};
use sending_core::{Few, Item, Plain, Problem};
use system_core::Reply;

/// How an answer is told: the formats of its columns, whether they are described first, how many rows are
/// told at most, if not all, and the place of the portal that keeps the others.
#[derive(Drop)]
pub struct Telling {
    pub formats: Formats,
    pub is_described: bool,
    pub most: Option<usize>,
    pub portal: Option<usize>,
}

/// The same formats again.
pub(crate) fn twin_of(formats: &Formats) -> Formats
    ensures { result ≡ formats.now }
{
    let mut twin = Formats::all(Format::Text, 0);
    for format in formats.as_slice() {
        twin.push(*format);
    }
    twin
}

/// What is asked for of a reply to a statement of this kind.
fn request_of(telling: &Telling, tag: Tag) -> Request
    ensures { result ≡ request_of telling.now tag }
{
    Request {
        tag,
        formats: twin_of(&telling.formats),
        most: telling.most,
    }
}

/// What bars a statement, as it is told.
fn bar_problem(bar: Bar) -> Problem
    ensures { result ≡ bar_problem bar }
{
    match bar {
        Bar::FailedBlock => Problem::FailedBlock,
        Bar::ChangeInBlock => Problem::ChangeInBlock,
        Bar::ChangeAmongSeveral => Problem::ChangeAmongSeveral,
    }
}

/// Whether a reply is told as an error.
fn is_error(reply: &Reply) -> bool
    ensures { result ≡ is_error reply.now }
{
    match reply {
        Reply::Denied { .. } | Reply::Refused { .. } => true,
        _ => false,
    }
}

/// What describes the rows of a reply before they come, where something does.
fn columns_told(telling: &Telling, reply: &Reply, columns: Option<Few<Column>>) -> Option<Item>
    ensures { option_to_list result ≡ column_items telling.now reply.now columns }
{
    let formats = twin_of(&telling.formats);
    match reply {
        Reply::Rows { .. } => match columns {
            Some(columns) => Some(Item::Plain(Plain::Columns { columns, formats })),
            None => None,
        },
        Reply::Listed { .. } if telling.is_described => {
            Some(Item::Plain(Plain::CheckpointColumns(formats)))
        }
        Reply::Export(_) if telling.is_described => {
            Some(Item::Plain(Plain::ExportColumns(formats)))
        }
        _ => None,
    }
}

impl Conversation {
    /// Has this sent behind all else, if it is there. There is room for it.
    fn add_some(&mut self, item: Option<Item>)
        requires { 0 < self.old.sending.room }
        ensures items { self.new.sending.items ≡ self.old.sending.items ++ option_to_list item }
        ensures room { self.old.sending.room ≤ self.new.sending.room + 1 }
        ensures capacity { capacity self.new.sending ≡ capacity self.old.sending }
        ensures state { self.new.state ≡ self.old.state }
    {
        if let Some(item) = item {
            self.add(item);
        }
    }

    /// Tells the reply to a statement of this kind. Whether it is no error.
    fn tell_reply(
        &mut self,
        telling: &Telling,
        tag: Tag,
        reply: Reply,
        columns: Option<Few<Column>>,
    ) -> bool
        requires { 2 ≤ self.old.sending.room }
        ensures items { self.new.sending.items ≡ self.old.sending.items
            ++ (column_items telling.now reply columns
            ++ items.Answer (request_of telling.now tag) reply telling.now.portal ∷ []) }
        ensures room { self.old.sending.room ≤ self.new.sending.room + 2 }
        ensures capacity { capacity self.new.sending ≡ capacity self.old.sending }
        ensures state { self.new.state ≡ noted (told_moment reply) self.old.state }
        ensures well { result ≡ not (is_error reply) }
    {
        let is_error = is_error(&reply);
        self.note(reply.moment());
        self.add_some(columns_told(telling, &reply, columns));
        let request = request_of(telling, tag);
        let portal = telling.portal;
        self.add(Item::Answer {
            request,
            reply,
            portal,
        });
        !is_error
    }

    /// Answers a line with this message alone, for which there is room.
    fn tell_alone(&mut self, message: Plain)
        requires { 0 < self.old.sending.room }
        ensures items { self.new.sending.items ≡ self.old.sending.items ++ plain message }
        ensures room { self.new.sending.room + 1 ≡ self.old.sending.room }
        ensures capacity { capacity self.new.sending ≡ capacity self.old.sending }
        ensures state { self.new.state ≡ noted None self.old.state }
    {
        self.note(None);
        self.add(Item::Plain(message));
    }

    /// Tells that the reply to a change is withheld, for which there is room. That ends the session.
    fn withhold(&mut self)
        requires { 0 < self.old.sending.room }
        ensures items { self.new.sending.items
            ≡ self.old.sending.items ++ fatal_error problems.Journal }
        ensures room { self.new.sending.room + 1 ≡ self.old.sending.room }
        ensures capacity { capacity self.new.sending ≡ capacity self.old.sending }
        ensures state { self.new.state ≡ record (ended self.old.state) { unkept = true } }
    {
        self.add(Item::Plain(Plain::Error {
            severity: Severity::Fatal,
            problem: Problem::Journal,
        }));
        self.close();
        self.is_unkept = true;
    }

    /// Answers a line by what came of asking it: `place` is the character at which clients show its fault, if
    /// it has one. Whether it went well. What the vector of tokens has before and behind the call means
    /// nothing.
    pub(crate) fn tell_asked(
        &mut self,
        tokens: &mut Vec<Token>,
        telling: Telling,
        line: &[u8],
        place: Option<u32>,
        asked: Asked,
    ) -> bool
        requires room { (if telling.is_described then 3 else 2) ≤ self.old.sending.room }
        ensures adds { Adds self.old self.new (λ answer new.
            AnswersAsked telling line.now place self.old.state asked answer new result) }
        ensures room { self.old.sending.room ≤ self.new.sending.room + 3 }
    {
        match asked {
            Asked::Command(command) => {
                self.note(None);
                self.obey(tokens, &telling, line, command)
            }
            Asked::Faulty { code, offset } => {
                let position = place;
                self.tell_alone(Plain::Fault {
                    code,
                    offset,
                    position,
                });
                false
            }
            Asked::Unread => {
                self.tell_alone(Plain::Unread);
                false
            }
            Asked::Barred(bar) => {
                self.tell_alone(Plain::Error {
                    severity: Severity::Error,
                    problem: bar_problem(bar),
                });
                false
            }
            Asked::Told {
                tag,
                reply,
                columns,
            } => self.tell_reply(&telling, tag, reply, columns),
            Asked::Withheld => {
                self.note(None);
                self.withhold();
                false
            }
        }
    }
}
