//! A Query: its statements, answered one after another.
ghost use Rattle.std.specs.Prelude.{◌≡◌, ◌≤◌, ◌<◌, ◌+◌, ◌*◌, ◌^◌, ◌==◌, ◌++◌, [], ℕ, false, Some, IfOk, IfErr, length};
ghost use Rattle.parameters_core.specs.Statements.{is_empty_statement};
ghost use Rattle.parameters_core.specs.Filling.{IsFilled, IsFillFault};
ghost use Rattle.session_core.specs.Gains.{Gains};
ghost use Rattle.conversation_core.specs.State.{Adds, behind_error};
ghost use Rattle.conversation_core.specs.Telling.{error};
ghost use Rattle.conversation_core.specs.Querying.{AnswersFrom, AnswersQuery, AnswersStatement, HasStatements, query_telling, ready, said_count};
ghost use Rattle.sending_core.specs.Queue.{capacity};

use crate::conversation::Conversation;
use crate::lent::Lent;
use crate::places::asked_place;
use crate::telling::Telling;
use answer_core::Formats;
use asking_core::{Manner, ask};
use base_core::User;
use desk_core::Pass;
use journal_core::Keeper;
use lexer_core::Token;
use messages_core::{Format, Severity};
use parameters_core::{FillFault, fill, first_statement, is_empty_statement};
use preparing_core::fill_problem;
use reader_core::MAX_ITEMS;
use sending_core::{Item, Plain, Problem};
use session_core::Witness;
use std::alloc::Global;
use std::sync::Wait;

/// The statements that one Query may have.
pub const MOST_STATEMENTS: usize = 16;

/// The items that the answer to a statement has at most.
const MOST_ITEMS: usize = 3;

/// 1 for a statement that says something.
fn said_count(statement: &[u8]) -> usize
    ensures said { result ≡ said_count statement.now }
    ensures few { result ≤ 1 }
{
    if is_empty_statement(statement) { 0 } else { 1 }
}

/// How many statements of a text say something.
fn count_statements(text: &[u8]) -> usize
    requires { length text.now < 2 ^ 31 }
    ensures { HasStatements text.now result }
{
    let mut count = 0;
    let mut left = text;
    'statements: loop {
        let (statement, rest) = first_statement(left);
        count += said_count(statement);
        let Some(behind) = rest else {
            return count;
        };
        left = behind;
    }
}

/// How the statements of a Query are told: in texts, with all their rows.
fn query_telling() -> Telling
    ensures { result ≡ query_telling }
{
    Telling {
        formats: Formats::all(Format::Text, MAX_ITEMS),
        is_described: true,
        most: None,
        portal: None,
    }
}

/// The line that a statement without places is.
fn line_of(alloc: Global, statement: &[u8]) -> Result<Vec<u8>, FillFault>
    ensures filled { IfOk result (λ line. IsFilled statement.now [] line.items) }
    ensures faulty { IfErr result (IsFillFault statement.now []) }
{
    let mut line = Vec::new(alloc);
    fill(&mut line, statement, &[])?;
    Ok(line)
}

impl Conversation {
    /// Tells an error of a Query before any of its statements. At most one message may wait before it.
    fn refuse_query(&mut self, problem: Problem)
        requires { length self.old.sending.items < 2 }
        ensures items { self.new.sending.items ≡ self.old.sending.items ++ error problem }
        ensures capacity { capacity self.new.sending ≡ capacity self.old.sending }
        ensures least { 2 ≤ capacity self.new.sending }
        ensures state { self.new.state ≡ behind_error self.old.state }
    {
        self.send(Plain::Error {
            severity: Severity::Error,
            problem,
        });
        self.fail();
    }

    /// Tells that the session is ready, unless it is over. There is room for it.
    fn tell_ready(&mut self)
        requires { 0 < self.old.sending.room }
        ensures items { self.new.sending.items ≡ self.old.sending.items ++ ready self.old.state }
        ensures capacity { capacity self.new.sending ≡ capacity self.old.sending }
        ensures state { self.new.state ≡ self.old.state }
    {
        if !self.is_over() {
            let block = self.block;
            self.add(Item::Plain(Plain::Ready(block)));
        }
    }

    /// Answers a statement of a Query that says something and begins at the byte `start` of its text. Whether
    /// it went well.
    fn answer_said<K: Keeper + Drop, R: Wait, G: Witness>(
        &mut self,
        lent: &Lent<'_, K, R, G>,
        pass: &mut Pass<K>,
        tokens: &mut Vec<Token>,
        user: User,
        text: &[u8],
        is_alone: bool,
        start: usize,
        statement: &[u8],
    ) -> bool
        requires pass { pass.old.lock ≡ Some lent.now.desk.now }
        requires short { length text.now < 2 ^ 31 }
        requires within { start + length statement.now ≤ length text.now }
        requires says { is_empty_statement statement.now ≡ false }
        requires room { MOST_ITEMS ≤ self.old.sending.room }
        ensures adds { Adds self.old self.new (λ answer new. AnswersStatement lent.now.desk.now user
            text.now is_alone start statement.now self.old.state pass.old
            answer new pass.new result) }
        ensures gained { Gains user pass.old pass.new }
        ensures room { self.old.sending.room ≤ self.new.sending.room + MOST_ITEMS }
    {
        match line_of(lent.alloc, statement) {
            Ok(line) => {
                let line = line.as_slice();
                let status = self.block;
                let manner = Manner {
                    status,
                    is_alone,
                    wants_columns: true,
                };
                let asked = ask(
                    lent.rt, lent.alloc, lent.desk, pass, user, line, tokens, manner, lent.gate,
                );
                let place = asked_place(text, start, statement, &asked);
                self.tell_asked(tokens, query_telling(), line, place, asked)
            }
            Err(fault) => {
                self.tell(fill_problem(fault));
                false
            }
        }
    }

    /// The same of any statement: one that says nothing has no answer.
    fn answer_statement<K: Keeper + Drop, R: Wait, G: Witness>(
        &mut self,
        lent: &Lent<'_, K, R, G>,
        pass: &mut Pass<K>,
        tokens: &mut Vec<Token>,
        user: User,
        text: &[u8],
        is_alone: bool,
        start: usize,
        statement: &[u8],
    ) -> bool
        requires pass { pass.old.lock ≡ Some lent.now.desk.now }
        requires short { length text.now < 2 ^ 31 }
        requires within { start + length statement.now ≤ length text.now }
        requires room { MOST_ITEMS * said_count statement.now ≤ self.old.sending.room }
        ensures adds { Adds self.old self.new (λ answer new. AnswersStatement lent.now.desk.now user
            text.now is_alone start statement.now self.old.state pass.old
            answer new pass.new result) }
        ensures gained { Gains user pass.old pass.new }
        ensures room { self.old.sending.room
            ≤ self.new.sending.room + MOST_ITEMS * said_count statement.now }
    {
        if is_empty_statement(statement) {
            return true;
        }
        self.answer_said(lent, pass, tokens, user, text, is_alone, start, statement)
    }

    /// Answers the statements of a Query up to the first that does not go well. There is room for the items
    /// of all, and for one more.
    fn answer_statements<K: Keeper + Drop, R: Wait, G: Witness>(
        &mut self,
        lent: &Lent<'_, K, R, G>,
        pass: &mut Pass<K>,
        tokens: &mut Vec<Token>,
        user: &User,
        text: &[u8],
        is_alone: bool,
    )
        requires pass { pass.old.lock ≡ Some lent.now.desk.now }
        requires short { length text.now < 2 ^ 31 }
        requires room { (count : ℕ) × HasStatements text.now count
            × (MOST_ITEMS * count < self.old.sending.room) }
        ensures adds { Adds self.old self.new (λ answer new. AnswersFrom lent.now.desk.now user.now
            text.now is_alone 0 text.now self.old.state pass.old answer new pass.new) }
        ensures gained { Gains user.now pass.old pass.new }
        ensures room { 0 < self.new.sending.room }
    {
        let mut start = 0;
        let mut left = text;
        'statements: loop {
            let (statement, rest) = first_statement(left);
            if !self.answer_statement(lent, pass, tokens, *user, text, is_alone, start, statement) {
                self.fail();
                return;
            }
            let Some(behind) = rest else {
                return;
            };
            start += statement.len() + 1;
            left = behind;
        }
    }

    /// Answers a Query of this text, through the pass, where nothing is still to be sent: what is to be sent
    /// for it waits then. Statements that say something are answered one after another, up to the first error.
    /// What the vector of tokens has before and behind the call means nothing.
    pub(crate) fn query<K: Keeper + Drop, R: Wait, G: Witness>(
        &mut self,
        lent: &Lent<'_, K, R, G>,
        pass: &mut Pass<K>,
        tokens: &mut Vec<Token>,
        user: User,
        text: &[u8],
    )
        requires pass { pass.old.lock ≡ Some lent.now.desk.now }
        requires free { self.old.sending.items ≡ [] }
        requires short { length text.now < 2 ^ 31 }
        ensures adds { Adds self.old self.new (λ answer new. AnswersQuery lent.now.desk.now user
            text.now self.old.state pass.old answer new pass.new) }
        ensures gained { Gains user pass.old pass.new }
    {
        let count = count_statements(text);
        if count == 0 {
            self.send(Plain::EmptyQuery);
        } else if count > MOST_STATEMENTS {
            self.refuse_query(Problem::TooManyInQuery);
        } else if self.reserve(MOST_ITEMS * count + 1).is_err() {
            self.refuse_query(Problem::NoMemory);
        } else {
            self.answer_statements(lent, pass, tokens, &user, text, count == 1);
        }
        self.tell_ready();
    }
}
