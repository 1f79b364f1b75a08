//! Describe: what rows a portal or a prepared statement answers.
ghost use Rattle.std.specs.Prelude.{◌≡◌, [], Some, IfOk};
ghost use Rattle.session_core.specs.Gains.{Watches};
ghost use Rattle.conversation_core.specs.Extending.{AnswersPortalDescribe, AnswersStatementDescribe, DescribesLineRows, DescribesPrepared, shape_message};
ghost use Rattle.conversation_core.specs.State.{Adds};

use crate::conversation::Conversation;
use crate::lent::Lent;
use crate::telling::twin_of;
use answer_core::Formats;
use base_core::{NoMemory, Sequence, User};
use desk_core::Pass;
use journal_core::Keeper;
use lexer_core::Token;
use messages_core::{Format, format_at};
use parameters_core::{fill_with_ones, is_empty_statement};
use preparing_core::{PrepareFault, Prepared, Shape, describe_rows, fill_problem};
use sending_core::{Few, Plain, Problem, answers_row};
use std::alloc::Global;
use std::sync::Wait;

/// What describes rows, in these formats.
fn shape_message(formats: Formats, shape: Shape) -> Plain
    ensures { result ≡ shape_message formats shape }
{
    match shape {
        Shape::Nothing => Plain::NoData,
        Shape::Rows(columns) => Plain::Columns { columns, formats },
        Shape::Checkpoints => Plain::CheckpointColumns(formats),
        Shape::Export => Plain::ExportColumns(formats),
        Shape::Command(command) if answers_row(command) => {
            Plain::CommandColumn(command, format_at(formats.as_slice(), 0))
        }
        Shape::Command(_) => Plain::NoData,
    }
}

/// What describes the rows of a line, in these formats, through the pass: nothing is changed. What the vector
/// of tokens has before and behind the call means nothing.
fn line_described<K: Keeper + Drop, R: Wait, G>(
    lent: &Lent<'_, K, R, G>,
    pass: &mut Pass<K>,
    tokens: &mut Vec<Token>,
    user: User,
    line: &[u8],
    formats: Formats,
) -> Result<Plain, PrepareFault>
    requires { pass.old.lock ≡ Some lent.now.desk.now }
    ensures describes { DescribesLineRows lent.now.desk.now user line.now formats pass.old
        result pass.new }
    ensures watched { Watches pass.old pass.new }
{
    if is_empty_statement(line) {
        return Ok(Plain::NoData);
    }
    match describe_rows(lent.rt, lent.alloc, lent.desk, pass, user, line, tokens) {
        Ok(shape) => Ok(shape_message(formats, shape)),
        Err(fault) => Err(fault),
    }
}

/// A copy of the numbers of types.
fn copied(alloc: Global, numbers: &[u32]) -> Result<Few<u32>, NoMemory>
    ensures { IfOk result (λ copy. copy ≡ numbers.now) }
{
    let copy = numbers.to_vec(alloc)?;
    Few::new(Sequence::from_vec(copy)).ok_or(NoMemory)
}

/// What describes a prepared statement, through the pass: nothing is changed. What the vector of tokens has
/// before and behind the call means nothing.
fn prepared_described<K: Keeper + Drop, R: Wait, G>(
    lent: &Lent<'_, K, R, G>,
    pass: &mut Pass<K>,
    tokens: &mut Vec<Token>,
    user: User,
    made: &Prepared,
) -> Result<(Few<u32>, Plain), PrepareFault>
    requires { pass.old.lock ≡ Some lent.now.desk.now }
    ensures describes { DescribesPrepared lent.now.desk.now user made.now pass.old
        result pass.new }
    ensures watched { Watches pass.old pass.new }
{
    let mut line = Vec::new(lent.alloc);
    if let Err(fault) = fill_with_ones(&mut line, made.text.as_slice()) {
        return Err(PrepareFault::Problem(fill_problem(fault)));
    }
    let Ok(types) = copied(lent.alloc, made.numbers.as_slice()) else {
        return Err(PrepareFault::Problem(Problem::NoMemory));
    };
    let formats = Formats::all(Format::Text, 0);
    match line_described(lent, pass, tokens, user, line.as_slice(), formats) {
        Ok(message) => Ok((types, message)),
        Err(fault) => Err(fault),
    }
}

impl Conversation {
    /// Answers a Describe of a portal, through the pass: nothing is changed. What the vector of tokens has
    /// before and behind the call means nothing.
    pub(crate) fn describe_portal<K: Keeper + Drop, R: Wait, G>(
        &mut self,
        lent: &Lent<'_, K, R, G>,
        pass: &mut Pass<K>,
        tokens: &mut Vec<Token>,
        user: User,
        name: &[u8],
    )
        requires pass { pass.old.lock ≡ Some lent.now.desk.now }
        requires free { self.old.sending.items ≡ [] }
        ensures adds { Adds self.old self.new (λ answer new. AnswersPortalDescribe
            lent.now.desk.now user name.now self.old.state pass.old answer new pass.new) }
        ensures watched { Watches pass.old pass.new }
    {
        let Some(portal) = self.portal(name) else {
            return self.refuse(Problem::NoPortal);
        };
        let formats = twin_of(&portal.formats);
        let line = portal.line.as_slice();
        match line_described(lent, pass, tokens, user, line, formats) {
            Ok(message) => self.send(message),
            Err(fault) => self.refuse_by(fault, None),
        }
    }

    /// Answers a Describe of a prepared statement, likewise.
    pub(crate) fn describe_statement<K: Keeper + Drop, R: Wait, G>(
        &mut self,
        lent: &Lent<'_, K, R, G>,
        pass: &mut Pass<K>,
        tokens: &mut Vec<Token>,
        user: User,
        name: &[u8],
    )
        requires pass { pass.old.lock ≡ Some lent.now.desk.now }
        requires free { self.old.sending.items ≡ [] }
        ensures adds { Adds self.old self.new (λ answer new. AnswersStatementDescribe
            lent.now.desk.now user name.now self.old.state pass.old answer new pass.new) }
        ensures watched { Watches pass.old pass.new }
    {
        let Some(made) = self.prepared(name) else {
            return self.refuse(Problem::NoStatement);
        };
        match prepared_described(lent, pass, tokens, user, &made.prepared) {
            Ok((types, message)) => {
                self.send(Plain::Types(types));
                self.send(message);
            }
            Err(fault) => self.refuse_by(fault, None),
        }
    }
}
