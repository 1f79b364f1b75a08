//! Parse: a statement is prepared, and kept by its name.
ghost use Rattle.std.specs.Prelude.{◌≡◌, ◌<◌, ◌^◌, ℕ, List, [], Some, length, OnErr, OnOk};
ghost use Rattle.preparing_core.specs.Preparing.{SaysOne};
ghost use Rattle.session_core.specs.Gains.{Watches};
ghost use Rattle.conversation_core.specs.Extending.{AnswersParse, IsPreparePlace};
ghost use Rattle.conversation_core.specs.State.{Adds, with_statement};
ghost use Rattle.conversation_core.specs.Telling.{IsFaultPlace};

use crate::conversation::Conversation;
use crate::lent::Lent;
use crate::places::fault_place;
use crate::statements::keep_statement;
use base_core::{Sequence, User};
use desk_core::Pass;
use journal_core::Keeper;
use lexer_core::Token;
use messages_core::Parse;
use parameters_core::first_statement;
use preparing_core::{PrepareFault, Prepared, prepare};
use sending_core::{Plain, Problem};
use std::alloc::{AllocError, Global};
use std::sync::Wait;

/// The character at which clients show a fault at this byte of the line of the statement that a text says.
fn place_in(text: &[u8], offset: usize) -> Option<u32>
    requires { length text.now < 2 ^ 31 }
    ensures { (statement : List ℕ) → SaysOne text.now statement
        → IsFaultPlace text.now 0 statement offset result }
{
    let (statement, _) = first_statement(text);
    fault_place(text, 0, statement, offset)
}

/// The place of a fault in the text of a statement that is not prepared.
fn prepare_place(text: &[u8], fault: &PrepareFault) -> Option<u32>
    requires { length text.now < 2 ^ 31 }
    ensures { IsPreparePlace text.now fault.now result }
{
    match fault {
        PrepareFault::Faulty { offset, .. } => place_in(text, *offset),
        _ => None,
    }
}

impl Conversation {
    /// Keeps a prepared statement by this name, in place of what was prepared by it before. `AllocError` where
    /// memory was refused: then all is as before.
    fn keep_prepared(
        &mut self,
        alloc: Global,
        name: &[u8],
        made: Prepared,
    ) -> Result<(), AllocError>
        ensures ok { OnOk result (self.new.state ≡ record (self.old.state) {
          statements = with_statement name.now made self.old.state.statements;
        }) }
        ensures err { OnErr result (self.new.state ≡ self.old.state) }
        ensures sending { self.new.sending ≡ self.old.sending }
    {
        let name = Vec::from_slice(alloc, name)?;
        keep_statement(&mut self.statements, Sequence::from_vec(name), made)
    }

    /// Answers a Parse, through the pass: nothing is changed. What the vector of tokens has before and behind
    /// the call means nothing.
    pub(crate) fn parse<K: Keeper + Drop, R: Wait, G>(
        &mut self,
        lent: &Lent<'_, K, R, G>,
        pass: &mut Pass<K>,
        tokens: &mut Vec<Token>,
        user: User,
        parse: &Parse<'_>,
    )
        requires pass { pass.old.lock ≡ Some lent.now.desk.now }
        requires free { self.old.sending.items ≡ [] }
        requires short { length parse.now.text < 2 ^ 31 }
        ensures adds { Adds self.old self.new (λ answer new. AnswersParse lent.now.desk.now user
            parse.now self.old.state pass.old answer new pass.new) }
        ensures watched { Watches pass.old pass.new }
    {
        let name = parse.name.as_slice();
        if let Some(problem) = self.statement_fault(name) {
            return self.refuse(problem);
        }
        let text = parse.text.as_slice();
        let prepared = prepare(
            lent.rt,
            lent.alloc,
            lent.desk,
            pass,
            user,
            text,
            &parse.types,
            tokens,
        );
        match prepared {
            Ok(made) => match self.keep_prepared(lent.alloc, name, made) {
                Ok(()) => self.send(Plain::ParseComplete),
                Err(AllocError) => self.refuse(Problem::NoMemory),
            },
            Err(fault) => {
                let place = prepare_place(text, &fault);
                self.refuse_by(fault, place);
            }
        }
    }
}
