//! Whole statements.
ghost use Rattle.std.specs.Prelude.{◌≡◌, ◌∷◌, [], None, IfOk, OnOk, IfErr};
ghost use Rattle.reader_core.specs.Grammar.{End};
ghost use Rattle.reader_core.specs.Cursor.{Reads, fault_left, fault_of, left_says};
ghost use Rattle.reader_core.specs.Sentences.{create, insert, select, delete, update, grant, revoke, checkpoint, checkpoints, export, body, finish};
ghost use Rattle.reader_core.specs.Saying.{statement_says, IsFinished};
ghost use Rattle.reader_core.specs.Forming.{IsWellFormed};

use crate::parsing::list::list;
use crate::parsing::reader::Reader;
use crate::statement::Statement;
use base_core::{Column, Distinct, Keyword, SeveralValues, Value, ValuesBuilder};
use lexer_core::{Code, Mark, ReadFault};
use std::alloc::Global;

impl Reader<'_> {
    #[tactic(auto, using(crate::proofs::Exits::exit_is))]
    fn create(&mut self, alloc: Global) -> Result<Statement, ReadFault>
        ensures reads { Reads create statement_says result self.old self.new }
        ensures well_formed { IfOk result IsWellFormed }
    {
        self.keyword(Keyword::Create)?;
        self.keyword(Keyword::Table)?;
        let table = self.name()?;
        self.mark(Mark::Open)?;
        let items = list::<Column, Vec<Column>>(self, alloc)?;
        let columns = Distinct::from_vec(alloc, items)?;
        self.mark(Mark::Close)?;
        Ok(Statement::CreateTable { table, columns })
    }

    #[tactic(auto, using(crate::proofs::Exits::exit_is))]
    fn insert(&mut self, alloc: Global) -> Result<Statement, ReadFault>
        ensures reads { Reads insert statement_says result self.old self.new }
        ensures well_formed { IfOk result IsWellFormed }
    {
        self.keyword(Keyword::Insert)?;
        self.keyword(Keyword::Into)?;
        let table = self.name()?;
        self.keyword(Keyword::Values)?;
        self.mark(Mark::Open)?;
        let items = list::<Value, ValuesBuilder>(self, alloc)?;
        let values = SeveralValues::from_builder(items)?;
        self.mark(Mark::Close)?;
        Ok(Statement::Insert { table, values })
    }

    #[tactic(auto, using(crate::proofs::Exits::exit_is))]
    fn select(&mut self, alloc: Global) -> Result<Statement, ReadFault>
        ensures reads { Reads select statement_says result self.old self.new }
        ensures well_formed { IfOk result IsWellFormed }
    {
        self.keyword(Keyword::Select)?;
        let list = self.selection(alloc)?;
        self.keyword(Keyword::From)?;
        let table = self.name()?;
        let filter = self.filter(alloc)?;
        Ok(Statement::Select {
            list,
            table,
            filter,
        })
    }

    #[tactic(auto, using(crate::proofs::Exits::exit_is))]
    fn delete(&mut self, alloc: Global) -> Result<Statement, ReadFault>
        ensures reads { Reads delete statement_says result self.old self.new }
        ensures well_formed { IfOk result IsWellFormed }
    {
        self.keyword(Keyword::Delete)?;
        self.keyword(Keyword::From)?;
        let table = self.name()?;
        let filter = self.filter(alloc)?;
        Ok(Statement::Delete { table, filter })
    }

    #[tactic(auto, using(crate::proofs::Exits::exit_is))]
    fn update(&mut self, alloc: Global) -> Result<Statement, ReadFault>
        ensures reads { Reads update statement_says result self.old self.new }
        ensures well_formed { IfOk result IsWellFormed }
    {
        self.keyword(Keyword::Update)?;
        let table = self.name()?;
        self.keyword(Keyword::Set)?;
        let sets = self.sets(alloc)?;
        let filter = self.filter(alloc)?;
        Ok(Statement::Update {
            table,
            sets,
            filter,
        })
    }

    #[tactic(auto, using(crate::proofs::Exits::exit_is))]
    fn grant(&mut self, alloc: Global) -> Result<Statement, ReadFault>
        ensures reads { Reads grant statement_says result self.old self.new }
        ensures well_formed { IfOk result IsWellFormed }
    {
        self.keyword(Keyword::Grant)?;
        let privileges = self.privileges(alloc)?;
        self.keyword(Keyword::On)?;
        let table = self.name()?;
        self.keyword(Keyword::To)?;
        let users = self.users(alloc)?;
        let option = self.option()?;
        Ok(Statement::Grant {
            privileges,
            table,
            users,
            option,
        })
    }

    #[tactic(auto, using(crate::proofs::Exits::exit_is))]
    fn revoke(&mut self, alloc: Global) -> Result<Statement, ReadFault>
        ensures reads { Reads revoke statement_says result self.old self.new }
        ensures well_formed { IfOk result IsWellFormed }
    {
        self.keyword(Keyword::Revoke)?;
        let option_alone = self.option_for()?;
        let (privileges, table, users) = self.privileges_from(alloc)?;
        if option_alone {
            return Ok(Statement::RevokeOption {
                privileges,
                table,
                users,
            });
        }
        Ok(Statement::Revoke {
            privileges,
            table,
            users,
        })
    }

    #[tactic(auto, using(crate::proofs::Exits::exit_is))]
    fn checkpoint(&mut self) -> Result<Statement, ReadFault>
        ensures reads { Reads checkpoint statement_says result self.old self.new }
        ensures well_formed { IfOk result IsWellFormed }
    {
        self.keyword(Keyword::Checkpoint)?;
        Ok(Statement::Checkpoint)
    }

    #[tactic(auto, using(crate::proofs::Exits::exit_is))]
    fn checkpoints(&mut self) -> Result<Statement, ReadFault>
        ensures reads { Reads checkpoints statement_says result self.old self.new }
        ensures well_formed { IfOk result IsWellFormed }
    {
        self.keyword(Keyword::Checkpoints)?;
        Ok(Statement::Checkpoints)
    }

    #[tactic(auto, using(crate::proofs::Exits::exit_is))]
    fn export(&mut self) -> Result<Statement, ReadFault>
        ensures reads { Reads export statement_says result self.old self.new }
        ensures well_formed { IfOk result IsWellFormed }
    {
        self.keyword(Keyword::Export)?;
        let number = self.number()?;
        let only = self.only()?;
        Ok(Statement::Export { number, only })
    }

    /// A statement without its ";".
    pub fn body(&mut self, alloc: Global) -> Result<Statement, ReadFault>
        ensures reads { Reads body statement_says result self.old self.new }
        ensures well_formed { IfOk result IsWellFormed }
    {
        match self.peek_keyword()? {
            Keyword::Create => self.create(alloc),
            Keyword::Insert => self.insert(alloc),
            Keyword::Select => self.select(alloc),
            Keyword::Delete => self.delete(alloc),
            Keyword::Update => self.update(alloc),
            Keyword::Grant => self.grant(alloc),
            Keyword::Revoke => self.revoke(alloc),
            Keyword::Checkpoint => self.checkpoint(),
            Keyword::Checkpoints => self.checkpoints(),
            Keyword::Export => self.export(),
            _ => Err(self.fault(Code::Expected)),
        }
    }

    fn nothing_more(&self) -> Result<(), ReadFault>
        ensures ok { OnOk result ((fault_left End self.now ≡ None) × (self.now.rest ≡ [])) }
        ensures err { IfErr result (λ e. fault_left End self.now ≡ fault_of e) }
    {
        if self.peek().is_some() {
            return Err(self.fault(Code::Trailing));
        }
        Ok(())
    }

    /// An optional ";", and then nothing more.
    #[tactic(auto, using(crate::proofs::Lists::case_yes, crate::proofs::Lists::case_no))]
    pub fn finish(&mut self) -> Result<(), ReadFault>
        ensures ok { OnOk result ((fault_left finish self.old ≡ None)
            × IsFinished (left_says self.old)) }
        ensures err { IfErr result (λ e. fault_left finish self.old ≡ fault_of e) }
    {
        if self.at_mark(Mark::Semicolon) {
            self.advance();
            self.nothing_more()
        } else {
            self.nothing_more()
        }
    }
}
