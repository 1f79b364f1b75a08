//! Statements as text.
ghost use Rattle.std.specs.Prelude.{◌≡◌, ◌<◌, ◌≤◌, IfOk, IsErrOf, length, string_bytes};
ghost use Rattle.std.specs.Str.{IsUtf8};
ghost use Rattle.reader_core.specs.declared.statement.Statement.TheVariants as statements;
ghost use Rattle.reader_core.specs.Saying.{selection_says, filter_says, option_says, privileges_from_say, only_says, statement_says};
ghost use Rattle.reader_core.specs.Forming.{IsSelection, ArePrivileges, AreUsers, IsWellFormed};
ghost use Rattle.reader_core.specs.Language.{Spells};
ghost use Rattle.printer_core.specs.Printing.{Prints, canonical};

use crate::page::Page;
use crate::printed::write_list;
use base_core::{
    Assignment, Column, Condition, Distinct, Keyword, Limited, Name, NoMemory, SeveralValues, User,
};
use lexer_core::{MAX_LINE, Mark};
use reader_core::{CheckpointNumber, MAX_ITEMS, MAX_USERS, Privileges, Statement};
use std::alloc::Global;
use thiserror::Error;

/// Why a statement is not printed: memory was refused, or its text has more bytes than a line may
/// have.
#[derive(Clone, Copy, Debug, PartialEq, Eq, Error)]
pub enum PrintFault {
    #[error("no memory")]
    NoMemory,
    #[error("too long")]
    TooLong,
}

impl From<NoMemory> for PrintFault {
    ghost use Rattle.printer_core.specs.declared.printing.PrintFault.TheVariants as faults;

    ghost from_gives = { λ _ e. e ≡ faults.NoMemory };

    fn from(_error: NoMemory) -> PrintFault {
        PrintFault::NoMemory
    }
}

impl Page {
    fn create(&mut self, table: Name, columns: &Distinct<Column, MAX_ITEMS>)
        ensures written { Prints
            (statement_says (statements.CreateTable table columns.now)) self.old self.new }
        ensures well_formed { IsWellFormed (statements.CreateTable table columns.now) }
    {
        self.keyword(Keyword::Create);
        self.keyword(Keyword::Table);
        self.name(&table);
        self.mark(Mark::Open);
        write_list(self, columns.as_slice());
        self.mark(Mark::Close);
    }

    fn insert(&mut self, table: Name, values: &SeveralValues<MAX_ITEMS>)
        ensures written { Prints
            (statement_says (statements.Insert table values.now)) self.old self.new }
        ensures well_formed { IsWellFormed (statements.Insert table values.now) }
    {
        self.keyword(Keyword::Insert);
        self.keyword(Keyword::Into);
        self.name(&table);
        self.keyword(Keyword::Values);
        self.mark(Mark::Open);
        write_list(self, values.as_slice());
        self.mark(Mark::Close);
    }

    fn selection(&mut self, list: &Option<Distinct<Name, MAX_ITEMS>>)
        ensures written { Prints (selection_says list.now) self.old self.new }
        ensures well_formed { IsSelection list.now }
    {
        match list {
            Some(names) => write_list(self, names.as_slice()),
            None => self.mark(Mark::Star),
        }
    }

    fn filter(&mut self, filter: &Limited<Condition, MAX_ITEMS>)
        ensures written { Prints (filter_says filter.now) self.old self.new }
        ensures few { length filter.now ≤ 32 }
    {
        let conditions = filter.as_slice();
        if !conditions.is_empty() {
            self.keyword(Keyword::Where);
            write_list(self, conditions);
        }
    }

    fn select(
        &mut self,
        list: &Option<Distinct<Name, MAX_ITEMS>>,
        table: Name,
        filter: &Limited<Condition, MAX_ITEMS>,
    )
        ensures written { Prints
            (statement_says (statements.Select list.now table filter.now)) self.old self.new }
        ensures well_formed { IsWellFormed (statements.Select list.now table filter.now) }
    {
        self.keyword(Keyword::Select);
        self.selection(list);
        self.keyword(Keyword::From);
        self.name(&table);
        self.filter(filter);
    }

    fn delete(&mut self, table: Name, filter: &Limited<Condition, MAX_ITEMS>)
        ensures written { Prints
            (statement_says (statements.Delete table filter.now)) self.old self.new }
        ensures well_formed { IsWellFormed (statements.Delete table filter.now) }
    {
        self.keyword(Keyword::Delete);
        self.keyword(Keyword::From);
        self.name(&table);
        self.filter(filter);
    }

    fn update(
        &mut self,
        table: Name,
        sets: &Distinct<Assignment, MAX_ITEMS>,
        filter: &Limited<Condition, MAX_ITEMS>,
    )
        ensures written { Prints
            (statement_says (statements.Update table sets.now filter.now)) self.old self.new }
        ensures well_formed { IsWellFormed (statements.Update table sets.now filter.now) }
    {
        self.keyword(Keyword::Update);
        self.name(&table);
        self.keyword(Keyword::Set);
        write_list(self, sets.as_slice());
        self.filter(filter);
    }

    fn grant_option(&mut self, option: bool)
        ensures { Prints (option_says option) self.old self.new }
    {
        if option {
            self.keyword(Keyword::With);
            self.keyword(Keyword::Grant);
            self.keyword(Keyword::Option);
        }
    }

    fn grant(
        &mut self,
        privileges: &Privileges,
        table: Name,
        users: &Distinct<User, MAX_USERS>,
        option: bool,
    )
        ensures written { Prints
            (statement_says (statements.Grant privileges.now table users.now option))
            self.old self.new }
        ensures well_formed { IsWellFormed (statements.Grant privileges.now table users.now option) }
    {
        self.keyword(Keyword::Grant);
        write_list(self, privileges.as_slice());
        self.keyword(Keyword::On);
        self.name(&table);
        self.keyword(Keyword::To);
        write_list(self, users.as_slice());
        self.grant_option(option);
    }

    fn privileges_from(
        &mut self,
        privileges: &Privileges,
        table: Name,
        users: &Distinct<User, MAX_USERS>,
    )
        ensures written { Prints
            (privileges_from_say privileges.now table users.now) self.old self.new }
        ensures privileges { ArePrivileges privileges.now }
        ensures users { AreUsers users.now }
    {
        write_list(self, privileges.as_slice());
        self.keyword(Keyword::On);
        self.name(&table);
        self.keyword(Keyword::From);
        write_list(self, users.as_slice());
    }

    fn revoke(&mut self, privileges: &Privileges, table: Name, users: &Distinct<User, MAX_USERS>)
        ensures written { Prints
            (statement_says (statements.Revoke privileges.now table users.now)) self.old self.new }
        ensures well_formed { IsWellFormed (statements.Revoke privileges.now table users.now) }
    {
        self.keyword(Keyword::Revoke);
        self.privileges_from(privileges, table, users);
    }

    fn revoke_option(
        &mut self,
        privileges: &Privileges,
        table: Name,
        users: &Distinct<User, MAX_USERS>,
    )
        ensures written { Prints
            (statement_says (statements.RevokeOption privileges.now table users.now))
            self.old self.new }
        ensures well_formed { IsWellFormed (statements.RevokeOption privileges.now table users.now) }
    {
        self.keyword(Keyword::Revoke);
        self.keyword(Keyword::Grant);
        self.keyword(Keyword::Option);
        self.keyword(Keyword::For);
        self.privileges_from(privileges, table, users);
    }

    fn only(&mut self, only: Option<Name>)
        ensures { Prints (only_says only) self.old self.new }
    {
        if let Some(table) = only {
            self.keyword(Keyword::Only);
            self.name(&table);
        }
    }

    fn export(&mut self, number: CheckpointNumber, only: Option<Name>)
        ensures written { Prints
            (statement_says (statements.Export number only)) self.old self.new }
        ensures well_formed { IsWellFormed (statements.Export number only) }
    {
        self.keyword(Keyword::Export);
        self.number(number.get() as i64);
        self.only(only);
    }

    pub(crate) fn statement(&mut self, statement: &Statement)
        ensures written { Prints (statement_says statement.now) self.old self.new }
        ensures well_formed { IsWellFormed statement.now }
    {
        match statement {
            Statement::CreateTable { table, columns } => self.create(*table, columns),
            Statement::Insert { table, values } => self.insert(*table, values),
            Statement::Select {
                list,
                table,
                filter,
            } => self.select(list, *table, filter),
            Statement::Delete { table, filter } => self.delete(*table, filter),
            Statement::Update {
                table,
                sets,
                filter,
            } => self.update(*table, sets, filter),
            Statement::Grant {
                privileges,
                table,
                users,
                option,
            } => self.grant(privileges, *table, users, *option),
            Statement::Revoke {
                privileges,
                table,
                users,
            } => self.revoke(privileges, *table, users),
            Statement::RevokeOption {
                privileges,
                table,
                users,
            } => self.revoke_option(privileges, *table, users),
            Statement::Checkpoint => self.keyword(Keyword::Checkpoint),
            Statement::Checkpoints => self.keyword(Keyword::Checkpoints),
            Statement::Export { number, only } => self.export(*number, *only),
        }
    }
}

/// A text of these bytes.
fn copied(alloc: Global, bytes: &[u8]) -> Result<String, NoMemory>
    requires { IsUtf8 bytes.now }
    ensures { IfOk result (λ text. string_bytes text ≡ bytes.now) }
{
    match str::from_utf8(bytes) {
        Ok(text) => Ok(String::from_str(alloc, text)?),
        Err(_) => unreachable!(),
    }
}

/// The canonical text of a statement: keywords in capitals, names in small letters, numbers in
/// plain decimal, one space between tokens but none behind `(` and before `)` and `,`, and no `;`.
///
/// `TooLong` exactly where that text has more than 4,096 bytes, the most that a line may have.
/// `NoMemory` where a request for memory was refused.
pub fn print(alloc: Global, statement: &Statement) -> Result<String, PrintFault>
    ensures text { IfOk result (λ text. string_bytes text ≡ canonical statement.now) }
    ensures short { IfOk result (λ _. length (canonical statement.now) ≤ 4096) }
    ensures too_long { IsErrOf result PrintFault.TooLong → 4096 < length (canonical statement.now) }

    // What is printed is read as the statement.
    ensures spelled { IfOk result (λ text. Spells (string_bytes text) statement.now) }
{
    let mut page = Page::new(alloc)?;
    page.statement(statement);
    if !page.fits(MAX_LINE) {
        return Err(PrintFault::TooLong);
    }
    Ok(copied(alloc, page.as_slice())?)
}
