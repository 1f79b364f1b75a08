//! Parts of statements.
ghost use Rattle.std.specs.Prelude.{◌≡◌, ◌∷◌, ◌++◌, [], IfOk};
ghost use Rattle.base_core.specs.declared.keyword.Keyword.TheVariants as keywords;
ghost use Rattle.lexer_core.specs.Lexing as lexemes;
ghost use Rattle.lexer_core.specs.declared.token.Mark.TheVariants as marks;
ghost use Rattle.reader_core.specs.Grammar.{Items};
ghost use Rattle.reader_core.specs.Cursor.{Reads};
ghost use Rattle.reader_core.specs.Privileges.{word_of};
ghost use Rattle.reader_core.specs.Sentences.{optional, name_list, selection, in_brackets, behind_word, privileges_rule, privilege_item, privileges_from, names_rule, set_item, filter, grant_option, grant_option_for, only_table};
ghost use Rattle.reader_core.specs.Saying.{comma_lexeme, separated, names_say, name_says, user_says, selection_says, columns_say, privilege_columns, privilege_says, privileges_from_say, set_says, filter_says, option_says, option_for_says, only_says};
ghost use Rattle.reader_core.specs.Forming.{IsWellFormedPrivilege, ArePrivileges};

use crate::parsing::list::list;
use crate::parsing::reader::Reader;
use crate::privilege::{Privilege, PrivilegeWord, Privileges};
use crate::statement::{MAX_ITEMS, MAX_USERS};
use base_core::{Assignment, Condition, Distinct, Keyword, Limited, Name, User};
use lexer_core::{Mark, ReadFault};
use std::alloc::Global;

impl Reader<'_> {
    /// Names of columns.
    fn names(&mut self, alloc: Global) -> Result<Distinct<Name, MAX_ITEMS>, ReadFault>
        ensures { Reads (name_list 32) (λ names. names_say names) result self.old self.new }
    {
        let names = list::<Name, Vec<Name>>(self, alloc)?;
        Ok(Distinct::from_vec(alloc, names)?)
    }

    /// Reads a list of 1 to 16 different users.
    pub fn users(&mut self, alloc: Global) -> Result<Distinct<User, MAX_USERS>, ReadFault>
        ensures { Reads (name_list 16) (λ users. separated comma_lexeme user_says users)
            result self.old self.new }
    {
        let users = list::<User, Vec<User>>(self, alloc)?;
        Ok(Distinct::from_vec(alloc, users)?)
    }

    /// The columns of SELECT, or None for all.
    pub fn selection(
        &mut self,
        alloc: Global,
    ) -> Result<Option<Distinct<Name, MAX_ITEMS>>, ReadFault>
        ensures { Reads selection (λ list. selection_says list) result self.old self.new }
    {
        if self.at_mark(Mark::Star) {
            self.advance();
            return Ok(None);
        }
        let names = self.names(alloc)?;
        Ok(Some(names))
    }

    fn in_brackets(&mut self, alloc: Global) -> Result<Distinct<Name, MAX_ITEMS>, ReadFault>
        ensures { Reads in_brackets (λ names. lexemes.Sign marks.Open
            ∷ (names_say names ++ lexemes.Sign marks.Close ∷ [])) result self.old self.new }
    {
        self.mark(Mark::Open)?;
        let names = self.names(alloc)?;
        self.mark(Mark::Close)?;
        Ok(names)
    }

    /// The columns of SELECT or UPDATE as a privilege, or None for all.
    fn columns(&mut self, alloc: Global) -> Result<Option<Distinct<Name, MAX_ITEMS>>, ReadFault>
        ensures { Reads (optional in_brackets) (λ columns. columns_say columns)
            result self.old self.new }
    {
        if !self.at_mark(Mark::Open) {
            return Ok(None);
        }
        let columns = self.in_brackets(alloc)?;
        Ok(Some(columns))
    }

    /// The privilege of a word that was read.
    pub fn privilege(&mut self, alloc: Global, word: PrivilegeWord) -> Result<Privilege, ReadFault>
        ensures reads { Reads (behind_word word) (λ p. columns_say (privilege_columns p))
            result self.old self.new }
        ensures word { IfOk result (λ p. word_of p ≡ word) }
        ensures well_formed { IfOk result (λ p. IsWellFormedPrivilege p) }
    {
        match word {
            PrivilegeWord::Select => {
                let columns = self.columns(alloc)?;
                Ok(Privilege::Select(columns))
            }
            PrivilegeWord::Insert => Ok(Privilege::Insert),
            PrivilegeWord::Delete => Ok(Privilege::Delete),
            PrivilegeWord::Update => {
                let columns = self.columns(alloc)?;
                Ok(Privilege::Update(columns))
            }
        }
    }

    /// Reads a list of privileges, no kind of them twice.
    pub fn privileges(&mut self, alloc: Global) -> Result<Privileges, ReadFault>
        ensures reads { Reads (λ k. Items privileges_rule [] privilege_item k)
            (λ ps. separated comma_lexeme privilege_says ps) result self.old self.new }
        ensures well_formed { IfOk result (λ ps. ArePrivileges ps) }
    {
        let privileges = list::<Privilege, Vec<Privilege>>(self, alloc)?;
        Ok(Privileges::from_vec(alloc, privileges)?)
    }

    /// The privileges, the table and the users that a REVOKE names.
    #[tactic(auto, using(crate::proofs::Exits::exit_is))]
    pub fn privileges_from(
        &mut self,
        alloc: Global,
    ) -> Result<(Privileges, Name, Distinct<User, MAX_USERS>), ReadFault>
        ensures reads { Reads privileges_from (λ named. privileges_from_say named.0 named.1 named.2)
            result self.old self.new }
        ensures well_formed { IfOk result (λ named. ArePrivileges named.0) }
    {
        let privileges = self.privileges(alloc)?;
        self.keyword(Keyword::On)?;
        let table = self.name()?;
        self.keyword(Keyword::From)?;
        let users = self.users(alloc)?;
        Ok((privileges, table, users))
    }

    /// The assignments of UPDATE.
    pub fn sets(&mut self, alloc: Global) -> Result<Distinct<Assignment, MAX_ITEMS>, ReadFault>
        ensures { Reads (λ k. Items (names_rule 32) [] set_item k)
            (λ sets. separated comma_lexeme set_says sets) result self.old self.new }
    {
        let sets = list::<Assignment, Vec<Assignment>>(self, alloc)?;
        Ok(Distinct::from_vec(alloc, sets)?)
    }

    fn conditions(&mut self, alloc: Global) -> Result<Limited<Condition, MAX_ITEMS>, ReadFault>
        ensures { Reads filter (λ conditions. filter_says conditions) result self.old self.new }
    {
        self.keyword(Keyword::Where)?;
        let conditions = list::<Condition, Vec<Condition>>(self, alloc)?;
        Ok(Limited::from_vec(alloc, conditions)?)
    }

    /// The conditions behind WHERE, or none.
    pub fn filter(&mut self, alloc: Global) -> Result<Limited<Condition, MAX_ITEMS>, ReadFault>
        ensures { Reads (optional filter) (λ conditions. filter_says conditions)
            result self.old self.new }
    {
        if !self.at_keyword(Keyword::Where) {
            return Ok(Limited::none());
        }
        self.conditions(alloc)
    }

    fn with_grant_option(&mut self) -> Result<(), ReadFault>
        ensures { Reads grant_option (λ _. lexemes.Key keywords.With ∷ lexemes.Key keywords.Grant
            ∷ lexemes.Key keywords.Option ∷ []) result self.old self.new }
    {
        self.keyword(Keyword::With)?;
        self.keyword(Keyword::Grant)?;
        self.keyword(Keyword::Option)?;
        Ok(())
    }

    /// Whether WITH GRANT OPTION comes.
    pub fn option(&mut self) -> Result<bool, ReadFault>
        ensures { Reads (optional grant_option) option_says result self.old self.new }
    {
        if !self.at_keyword(Keyword::With) {
            return Ok(false);
        }
        self.with_grant_option()?;
        Ok(true)
    }

    fn grant_option_for(&mut self) -> Result<(), ReadFault>
        ensures { Reads grant_option_for (λ _. lexemes.Key keywords.Grant
            ∷ lexemes.Key keywords.Option ∷ lexemes.Key keywords.For ∷ [])
            result self.old self.new }
    {
        self.keyword(Keyword::Grant)?;
        self.keyword(Keyword::Option)?;
        self.keyword(Keyword::For)?;
        Ok(())
    }

    /// Whether GRANT OPTION FOR comes.
    pub fn option_for(&mut self) -> Result<bool, ReadFault>
        ensures { Reads (optional grant_option_for) option_for_says result self.old self.new }
    {
        if !self.at_keyword(Keyword::Grant) {
            return Ok(false);
        }
        self.grant_option_for()?;
        Ok(true)
    }

    fn only_table(&mut self) -> Result<Name, ReadFault>
        ensures { Reads only_table (λ table. lexemes.Key keywords.Only ∷ lexemes.Named table ∷ [])
            result self.old self.new }
    {
        self.keyword(Keyword::Only)?;
        let table = self.name()?;
        Ok(table)
    }

    /// The table behind ONLY, if it comes.
    pub fn only(&mut self) -> Result<Option<Name>, ReadFault>
        ensures { Reads (optional only_table) (λ only. only_says only) result self.old self.new }
    {
        if !self.at_keyword(Keyword::Only) {
            return Ok(None);
        }
        let table = self.only_table()?;
        Ok(Some(table))
    }
}
