//! The first tokens of the items of lists.
ghost use Rattle.std.specs.Prelude.{◌≡◌, ◌∷◌, ◌++◌, [], ℕ, List, None, Some, IfOk, map};
ghost use Rattle.std.specs.List.{list_any};
ghost use Rattle.lexer_core.specs.declared.token.TokenKind.{TokenKind};
ghost use Rattle.lexer_core.specs.declared.token.TokenKind.TheVariants as kinds;
ghost use Rattle.reader_core.specs.Grammar.{Grammar, Items, More, One, AnyName, AnyTest, AnyLiteral, followed_by, item_fault, same};
ghost use Rattle.reader_core.specs.Cursor.{Parses};
ghost use Rattle.reader_core.specs.Privileges.{word_keyword, first_words};
ghost use Rattle.reader_core.specs.Sentences.{first_names, names_rule, conditions_rule, condition_item, privileges_rule, privilege_item, behind_word};
ghost use Rattle.reader_core.specs.Saying.{name_says, word_says};

use crate::parsing::reader::Reader;
use crate::privilege::{MAX_PRIVILEGES, Privilege, PrivilegeWord};
use crate::statement::MAX_ITEMS;
use base_core::{Condition, Name, Named};
use lexer_core::ReadFault;

fn has_name<T: Named>(items: &[T], name: Name) -> bool
    ensures { result ≡ list_any (λ x. same x (kinds.Name name))
        (first_names T.name_of items.now) }
{
    items.iter().any(|item| item.name() == name)
}

fn has_word(privileges: &[Privilege], word: PrivilegeWord) -> bool
    ensures { result ≡ list_any (λ x. same x (kinds.Keyword (word_keyword word)))
        (first_words privileges.now) }
{
    privileges.iter().any(|privilege| privilege.has_word(word))
}

impl Reader<'_> {
    /// The name that begins an item of a list of at most so many, after these.
    pub fn item_name<T: Named>(&mut self, items: &[T], limit: usize) -> Result<Name, ReadFault>
        ensures leads { (i : Grammar) → Parses
            (λ k. Items (names_rule limit) (first_names T.name_of items.now) (One AnyName i) k)
            (λ n k. followed_by i (More (names_rule limit)
            (first_names T.name_of items.now ++ kinds.Name n ∷ []) (One AnyName i) k))
            name_says result self.old self.new }
        ensures faultless { IfOk result (λ n. item_fault (names_rule limit)
            (first_names T.name_of items.now) (kinds.Name n) ≡ None) }
    {
        let name = self.peek_name()?;
        self.check_item(has_name(items, name), items.len(), limit)?;
        self.advance();
        Ok(name)
    }

    /// The column that begins a condition, after these.
    pub fn tested_column(&mut self, before: &[Condition]) -> Result<Name, ReadFault>
        ensures leads { Parses
            (λ k. Items conditions_rule (map (λ c. kinds.Name c.column) before.now)
            condition_item k)
            (λ n k. One AnyTest (One AnyLiteral (More conditions_rule
            (map (λ c. kinds.Name c.column) before.now ++ kinds.Name n ∷ []) condition_item k)))
            name_says result self.old self.new }
        ensures faultless { IfOk result (λ n. item_fault conditions_rule
            (map (λ c. kinds.Name c.column) before.now) (kinds.Name n) ≡ None) }
    {
        let column = self.peek_name()?;
        self.check_item(false, before.len(), MAX_ITEMS)?;
        self.advance();
        Ok(column)
    }

    /// The word that begins a privilege, after these.
    pub fn item_word(&mut self, before: &[Privilege]) -> Result<PrivilegeWord, ReadFault>
        ensures leads { Parses
            (λ k. Items privileges_rule (first_words before.now) privilege_item k)
            (λ w k. behind_word w (More privileges_rule
            (first_words before.now ++ kinds.Keyword (word_keyword w) ∷ []) privilege_item k))
            word_says result self.old self.new }
        ensures faultless { IfOk result (λ w. item_fault privileges_rule
            (first_words before.now) (kinds.Keyword (word_keyword w)) ≡ None) }
    {
        let word = self.peek_word()?;
        self.check_item(has_word(before, word), before.len(), MAX_PRIVILEGES)?;
        self.advance();
        Ok(word)
    }
}
