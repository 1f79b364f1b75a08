//! The items of the language's lists.
ghost use Rattle.std.specs.Prelude.{◌≡◌, ◌∷◌, ◌++◌, [], ◌<◌, None, Some, IfOk, map, refl};
ghost use Rattle.lexer_core.specs.Lexing.{kind_of};
ghost use Rattle.reader_core.specs.Grammar.{Items, More, item_fault};
ghost use Rattle.reader_core.specs.Cursor.{Parses, next_is};

use crate::parsing::list::Item;
use crate::parsing::reader::Reader;
use crate::privilege::{Privilege, PrivilegeWord};
use crate::separator::Separator;
use crate::statement::{MAX_ITEMS, MAX_USERS};
use base_core::{Assignment, Column, Condition, Keyword, Name, User, Value};
use lexer_core::{Code, Mark, ReadFault};
use std::alloc::Global;

impl Item for Column {
    ghost use Rattle.reader_core.specs.declared.separator.Separator.TheVariants as separators;
    ghost use Rattle.lexer_core.specs.declared.token.TokenKind.TheVariants as kinds;
    ghost use Rattle.reader_core.specs.Sentences.{names_rule, column_item};
    ghost use Rattle.reader_core.specs.Saying.{column_says};

    ghost rule = { names_rule 32 };

    ghost SEPARATOR = { separators.Comma };

    const SEPARATOR: Separator = Separator::Comma;

    ghost separates = { refl };

    ghost grammar = { column_item };

    ghost first = { λ c. kinds.Name c.name };

    ghost says = { column_says };

    fn read(
        reader: &mut Reader<'_>,
        _alloc: Global,
        before: &[Column],
    ) -> Result<Column, ReadFault> {
        let name = reader.item_name(before, MAX_ITEMS)?;
        let ty = reader.column_type()?;
        Ok(Column { name, ty })
    }
}

impl Item for Value {
    ghost use Rattle.reader_core.specs.declared.separator.Separator.TheVariants as separators;
    ghost use Rattle.std.specs.Prelude.{false};
    ghost use Rattle.lexer_core.specs.Lexing.{kind_of};
    ghost use Rattle.reader_core.specs.Sentences.{comma_separated, literal_item};
    ghost use Rattle.reader_core.specs.Saying.{value_lexeme, value_says};

    ghost rule = { comma_separated 32 false };

    ghost SEPARATOR = { separators.Comma };

    const SEPARATOR: Separator = Separator::Comma;

    ghost separates = { refl };

    ghost grammar = { literal_item };

    ghost first = { λ v. kind_of (value_lexeme v) };

    ghost says = { value_says };

    fn read(reader: &mut Reader<'_>, alloc: Global, before: &[Value]) -> Result<Value, ReadFault> {
        if !reader.at_literal() {
            return Err(reader.fault(Code::Expected));
        }
        reader.check_item(false, before.len(), MAX_ITEMS)?;
        let value = reader.value(alloc)?;
        reader.advance();
        Ok(value)
    }
}

impl Item for Name {
    ghost use Rattle.reader_core.specs.declared.separator.Separator.TheVariants as separators;
    ghost use Rattle.lexer_core.specs.declared.token.TokenKind.TheVariants as kinds;
    ghost use Rattle.reader_core.specs.Sentences.{names_rule, name_item};
    ghost use Rattle.reader_core.specs.Saying.{name_says};

    ghost rule = { names_rule 32 };

    ghost SEPARATOR = { separators.Comma };

    const SEPARATOR: Separator = Separator::Comma;

    ghost separates = { refl };

    ghost grammar = { name_item };

    ghost first = { λ n. kinds.Name n };

    ghost says = { name_says };

    fn read(reader: &mut Reader<'_>, _alloc: Global, before: &[Name]) -> Result<Name, ReadFault> {
        reader.item_name(before, MAX_ITEMS)
    }
}

impl Item for User {
    ghost use Rattle.reader_core.specs.declared.separator.Separator.TheVariants as separators;
    ghost use Rattle.lexer_core.specs.declared.token.TokenKind.TheVariants as kinds;
    ghost use Rattle.reader_core.specs.Sentences.{names_rule, name_item};
    ghost use Rattle.reader_core.specs.Saying.{user_says};

    ghost rule = { names_rule 16 };

    ghost SEPARATOR = { separators.Comma };

    const SEPARATOR: Separator = Separator::Comma;

    ghost separates = { refl };

    ghost grammar = { name_item };

    ghost first = { λ u. kinds.Name u.0 };

    ghost says = { user_says };

    fn read(reader: &mut Reader<'_>, _alloc: Global, before: &[User]) -> Result<User, ReadFault> {
        let name = reader.item_name(before, MAX_USERS)?;
        Ok(User(name))
    }
}

impl Item for Assignment {
    ghost use Rattle.reader_core.specs.declared.separator.Separator.TheVariants as separators;
    ghost use Rattle.lexer_core.specs.declared.token.TokenKind.TheVariants as kinds;
    ghost use Rattle.reader_core.specs.Sentences.{names_rule, set_item};
    ghost use Rattle.reader_core.specs.Saying.{set_says};

    ghost rule = { names_rule 32 };

    ghost SEPARATOR = { separators.Comma };

    const SEPARATOR: Separator = Separator::Comma;

    ghost separates = { refl };

    ghost grammar = { set_item };

    ghost first = { λ a. kinds.Name a.column };

    ghost says = { set_says };

    fn read(
        reader: &mut Reader<'_>,
        alloc: Global,
        before: &[Assignment],
    ) -> Result<Assignment, ReadFault> {
        let column = reader.item_name(before, MAX_ITEMS)?;
        reader.mark(Mark::Equal)?;
        let value = reader.literal(alloc)?;
        Ok(Assignment { column, value })
    }
}

impl Item for Condition {
    ghost use Rattle.reader_core.specs.declared.separator.Separator.TheVariants as separators;
    ghost use Rattle.lexer_core.specs.Lexing as lexemes;
    ghost use Rattle.lexer_core.specs.declared.token.TokenKind.TheVariants as kinds;
    ghost use Rattle.base_core.specs.declared.keyword.Keyword.TheVariants as keywords;
    ghost use Rattle.reader_core.specs.Sentences.{conditions_rule, condition_item};
    ghost use Rattle.reader_core.specs.Saying.{condition_says};

    ghost rule = { conditions_rule };

    ghost SEPARATOR = { separators.And };

    const SEPARATOR: Separator = Separator::And;

    ghost separates = { refl };

    ghost grammar = { condition_item };

    ghost first = { λ c. kinds.Name c.column };

    ghost says = { condition_says };

    fn read(
        reader: &mut Reader<'_>,
        alloc: Global,
        before: &[Condition],
    ) -> Result<Condition, ReadFault> {
        let column = reader.tested_column(before)?;
        let comparison = reader.comparison()?;
        let literal = reader.literal(alloc)?;
        Ok(Condition {
            column,
            comparison,
            literal,
        })
    }
}

impl Item for Privilege {
    ghost use Rattle.reader_core.specs.declared.separator.Separator.TheVariants as separators;
    ghost use Rattle.lexer_core.specs.declared.token.TokenKind.TheVariants as kinds;
    ghost use Rattle.reader_core.specs.Privileges.{word_of, word_keyword};
    ghost use Rattle.reader_core.specs.Sentences.{privileges_rule, privilege_item};
    ghost use Rattle.reader_core.specs.Saying.{privilege_says};
    ghost use Rattle.reader_core.specs.Forming.{IsWellFormedPrivilege};

    ghost rule = { privileges_rule };

    ghost SEPARATOR = { separators.Comma };

    const SEPARATOR: Separator = Separator::Comma;

    ghost separates = { refl };

    ghost grammar = { privilege_item };

    ghost first = { λ p. kinds.Keyword (word_keyword (word_of p)) };

    ghost says = { privilege_says };

    ghost well_formed = { IsWellFormedPrivilege };

    fn read(
        reader: &mut Reader<'_>,
        alloc: Global,
        before: &[Privilege],
    ) -> Result<Privilege, ReadFault> {
        let word = reader.item_word(before)?;
        reader.privilege(alloc, word)
    }
}
