//! Items and lists on a page.
ghost use Rattle.std.specs.Prelude.{◌≡◌, ◌∷◌, ◌++◌, [], List, All};
ghost use Rattle.std.specs.List.{flat_map};
ghost use Rattle.lexer_core.specs.Lexing as lexemes;
ghost use Rattle.lexer_core.specs.Lexing.{Lexeme};
ghost use Rattle.lexer_core.specs.declared.token.Mark.TheVariants as marks;
ghost use Rattle.reader_core.specs.declared.separator.Separator.{Separator};
ghost use Rattle.reader_core.specs.Saying.{separated, separator_lexeme, names_say, columns_say, type_lexeme, comparison_mark};
ghost use Rattle.reader_core.specs.Forming.{AreNamed, IsSelection};
ghost use Rattle.printer_core.specs.Printing.{Prints};

use crate::page::Page;
use base_core::{
    Assignment, ColType, Column, Comparison, Condition, Distinct, Keyword, Name, User, Value,
};
use lexer_core::Mark;
use reader_core::{MAX_ITEMS, Privilege, Separator};

/// What can stand on a page as an item of a list.
pub trait Printed: Sized {
    // What stands between two items.
    ghost SEPARATOR: { Separator };
    // What an item says, token by token.
    ghost says: { Self → List Lexeme };
    // What the language asks of an item by itself.
    ghost well_formed: { Self → Type 0 } = { λ _. Unit {0} };

    const SEPARATOR: Separator;

    fn write(&self, page: &mut Page)
        ensures written { Prints (Self.says self.now) page.old page.new }
        ensures well_formed { Self.well_formed self.now };
}

fn write_behind<T: Printed>(page: &mut Page, items: &[T])
    ensures written { Prints (flat_map (λ x. separator_lexeme T.SEPARATOR ∷ T.says x) items.now)
        page.old page.new }
    ensures well_formed { All T.well_formed items.now }
{
    for item in items {
        page.separator(T::SEPARATOR);
        item.write(page);
    }
}

/// The items, with a separator between each two.
pub fn write_list<T: Printed>(page: &mut Page, items: &[T])
    ensures written { Prints (separated (separator_lexeme T.SEPARATOR) T.says items.now)
        page.old page.new }
    ensures well_formed { All T.well_formed items.now }
{
    if let [first, rest @ ..] = items {
        first.write(page);
        write_behind(page, rest);
    }
}

impl Printed for Name {
    ghost use Rattle.reader_core.specs.declared.separator.Separator.TheVariants as separators;
    ghost use Rattle.reader_core.specs.Saying.{name_says};

    ghost SEPARATOR = { separators.Comma };

    const SEPARATOR: Separator = Separator::Comma;

    ghost says = { name_says };

    fn write(&self, page: &mut Page) {
        page.name(self);
    }
}

impl Printed for User {
    ghost use Rattle.reader_core.specs.declared.separator.Separator.TheVariants as separators;
    ghost use Rattle.reader_core.specs.Saying.{user_says};

    ghost SEPARATOR = { separators.Comma };

    const SEPARATOR: Separator = Separator::Comma;

    ghost says = { user_says };

    fn write(&self, page: &mut Page) {
        page.name(&self.0);
    }
}

fn type_keyword(ty: ColType) -> Keyword
    ensures { lexemes.Key result ≡ type_lexeme ty }
{
    match ty {
        ColType::Integer => Keyword::Integer,
        ColType::Text => Keyword::Text,
    }
}

impl Printed for Column {
    ghost use Rattle.reader_core.specs.declared.separator.Separator.TheVariants as separators;
    ghost use Rattle.reader_core.specs.Saying.{column_says};

    ghost SEPARATOR = { separators.Comma };

    const SEPARATOR: Separator = Separator::Comma;

    ghost says = { column_says };

    fn write(&self, page: &mut Page) {
        page.name(&self.name);
        page.keyword(type_keyword(self.ty));
    }
}

impl Printed for Value {
    ghost use Rattle.reader_core.specs.declared.separator.Separator.TheVariants as separators;
    ghost use Rattle.reader_core.specs.Saying.{value_says};

    ghost SEPARATOR = { separators.Comma };

    const SEPARATOR: Separator = Separator::Comma;

    ghost says = { value_says };

    fn write(&self, page: &mut Page) {
        page.value(self);
    }
}

impl Printed for Assignment {
    ghost use Rattle.reader_core.specs.declared.separator.Separator.TheVariants as separators;
    ghost use Rattle.reader_core.specs.Saying.{set_says};

    ghost SEPARATOR = { separators.Comma };

    const SEPARATOR: Separator = Separator::Comma;

    ghost says = { set_says };

    fn write(&self, page: &mut Page) {
        page.name(&self.column);
        page.mark(Mark::Equal);
        page.value(&self.value);
    }
}

fn comparison_mark(comparison: Comparison) -> Mark
    ensures { result ≡ comparison_mark comparison }
{
    match comparison {
        Comparison::Equal => Mark::Equal,
        Comparison::NotEqual => Mark::NotEqual,
        Comparison::Less => Mark::Less,
        Comparison::LessEqual => Mark::LessEqual,
        Comparison::Greater => Mark::Greater,
        Comparison::GreaterEqual => Mark::GreaterEqual,
    }
}

impl Printed for Condition {
    ghost use Rattle.reader_core.specs.declared.separator.Separator.TheVariants as separators;
    ghost use Rattle.reader_core.specs.Saying.{condition_says};

    ghost SEPARATOR = { separators.And };

    const SEPARATOR: Separator = Separator::And;

    ghost says = { condition_says };

    fn write(&self, page: &mut Page) {
        page.name(&self.column);
        page.mark(comparison_mark(self.comparison));
        page.value(&self.literal);
    }
}

fn write_in_brackets(page: &mut Page, names: &Distinct<Name, MAX_ITEMS>)
    ensures written { Prints
        (lexemes.Sign marks.Open ∷ (names_say names.now ++ lexemes.Sign marks.Close ∷ []))
        page.old page.new }
    ensures well_formed { AreNamed 32 (λ n. n) names.now }
{
    page.mark(Mark::Open);
    write_list(page, names.as_slice());
    page.mark(Mark::Close);
}

/// Columns in brackets, or nothing for all of them.
fn write_columns(page: &mut Page, columns: &Option<Distinct<Name, MAX_ITEMS>>)
    ensures written { Prints (columns_say columns.now) page.old page.new }
    ensures well_formed { IsSelection columns.now }
{
    if let Some(names) = columns {
        write_in_brackets(page, names);
    }
}

/// A privilege's word, and the columns that it is limited to.
fn write_by_column(page: &mut Page, word: Keyword, columns: &Option<Distinct<Name, MAX_ITEMS>>)
    ensures written { Prints (lexemes.Key word ∷ columns_say columns.now)
        page.old page.new }
    ensures well_formed { IsSelection columns.now }
{
    page.keyword(word);
    write_columns(page, columns);
}

impl Printed for Privilege {
    ghost use Rattle.reader_core.specs.declared.separator.Separator.TheVariants as separators;
    ghost use Rattle.reader_core.specs.Saying.{privilege_says};
    ghost use Rattle.reader_core.specs.Forming.{IsWellFormedPrivilege};

    ghost SEPARATOR = { separators.Comma };

    const SEPARATOR: Separator = Separator::Comma;

    ghost says = { privilege_says };

    ghost well_formed = { IsWellFormedPrivilege };

    fn write(&self, page: &mut Page) {
        match self {
            Privilege::Select(columns) => write_by_column(page, Keyword::Select, columns),
            Privilege::Insert => page.keyword(Keyword::Insert),
            Privilege::Delete => page.keyword(Keyword::Delete),
            Privilege::Update(columns) => write_by_column(page, Keyword::Update, columns),
        }
    }
}
