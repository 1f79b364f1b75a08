//! Lists of items with a separator between each two.
ghost use Rattle.std.specs.Prelude.{◌≡◌, ◌<◌, ◌∷◌, ◌++◌, [], List, None, Some, true, All, IfOk, OnOk, length, map};
ghost use Rattle.lexer_core.specs.Lexing.{Lexeme};
ghost use Rattle.lexer_core.specs.declared.token.TokenKind.{TokenKind};
ghost use Rattle.reader_core.specs.Grammar.{Grammar, Rule, Items, More, item_fault};
ghost use Rattle.reader_core.specs.Recogniser.{AreFaultless};
ghost use Rattle.reader_core.specs.Cursor.{Reads, Parses, next_is, next_lexeme};
ghost use Rattle.reader_core.specs.declared.separator.Separator.{Separator};
ghost use Rattle.reader_core.specs.Saying.{separated, separator_class, separator_lexeme};

use crate::parsing::reader::Reader;
use crate::separator::Separator;
use crate::statement::MAX_ITEMS;
use base_core::{NoMemory, Value, ValuesBuilder};
use lexer_core::ReadFault;
use std::alloc::Global;

/// What a list of the language holds.
pub trait Item: Drop + Sized {
    // How many there may be, whether they differ by their first tokens, and what stands between
    // them.
    ghost rule: { Rule };
    // What stands between two items.
    ghost SEPARATOR: { Separator };
    // An item.
    ghost grammar: { Grammar };
    // The kind of its first token.
    ghost first: { Self → TokenKind };
    // What it says, token by token.
    ghost says: { Self → List Lexeme };
    // What the language asks of an item by itself.
    ghost well_formed: { Self → Type 0 } = { λ _. Unit {0} };

    /// Reads the item that comes after these.
    fn read(reader: &mut Reader<'_>, alloc: Global, before: &[Self]) -> Result<Self, ReadFault>
        ensures leads { Parses (λ k. Items rule (map first before.now) grammar k)
            (λ x k. More rule (map first (before.now ++ x ∷ [])) grammar k) says
            result reader.old reader.new }
        ensures faultless { IfOk result (λ x.
            item_fault rule (map first before.now) (first x) ≡ None) }
        ensures well_formed { IfOk result (λ x. well_formed x) };

    const SEPARATOR: Separator;

    // The rule has its class.
    ghost separates: { rule.separator ≡ separator_class SEPARATOR };
}

/// What the items of a list are gathered in, in their order.
pub trait Gathered<T>: Drop + Sized {
    // The items in it.
    ghost items_of: { Self → List T };

    /// No items, where so many are awaited. `NoMemory` where a request for memory was refused.
    fn awaiting(alloc: Global, count: usize) -> Result<Self, NoMemory>
        ensures { IfOk result (λ list. items_of list ≡ []) };

    /// Puts an item behind the others. `NoMemory` where a request for memory was refused.
    fn add(&mut self, item: T) -> Result<(), NoMemory>
        ensures { OnOk result (items_of self.new ≡ items_of self.old ++ item ∷ []) };

    fn items(&self) -> &[T]
        ensures { result.now ≡ items_of self.now };
}

impl<T: Drop> Gathered<T> for Vec<T> {
    ghost items_of = { λ items. items.items };

    fn awaiting(alloc: Global, _count: usize) -> Result<Vec<T>, NoMemory> {
        Ok(Vec::new(alloc))
    }

    fn add(&mut self, item: T) -> Result<(), NoMemory> {
        self.push(item)?;
        Ok(())
    }

    fn items(&self) -> &[T] {
        self.as_slice()
    }
}

/// Few values take no memory before they are shared.
impl Gathered<Value> for ValuesBuilder {
    ghost items_of = { λ values. values };

    fn awaiting(alloc: Global, count: usize) -> Result<ValuesBuilder, NoMemory> {
        ValuesBuilder::with_capacity(alloc, count)
    }

    fn add(&mut self, item: Value) -> Result<(), NoMemory> {
        self.push(item)
    }

    fn items(&self) -> &[Value] {
        self.as_slice()
    }
}

/// One item, and more of them behind separators.
pub fn list<T: Item, L: Gathered<T>>(reader: &mut Reader<'_>, alloc: Global) -> Result<L, ReadFault>
    ensures reads { Reads (λ k. Items T.rule [] T.grammar k)
        (λ l. separated (separator_lexeme T.SEPARATOR) T.says (L.items_of l))
        result reader.old reader.new }
    ensures some { IfOk result (λ l. 0 < length (L.items_of l)) }
    ensures faultless { IfOk result (λ l. AreFaultless T.rule [] (map T.first (L.items_of l))) }
    ensures well_formed { IfOk result (λ l. All T.well_formed (L.items_of l)) }
{
    // Of INSERT's values each has two tokens, with what stands behind it.
    let mut list = L::awaiting(alloc, (reader.tokens_left() / 2).min(MAX_ITEMS))?;
    loop {
        let item = T::read(reader, alloc, list.items())?;
        list.add(item)?;
        if !reader.at_separator(T::SEPARATOR) {
            return Ok(list);
        }
        reader.advance();
    }
}
