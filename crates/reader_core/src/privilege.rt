//! Privileges as GRANT and REVOKE name them.
ghost use Rattle.std.specs.Prelude.{◌≡◌, ◌<◌, ◌≤◌, true, length, IfOk};
ghost use Rattle.lexer_core.specs.declared.token.TokenKind.TheVariants as kinds;
ghost use Rattle.reader_core.specs.Grammar.{is_keyword};
ghost use Rattle.reader_core.specs.Privileges.{word_of, word_keyword, are_different};

use crate::statement::MAX_ITEMS;
use base_core::{Compact, Distinct, Name, NoMemory};
use std::alloc::Global;
use std::marker::Model;

/// How many words privileges have.
pub const MAX_PRIVILEGES: usize = 4;

/// What a privilege is named by.
#[derive(Clone, Copy, PartialEq, Eq)]
pub(crate) enum PrivilegeWord {
    Select,
    Insert,
    Delete,
    Update,
}

/// A privilege. SELECT and UPDATE may be limited to columns.
#[derive(Drop)]
pub enum Privilege {
    Select(Option<Distinct<Name, MAX_ITEMS>>),
    Insert,
    Delete,
    Update(Option<Distinct<Name, MAX_ITEMS>>),
}

impl Privilege {
    pub(crate) fn word(&self) -> PrivilegeWord
        ensures { result ≡ word_of self.now }
    {
        match self {
            Privilege::Select(_) => PrivilegeWord::Select,
            Privilege::Insert => PrivilegeWord::Insert,
            Privilege::Delete => PrivilegeWord::Delete,
            Privilege::Update(_) => PrivilegeWord::Update,
        }
    }

    pub(crate) fn has_word(&self, word: PrivilegeWord) -> bool
        ensures { result ≡ is_keyword (word_keyword (word_of self.now))
            (kinds.Keyword (word_keyword word)) }
    {
        self.word() == word
    }
}

/// One to four privileges with different words, in the order written. Contracts see the list of
/// them.
#[derive(Drop)]
pub struct Privileges {
    items: Compact<Privilege>,
}

impl Model for Privileges {
    ghost use Rattle.std.specs.Prelude.{◌≡◌, ◌<◌, ◌≤◌, true, List, length};
    ghost use Rattle.reader_core.specs.declared.privilege.Privilege.{Privilege};
    ghost use Rattle.reader_core.specs.Privileges.{are_different};

    ghost Value = { List Privilege };

    ghost view = { λ s. s.items };

    ghost invariant = { λ s. (0 < length s.items) × (length s.items ≤ 4)
        × (are_different s.items ≡ true) };
}

impl Privileges {
    /// These privileges. `NoMemory` where a request for memory was refused.
    pub fn from_vec(alloc: Global, items: Vec<Privilege>) -> Result<Privileges, NoMemory>
        requires some { 0 < length items.items }
        requires few { length items.items ≤ 4 }
        requires different { are_different items.items ≡ true }
        ensures { IfOk result (λ privileges. privileges ≡ items.items) }
    {
        let items = Compact::from_vec(alloc, items)?;
        Ok(Privileges { items })
    }

    /// The privileges, in the order written.
    pub fn as_slice(&self) -> &[Privilege]
        ensures items { result.now ≡ self.now }
        ensures some { 0 < length self.now }
        ensures few { length self.now ≤ 4 }
        ensures different { are_different self.now ≡ true }
    {
        self.items.as_slice()
    }
}
