//! Names of tables, columns and users.
ghost use Rattle.std.specs.Prelude.{◌≡◌, true, length};
ghost use Rattle.base_core.specs.Words.{is_name, name_of, folded, IsName};

use crate::bounded::Named;
use crate::word::{MAX_NAME, Word, is_word};
use std::hash::{Hash, Hasher};
use std::marker::Model;

/// A word of at most 30 bytes in small letters that is no keyword. Contracts see its bytes.
#[derive(Clone, Copy, Debug)]
pub struct Name {
    len: u8,
    bytes: [u8; MAX_NAME],
}

impl Model for Name {
    ghost use Rattle.std.specs.Prelude.{ℕ, List, IsTrue, length};

    ghost Value = { List ℕ };

    ghost use Rattle.base_core.specs.Named.{name_bytes, padded, HoldsName, length-name_bytes, padded-name_bytes};

    ghost view = { name_bytes };

    ghost invariant = { HoldsName };

    ghost inverse = { λ s. record { len = length s; bytes = padded s } };

    ghost inverse_ok = { λ a h i. record {
      len = length-name_bytes a h.padded i;
      bytes = padded-name_bytes a h.padded i;
    } };
}

impl PartialEq for Name {
    ghost use Rattle.std.specs.Str.{bytes_eq};
    ghost use Rattle.std.specs.Cmp.{partial_equiv_from_equiv};
    ghost use Rattle.std.proofs.lemmas.Cmp.{nat_list_eq_equiv};

    ghost eq = { bytes_eq };

    ghost laws = { partial_equiv_from_equiv nat_list_eq_equiv };

    fn eq(&self, other: &Name) -> bool {
        self.as_bytes() == other.as_bytes()
    }
}

impl Eq for Name {
    ghost use Rattle.std.proofs.lemmas.Cmp.{nat_list_eq_equiv};

    ghost laws = { nat_list_eq_equiv };
}

impl Hash for Name {
    ghost use Rattle.std.specs.Hash as fed;
    ghost use Rattle.std.specs.Cmp.Rules.{hashing};
    ghost use Rattle.std.proofs.Common.{rules};

    ghost hash_input = { fed.slice fed.u8 };

    ghost respects_eq = { Prim.search (hashing, rules) };

    fn hash<H: Hasher>(&self, state: &mut H) {
        self.as_bytes().hash(state);
    }
}

impl Name {
    /// The name that a word spells, in any case: its letters are made small. None for what is no
    /// word, for more than 30 bytes, and for a keyword.
    pub fn read(word: &[u8]) -> Option<Name>
        ensures { result ≡ name_of word.now }
    {
        if word.len() > MAX_NAME || !is_word(word) {
            return None;
        }
        match Word::read(word) {
            Word::Keyword(_) => None,
            Word::Name(name) => Some(name),
        }
    }

    /// The name that a word spells which is no keyword and has at most 30 bytes.
    pub(crate) fn of_word(word: &[u8]) -> Name
        requires { is_name word.now ≡ true }
        ensures { result ≡ folded word.now }
    {
        let mut bytes = [0; MAX_NAME];
        for at in 0..word.len() {
            bytes[at] = word[at].to_ascii_lowercase();
        }
        Name {
            len: word.len() as u8,
            bytes,
        }
    }

    /// The bytes of the name, in small letters.
    pub fn as_bytes(&self) -> &[u8]
        ensures value { result.now ≡ self.now }
        ensures name { IsName self.now }
    {
        &self.bytes[..self.len as usize]
    }
}

/// A user, by name.
#[derive(Clone, Copy, Debug, PartialEq, Eq)]
pub struct User(pub Name);

impl Named for User {
    ghost name_of = { λ u. u.0 };

    fn name(&self) -> Name {
        self.0
    }
}
