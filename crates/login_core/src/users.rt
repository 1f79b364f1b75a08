//! Users, and what is kept of each.
ghost use Rattle.std.specs.Prelude.{◌≡◌, ◌+◌, ◌++◌, ◌∷◌, [], ℕ, List, length, None, MatchOption, OnOk, IfOk, IfErr};
ghost use Rattle.std.specs.Option.{option_copied};
ghost use Rattle.base_core.specs.declared.name.Name.{Name as NameValue};
ghost use Rattle.login_core.specs.declared.verifier.Verifier.{Verifier as Kept};
ghost use Rattle.login_core.specs.Users.{verifier_of, SaysUser, AddsUser, IsRefusedBehind};

use crate::user::{UserLine, read_user};
use crate::users_fault::{UsersFault, WrongLine};
use crate::verifier::Verifier;
use base_core::Name;
use indexmap::IndexMap;
use std::alloc::{AllocError, Global};
use std::marker::Model;

/// How many users a file has at most.
const MOST_USERS: usize = 10_000;

/// Users, with what is kept of each, looked up by a hash of the name. Contracts see the list of them, in
/// the order of their file.
#[derive(Drop)]
pub struct Users {
    alloc: Global,
    verifiers: IndexMap<Name, Verifier>,
}

impl Model for Users {
    ghost use Rattle.login_core.specs.Users.{Users};

    ghost Value = { Users };

    ghost view = { λ u. u.verifiers.entries };
}

/// The user of a line, if it is one.
fn user_of(alloc: Global, line: &[u8]) -> Result<Option<(Name, Verifier)>, AllocError>
    ensures { IfOk result (λ o. MatchOption o
        ((user : NameValue × Kept) → SaysUser line.now user → ⊥)
        (λ user. SaysUser line.now user)) }
{
    let Some(UserLine { name, verifier }) = read_user(alloc, line)? else {
        return Ok(None);
    };
    let Some(name) = Name::read(name) else {
        return Ok(None);
    };
    Ok(Some((name, verifier)))
}

impl Users {
    /// No users.
    pub(crate) fn new(alloc: Global) -> Users
        ensures { result ≡ [] }
    {
        Users {
            alloc,
            verifiers: IndexMap::new(alloc),
        }
    }

    /// What is kept of the user of this name. None where there is no such user.
    pub fn find(&self, name: Name) -> Option<&Verifier>
        ensures { option_copied result ≡ verifier_of self.now name }
    {
        self.verifiers.get(&name)
    }

    /// How many users there are.
    pub fn len(&self) -> usize
        ensures { result ≡ length self.now }
    {
        self.verifiers.len()
    }

    /// Why the line behind those of the users is wrong.
    fn wrong(&self, why: WrongLine) -> UsersFault
        ensures { result ≡ UsersFault.Line (length self.now + 1) why }
    {
        UsersFault::Line {
            number: self.verifiers.len() as u64 + 1,
            why,
        }
    }

    /// Adds a user behind those that there are, if none of them has his name.
    fn enter(&mut self, user: (Name, Verifier)) -> Result<(), UsersFault>
        ensures ok { OnOk result ((verifier_of self.old user.0 ≡ None)
            × (self.new ≡ self.old ++ user ∷ [])) }
        ensures err { IfErr result (λ fault. (line : List ℕ) → SaysUser line user
            → IsRefusedBehind self.old line fault) }
    {
        let (name, verifier) = user;
        if self.find(name).is_some() {
            return Err(self.wrong(WrongLine::Twice));
        }
        match self.verifiers.insert(name, verifier) {
            Ok(_) => Ok(()),
            Err(_) => Err(UsersFault::NoMemory),
        }
    }

    /// Adds the user of a line, behind those that there are.
    pub(crate) fn add(&mut self, line: &[u8]) -> Result<(), UsersFault>
        ensures ok { OnOk result ((user : NameValue × Kept) × AddsUser self.old line.now user
            × (self.new ≡ self.old ++ user ∷ [])) }
        ensures err { IfErr result (IsRefusedBehind self.old line.now) }
    {
        if self.verifiers.len() >= MOST_USERS {
            return Err(self.wrong(WrongLine::TooMany));
        }
        let Ok(user) = user_of(self.alloc, line) else {
            return Err(UsersFault::NoMemory);
        };
        match user {
            Some(user) => self.enter(user),
            None => Err(self.wrong(WrongLine::NoUser)),
        }
    }
}
