//! Users, each once.
ghost use Rattle.std.specs.Prelude.{◌≡◌, [], IfOk, OnOk};
ghost use Rattle.std.specs.List.{list_any};
ghost use Rattle.base_core.specs.Users.{same_user};
ghost use Rattle.base_core.specs.declared.name.User.{User as all_users};
ghost use Rattle.explain_core.specs.Listed.{AreSeen, with_user};

use base_core::{Name, NoMemory, User};
use indexmap::IndexMap;
use std::alloc::Global;

/// These users, each once. `NoMemory` where a request for memory was refused.
pub fn users_of(alloc: Global, users: &[User]) -> Result<Users, NoMemory>
    ensures seen { IfOk result AreSeen }
    ensures same { IfOk result (λ made. (user : all_users)
        → list_any (λ v. same_user v user) made.listed.items
        ≡ list_any (λ v. same_user v user) users.now) }
{
    let mut made = Users::new(alloc);
    for user in users {
        let Ok(()) = made.add(user) else {
            drop(made);
            return Err(NoMemory);
        };
    }
    Ok(made)
}

/// Users, each once, in the order in which they were first added.
#[derive(Drop)]
pub struct Users {
    pub listed: Vec<User>,
    /// The names of the same.
    pub seen: IndexMap<Name, ()>,
}

impl Users {
    /// Nobody.
    pub fn new(alloc: Global) -> Users
        ensures listed { result.listed.items ≡ [] }
        ensures seen { AreSeen result }
    {
        Users {
            listed: Vec::new(alloc),
            seen: IndexMap::new(alloc),
        }
    }

    /// Whether the user is among them.
    pub fn has(&self, user: &User) -> bool
        requires { AreSeen self.now }
        ensures { result ≡ list_any (λ v. same_user v user.now) self.now.listed.items }
    {
        self.seen.get(&user.0).is_some()
    }

    /// Adds the user, if he is not among them. `NoMemory` where a request for memory was refused.
    pub fn add(&mut self, user: &User) -> Result<(), NoMemory>
        requires { AreSeen self.old }
        ensures seen { OnOk result (AreSeen self.new) }
        ensures listed { OnOk result
            (self.new.listed.items ≡ with_user user.now self.old.listed.items) }
    {
        if self.seen.get(&user.0).is_none() {
            self.seen.insert(user.0, ())?;
            self.listed.push(*user)?;
        }
        Ok(())
    }
}
