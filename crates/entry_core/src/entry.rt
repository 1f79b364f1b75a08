//! How a client comes in that has named a user.
ghost use Rattle.std.specs.Prelude.{◌≡◌};
ghost use Rattle.entry_core.specs.Entries.{entry_of};

use base_core::{Name, User};
use session_core::Admission;

/// How a client comes in.
#[derive(Drop)]
pub enum Entry {
    /// The session is this user's.
    Welcome(User),
    /// It has to log in as the user of this name.
    Login(Name),
    /// It may not come in.
    Refused,
}

/// How a client comes in that has named this user, if it has named any: where anyone is who he says he is
/// welcome; where it is known who he is, if it is he; and otherwise he has to log in. Who names nobody may not
/// come in.
pub fn entry_of(admission: &Admission, name: Option<Name>) -> Entry
    ensures { result ≡ entry_of admission.now name }
{
    let Some(name) = name else {
        return Entry::Refused;
    };
    match admission {
        Admission::Anyone => Entry::Welcome(User(name)),
        Admission::Known(user) if user.0 == name => Entry::Welcome(*user),
        Admission::Known(_) => Entry::Refused,
        Admission::Login { .. } => Entry::Login(name),
    }
}
