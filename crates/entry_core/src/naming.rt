//! Whom a client's first message names.
ghost use Rattle.std.specs.Prelude.{◌≡◌};
ghost use Rattle.entry_core.specs.Naming.{user_named};

use base_core::Name;
use messages_core::Parameters;

/// The user whom the parameters of a start name: the value of the first of them that is called `user`, in
/// letters of any case. None where there is none, or where its value is no name (see [`Name::read`]).
pub fn user_named(parameters: &Parameters<'_>) -> Option<Name>
    ensures { result ≡ user_named parameters.now }
{
    for (name, value) in parameters.iter() {
        if name == b"user".as_slice() {
            return Name::read(value);
        }
    }
    None
}
