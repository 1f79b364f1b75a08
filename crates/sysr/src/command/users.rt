//! Users, as the words of a command line name them.
ghost use Rattle.std.specs.Prelude.{◌≡◌, Some, IfOk, IfSome};
ghost use Rattle.base_core.specs.Words.{name_of};
ghost use Rattle.sysr.specs.Words.{SaysUserSocket};

use crate::command::values::refused;
use base_core::{Name, User};
use clap::{ArgMatches, Error};
use std::alloc::{AllocError, Global};

/// A socket file of a user's own: whose it is, and where.
#[derive(Debug, Drop)]
pub struct UserSocketWord {
    pub user: User,
    pub path: String,
}

/// The user whom a word names, in any case. An error is clap's, where it names none.
pub fn user_of(alloc: Global, word: &str) -> Result<User, Error>
    ensures { IfOk result (λ user. name_of word.now ≡ Some user.0) }
{
    match Name::read(word.as_bytes()) {
        Some(name) => Ok(User(name)),
        None => Err(refused(alloc, word, "<USER>", "it is no name of a user")),
    }
}

/// Whose socket file is where, by a word as `ann=sockets/ann`. None, where it does not say that.
fn user_socket_of(alloc: Global, word: &str) -> Result<Option<UserSocketWord>, AllocError>
    ensures { IfOk result (λ o. IfSome o (λ s. SaysUserSocket word.now s.user s.path.bytes.items)) }
{
    let Some((name, path)) = word.split_once('=') else {
        return Ok(None);
    };
    let Some(name) = Name::read(name.as_bytes()) else {
        return Ok(None);
    };
    if path.is_empty() {
        return Ok(None);
    }
    Ok(Some(UserSocketWord {
        user: User(name),
        path: String::from_str(alloc, path)?,
    }))
}

/// The socket files of users' own that are asked for. An error is clap's, where a word names none, or
/// there was no memory.
pub fn user_sockets_of(
    alloc: Global,
    matches: &ArgMatches<'_>,
) -> Result<Vec<UserSocketWord>, Error> {
    let mut sockets = Vec::new(alloc);
    for word in matches.get_strs("user-socket").unwrap_or(&[]) {
        let Some(socket) = user_socket_of(alloc, word)? else {
            let why = "it is no user's name, `=` and a file";
            return Err(refused(alloc, word, "--user-socket <USER=FILE>", why));
        };
        sockets.push(socket)?;
    }
    Ok(sockets)
}
