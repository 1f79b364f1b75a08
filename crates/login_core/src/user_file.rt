//! The users of a file.
ghost use Rattle.std.specs.Prelude.{ℕ, List, IfOk, IfErr};
ghost use Rattle.login_core.specs.Users.{SayUsers, IsRefused};

use crate::decoding::cut;
use crate::users::Users;
use crate::users_fault::UsersFault;
use std::alloc::Global;

const LINE_FEED: u8 = b'\n';

/// The users of a file, as it was read.
#[derive(Drop)]
pub struct UserFile {
    /// The users, in the order of the file.
    pub users: Users,
    ghost said: { ∥ ((text : List ℕ) × SayUsers text users) ∥₁ },
}

/// The users of a file. Each of its lines is `ann:SCRAM-SHA-256$4096:<salt>$<StoredKey>:<ServerKey>`: a name,
/// as statements have it, in any case, a colon, and what PostgreSQL has in `rolpassword` of `pg_authid`. No
/// line is left out, and no user has two. There may be none. The line feed behind the last line may be left
/// out; there is no carriage return. A file has at most 10,000 lines.
///
/// - `Line` with the number of the first line that is wrong, and what is wrong with it.
/// - `NoMemory` where a request for memory was refused.
pub fn read_users(alloc: Global, text: &[u8]) -> Result<UserFile, UsersFault>
    ensures users { IfOk result (λ file. SayUsers text.now file.users) }
    ensures refused { IfErr result (IsRefused text.now) }
{
    let mut users = Users::new(alloc);
    let mut rest = text;
    while let Some((line, behind)) = cut(rest, LINE_FEED) {
        users.add(line)?;
        rest = behind;
    }
    if rest.is_empty() {
        return Ok(UserFile { users });
    }
    users.add(rest)?;
    Ok(UserFile { users })
}
