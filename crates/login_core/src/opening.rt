//! The line that begins a login.
ghost use Rattle.std.specs.Prelude.{MatchOption};
ghost use Rattle.login_core.specs.Login.{Opening, IsNoOpening};

use crate::client_first::{ClientFirst, read_first};
use crate::decoding::cut;
use base_core::Name;

/// Who the client is to be, and its first message.
#[derive(Clone, Copy, Drop)]
pub(crate) struct Opened<'a> {
    pub user: Name,
    pub first: ClientFirst<'a>,
}

/// What a line says that begins a login: `LOGIN ann` and the client's first message. None comes exactly
/// where it begins none.
pub(crate) fn read_opening(line: &[u8]) -> Option<Opened<'_>>
    ensures { MatchOption result (IsNoOpening line.now) (λ o. Opening line.now o.user
        o.first.channel_binding.now o.first.bare.now o.first.nonce.now) }
{
    let named = line.strip_prefix(b"LOGIN ")?;
    let (word, message) = cut(named, b' ')?;
    let user = Name::read(word)?;
    let first = read_first(message)?;
    Some(Opened { user, first })
}
