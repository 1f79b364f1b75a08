//! The client's first message.
ghost use Rattle.std.specs.Prelude.{◌≡◌, ◌≢◌, ◌++◌, ℕ, List, MatchOption};
ghost use Rattle.std.specs.List.{list_all};
ghost use Rattle.login_core.specs.ClientFirst.{is_nonce_byte, SaysBare, IsNoBare, IsHeader, SaysFirst, IsNoFirst};

use crate::decoding::cut;

/// What the client's first message says.
#[derive(Clone, Copy, Drop)]
pub(crate) struct ClientFirst<'a> {
    /// The header in base64, as the client's last message has to repeat it behind `c=`.
    pub channel_binding: &'static [u8],
    /// `client-first-message-bare`: the message without its header.
    pub bare: &'a [u8],
    /// The client's nonce.
    pub nonce: &'a [u8],
}

/// Whether a byte may stand in a nonce: `printable` of RFC 5802, section 7.
fn is_nonce_byte(byte: u8) -> bool
    ensures { result ≡ is_nonce_byte byte }
{
    byte > b' ' && byte < 127 && byte != b','
}

/// Whether each byte may stand in a nonce.
fn is_nonce(bytes: &[u8]) -> bool
    ensures { result ≡ list_all is_nonce_byte bytes.now }
{
    bytes.iter().all(|byte| is_nonce_byte(*byte))
}

/// The nonce behind a name, or none where the bytes are no `client-first-message-bare`.
fn nonce(bare: &[u8]) -> Option<&[u8]>
    ensures { MatchOption result (IsNoBare bare.now) (λ n. SaysBare bare.now n.now) }
{
    let named = bare.strip_prefix(b"n=")?;
    let (_name, behind) = cut(named, b',')?;
    let nonce = behind.strip_prefix(b"r=")?;
    if nonce.is_empty() {
        return None;
    }
    if !is_nonce(nonce) {
        return None;
    }
    Some(nonce)
}

/// The header in base64, and what stands behind it.
fn behind_header(message: &[u8]) -> Option<(&'static [u8], &[u8])>
    ensures { MatchOption result
        ((header channel_binding bare : List ℕ) → IsHeader header channel_binding
        → message.now ≢ header ++ bare)
        (λ p. (header : List ℕ) × IsHeader header p.0.now × (message.now ≡ header ++ p.1.now)) }
{
    if let Some(bare) = message.strip_prefix(b"n,,") {
        return Some((b"biws".as_slice(), bare));
    }
    let bare = message.strip_prefix(b"y,,")?;
    Some((b"eSws".as_slice(), bare))
}

/// What the message says, if it is a client's first one (RFC 5802, section 7) that binds no channel and
/// names no other identity: its header is `n,,` or `y,,`. None comes exactly where it is no such message.
/// The name behind `n=` is any bytes without a comma, and is not looked at; an extension is not taken.
pub(crate) fn read_first(message: &[u8]) -> Option<ClientFirst<'_>>
    ensures { MatchOption result (IsNoFirst message.now)
        (λ f. SaysFirst message.now f.channel_binding.now f.bare.now f.nonce.now) }
{
    let (channel_binding, bare) = behind_header(message)?;
    let nonce = nonce(bare)?;
    Some(ClientFirst {
        channel_binding,
        bare,
        nonce,
    })
}
