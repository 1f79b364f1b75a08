//! Texts of rows.
ghost use Rattle.std.specs.Prelude.{◌≡◌, ◌≤◌, All, IfOk, length};
ghost use Rattle.base_core.specs.Texts.{IsText};
ghost use Rattle.base_core.specs.Held.{held_bytes, FitsInPlace};

use crate::memory::{NoMemory, Twin};
use std::alloc::{AllocError, Global};
use std::marker::Model;
use std::sync::Arc;

/// The most bytes of a text that stand in the value itself.
const MAX_SHORT: usize = 14;

/// Short texts take no memory, and long ones stand on the heap once for all copies.
#[derive(Drop)]
enum Held {
    Short { len: u8, bytes: [u8; MAX_SHORT] },
    Long(Arc<Vec<u8>>),
}

/// At most 1,024 bytes of UTF-8 with no control character (U+0000 to U+001F, U+007F to U+009F).
/// Contracts see its bytes.
#[derive(Drop)]
pub struct Text {
    held: Held,
}

impl Model for Text {
    ghost use Rattle.std.specs.Prelude.{ℕ, List};
    ghost use Rattle.base_core.specs.Texts.{IsText};
    ghost use Rattle.base_core.specs.Held.{held_bytes, FitsInPlace};

    ghost Value = { List ℕ };

    ghost view = { λ t. held_bytes t.held };

    ghost invariant = { λ t. FitsInPlace t.held × IsText (held_bytes t.held) };
}

impl Held {
    /// These bytes, in the value itself.
    fn short(text: &[u8]) -> Held
        requires { length text.now ≤ 14 }
        ensures within { FitsInPlace result }
        ensures bytes { held_bytes result ≡ text.now }
    {
        let mut bytes = [0; MAX_SHORT];
        bytes[..text.len()].copy_from_slice(text);
        Held::Short {
            len: text.len() as u8,
            bytes,
        }
    }

    /// These bytes, on the heap.
    fn long(alloc: Global, text: &[u8]) -> Result<Held, AllocError>
        ensures within { IfOk result (λ held. FitsInPlace held) }
        ensures bytes { IfOk result (λ held. held_bytes held ≡ text.now) }
    {
        let bytes = Vec::from_slice(alloc, text)?;
        Ok(Held::Long(Arc::new(alloc, bytes)?))
    }

    fn as_bytes(&self) -> &[u8]
        requires { FitsInPlace self.now }
        ensures { result.now ≡ held_bytes self.now }
    {
        match self {
            Held::Short { len, bytes } => &bytes[..*len as usize],
            Held::Long(bytes) => bytes.as_slice(),
        }
    }
}

impl Text {
    /// The text of these bytes. It takes memory for more than 14 of them.
    pub fn from_bytes(alloc: Global, bytes: &[u8]) -> Result<Text, AllocError>
        requires { IsText bytes.now }
        ensures { IfOk result (λ text. text ≡ bytes.now) }
    {
        let held = if bytes.len() <= MAX_SHORT {
            Held::short(bytes)
        } else {
            Held::long(alloc, bytes)?
        };
        Ok(Text { held })
    }

    /// The text.
    pub fn as_str(&self) -> &str
        ensures value { result.now ≡ self.now }
        ensures text { IsText self.now }
    {
        match str::from_utf8(self.held.as_bytes()) {
            Ok(text) => text,
            Err(_) => unreachable!(),
        }
    }

    /// The bytes, of which none is below 32.
    pub fn as_bytes(&self) -> &[u8]
        ensures value { result.now ≡ self.now }
        ensures text { IsText self.now }
        ensures printable { All (λ b. 32 ≤ b) self.now }
    {
        self.held.as_bytes()
    }
}

impl PartialEq for Text {
    ghost use Rattle.std.specs.Str.{bytes_eq};
    ghost use Rattle.std.specs.Cmp.{partial_equiv_from_equiv};
    ghost use Rattle.std.proofs.lemmas.Cmp.{nat_list_eq_equiv};

    ghost eq = { bytes_eq };

    ghost laws = { partial_equiv_from_equiv nat_list_eq_equiv };

    fn eq(&self, other: &Text) -> bool {
        self.as_bytes() == other.as_bytes()
    }
}

impl Eq for Text {
    ghost use Rattle.std.proofs.lemmas.Cmp.{nat_list_eq_equiv};

    ghost laws = { nat_list_eq_equiv };
}

/// A copy takes no memory.
impl Twin for Text {
    fn try_twin(&self) -> Result<Text, NoMemory> {
        let held = match &self.held {
            Held::Short { len, bytes } => Held::Short {
                len: *len,
                bytes: *bytes,
            },
            Held::Long(bytes) => Held::Long(Arc::try_clone(bytes)?),
        };
        Ok(Text { held })
    }
}
