//! Bodies cut off by the lengths before them.
ghost use Rattle.std.specs.Prelude.{◌≡◌, ◌+◌, ◌≤◌, ◌<◌, ◌^◌};
ghost use Rattle.messages_core.specs.Cutting.{cut_of};

use crate::bytes::Bytes;
use crate::fields::{bytes_at, int32_at};

/// The bytes of a length, which counts itself.
const LENGTH_BYTES: usize = 4;

/// What a length cuts off.
#[derive(Drop)]
pub enum Cut<'a> {
    /// The whole body, and what is behind it.
    Whole { body: Bytes<'a>, rest: Bytes<'a> },
    /// Not all of it has come.
    Part,
    /// The length is none of such a body.
    Faulty,
}

/// Cuts off the body of at least and at most so many bytes that follows its length.
pub fn body_at(bytes: &[u8], least: usize, most: usize) -> Cut<'_>
    requires least { least ≤ most }
    requires most { most + 4 < 2 ^ 31 }
    ensures { result ≡ cut_of least most bytes.now }
{
    let Some((length, behind)) = int32_at(bytes) else {
        return Cut::Part;
    };
    let length = length as usize;
    if length < LENGTH_BYTES + least || LENGTH_BYTES + most < length {
        return Cut::Faulty;
    }
    let Some((body, rest)) = bytes_at(behind, length - LENGTH_BYTES) else {
        return Cut::Part;
    };
    let (body, rest) = (Bytes::new(body), Bytes::new(rest));
    Cut::Whole { body, rest }
}
