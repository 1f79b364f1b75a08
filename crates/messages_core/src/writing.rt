//! Fields of messages, and messages made of them, written without memory for the whole.
ghost use Rattle.std.specs.Prelude.{◌≡◌, ◌+◌, ◌<◌, ◌^◌, ◌∷◌, ◌++◌, ℕ, List, false, length, flat_map};
ghost use Rattle.base_core.specs.Streams.{MayWriteText};
ghost use Rattle.messages_core.specs.Fields.{counted_items, int16, int32, sized};

use base_core::{Broken, Sink, write_all};

/// What stands in a message.
pub trait Field {
    // Its bytes.
    ghost spelled: { Self → List ℕ };

    /// How many bytes it has.
    fn size(&self) -> usize
        requires { length (spelled self.now) < 2 ^ 31 }
        ensures { result ≡ length (spelled self.now) };

    /// Writes its bytes.
    fn write<W: Sink>(&self, writer: &mut W) -> Result<(), Broken>
        requires works { W.failed writer.old ≡ false }
        requires short { length (spelled self.now) < 2 ^ 31 }
        ensures { MayWriteText W.failed W.taken (spelled self.now) result writer.old writer.new };
}

impl Field for &[u8] {
    ghost spelled = { λ bytes. bytes.now };

    fn size(&self) -> usize {
        self.len()
    }

    fn write<W: Sink>(&self, writer: &mut W) -> Result<(), Broken> {
        write_all(writer, self)
    }
}

/// How many bytes the fields have.
fn size_of_all<F: Field>(fields: &[F]) -> usize
    requires { length (flat_map F.spelled fields.now) < 2 ^ 31 }
    ensures { result ≡ length (flat_map F.spelled fields.now) }
{
    let mut size = 0usize;
    for field in fields {
        size += field.size();
    }
    size
}

fn write_fields<F: Field, W: Sink>(fields: &[F], writer: &mut W) -> Result<(), Broken>
    requires works { W.failed writer.old ≡ false }
    requires short { length (flat_map F.spelled fields.now) < 2 ^ 31 }
    ensures { MayWriteText W.failed W.taken (flat_map F.spelled fields.now)
        result writer.old writer.new }
{
    for field in fields {
        field.write(writer)?;
    }
    Ok(())
}

/// The type of a message, and its length.
fn header(byte: u8, length: u32) -> [u8; 5]
    ensures { result ≡ byte ∷ int32 length }
{
    let [a, b, c, d] = length.to_be_bytes();
    [byte, a, b, c, d]
}

/// The type of a message, its length, and how many fields it has.
pub fn counted_header(byte: u8, length: u32, count: u16) -> [u8; 7]
    ensures { result ≡ byte ∷ (int32 length ++ int16 count) }
{
    let [a, b, c, d] = length.to_be_bytes();
    let [e, f] = count.to_be_bytes();
    [byte, a, b, c, d, e, f]
}

/// Writes the type of a message, its length, and the fields.
pub fn write_plain<F: Field, W: Sink>(byte: u8, fields: &[F], writer: &mut W) -> Result<(), Broken>
    requires works { W.failed writer.old ≡ false }
    requires short { length (flat_map F.spelled fields.now) + 6 < 2 ^ 31 }
    ensures { MayWriteText W.failed W.taken (byte ∷ sized (flat_map F.spelled fields.now))
        result writer.old writer.new }
{
    let length = 4 + size_of_all(fields) as u32;
    write_all(writer, &header(byte, length))?;
    write_fields(fields, writer)
}

/// Writes the type of a message, its length, how many fields there are, and the fields.
pub fn write_counted<F: Field, W: Sink>(
    byte: u8,
    fields: &[F],
    writer: &mut W,
) -> Result<(), Broken>
    requires works { W.failed writer.old ≡ false }
    requires few { length fields.now < 2 ^ 16 }
    requires short { length (flat_map F.spelled fields.now) + 6 < 2 ^ 31 }
    ensures { MayWriteText W.failed W.taken (byte ∷ sized (counted_items F.spelled fields.now))
        result writer.old writer.new }
{
    let length = 6 + size_of_all(fields) as u32;
    write_all(writer, &counted_header(byte, length, fields.len() as u16))?;
    write_fields(fields, writer)
}
