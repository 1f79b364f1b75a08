//! Whether the dump of an image can be loaded again.
ghost use Rattle.std.specs.Prelude.{◌≡◌, ◌≤◌, true, length};
ghost use Rattle.dump_core.specs.Dump.{dump_of_image};

use capture_core::Image;

/// Whether the image's tables, rows and grants are at most so many: then its dump has at most so many
/// statements.
pub fn fits(image: &Image, most: u64) -> bool
    ensures { result ≡ true → length (dump_of_image image.now) ≤ most }
{
    let mut left = most;
    for table in image.tables.as_slice() {
        let rows = table.rows.len() as u64;
        if rows >= left {
            return false;
        }
        left -= rows + 1;
    }
    image.grants.len() as u64 <= left
}
