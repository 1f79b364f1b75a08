//! The names of a server's files.
ghost use Rattle.std.specs.Prelude.{◌≤◌, IfSome};
ghost use Rattle.directory_core.specs.Small.{IsSmall};

use std::alloc::{AllocError, Global};

// How many digits a number has in a name.
const DIGITS: usize = 10;

/// What a file of a server's folder is, by its name.
#[derive(Clone, Copy)]
pub enum FileName {
    /// A dump of the first so many changes, which resumes with that piece.
    Dump { point: u64, resumes: u64 },
    /// The piece of the journal that begins behind so many changes.
    Piece { point: u64 },
}

/// The number that these digits say, ten of them.
fn number_of(digits: &[u8]) -> Option<u64>
    ensures { IfSome result (λ number. number ≤ 9999999999) }
{
    if digits.len() != DIGITS || !digits.iter().all(u8::is_ascii_digit) {
        return None;
    }
    let number = str::from_utf8(digits).ok()?.parse::<u64>().ok()?;
    if number > 9_999_999_999 {
        return None;
    }
    Some(number)
}

impl FileName {
    /// What a file of this name is, if it is one of a server's.
    pub fn read(name: &[u8]) -> Option<FileName>
        ensures { IfSome result IsSmall }
    {
        if let Some(digits) = name.strip_prefix(b"journal-") {
            let point = number_of(digits)?;
            return Some(FileName::Piece { point });
        }
        let digits = name.strip_prefix(b"dump-")?;
        if digits.len() != 2 * DIGITS + 1 || digits[DIGITS] != b'-' {
            return None;
        }
        let point = number_of(&digits[..DIGITS])?;
        let resumes = number_of(&digits[DIGITS + 1..])?;
        Some(FileName::Dump { point, resumes })
    }

    /// Its path in this folder. `AllocError` where there was no memory for it.
    pub fn path_in(self, alloc: Global, folder: &str) -> Result<String, AllocError> {
        match self {
            FileName::Dump { point, resumes } => {
                format!(in alloc; "{folder}/dump-{point:010}-{resumes:010}")
            }
            FileName::Piece { point } => format!(in alloc; "{folder}/journal-{point:010}"),
        }
    }
}

/// The path in this folder of a dump that is not finished.
pub fn unfinished_in(alloc: Global, folder: &str) -> Result<String, AllocError> {
    format!(in alloc; "{folder}/dump.new")
}
