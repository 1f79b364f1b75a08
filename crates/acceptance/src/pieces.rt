//! A reader that gives little at a time, and fails.
ghost use Rattle.std.specs.Prelude.{◌≡◌, false};

use base_core::{Broken, Source};

/// A reader that gives a few bytes at a time, and fails at some read.
#[derive(Drop)]
pub struct Pieces<'a> {
    bytes: &'a [u8],
    size: usize,
    pub good_reads: usize,
    pub most_asked: usize,
    pub failed: bool,
}

impl<'a> Pieces<'a> {
    pub fn new(bytes: &'a [u8], size: usize, good_reads: usize) -> Pieces<'a>
        ensures { result.failed ≡ false }
    {
        Pieces {
            bytes,
            size,
            good_reads,
            most_asked: 0,
            failed: false,
        }
    }
}

impl Source for Pieces<'_> {
    ghost use Rattle.std.specs.Prelude.{Some};

    ghost failed = { λ s. s.failed };

    ghost left = { λ s. Some s.bytes.now };

    fn read(&mut self, into: &mut [u8]) -> Result<usize, Broken> {
        if self.good_reads == 0 {
            self.failed = true;
            return Err(Broken);
        }
        self.good_reads -= 1;
        self.most_asked = self.most_asked.max(into.len());
        let n = into.len().min(self.bytes.len()).min(self.size.max(1));
        let (front, behind) = self.bytes.split_at(n);
        into[..n].copy_from_slice(front);
        self.bytes = behind;
        Ok(n)
    }
}
