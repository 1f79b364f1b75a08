//! The whole lines of a file.

use lines_core::Steady;
use std::fs::File;
use std::io::{Read, Result};

// How many bytes are read at once.
const PIECE: usize = 8192;

/// The whole lines of a file, and where those behind its first so many stand in it.
#[derive(Clone, Copy)]
pub struct Front {
    /// How many whole lines it has.
    pub lines: u64,
    pub from: u64,
    pub to: u64,
}

/// What was seen of a file so far.
#[derive(Drop)]
struct Scan {
    at: u64,
    /// Behind how many lines it begins.
    skips: u64,
    front: Front,
}

impl Scan {
    fn note(&mut self, bytes: &[u8]) {
        for &byte in bytes {
            self.at = self.at.saturating_add(1);
            if byte == b'\n' {
                self.front.lines = self.front.lines.saturating_add(1);
                self.front.to = self.at;
                if self.front.lines <= self.skips {
                    self.front.from = self.at;
                }
            }
        }
    }
}

/// Looks for the whole lines of the file behind its first so many. What stands behind its last line feed is
/// none.
pub fn front_of(file: &File, skips: u64) -> Result<Front> {
    let mut reader = Steady::new(file);
    let mut scan = Scan {
        at: 0,
        skips,
        front: Front {
            lines: 0,
            from: 0,
            to: 0,
        },
    };
    let mut buffer = [0; PIECE];
    for _ in 0..u64::MAX {
        let count = reader.read(&mut buffer)?;
        if count == 0 {
            break;
        }
        scan.note(&buffer[..count]);
    }
    Ok(scan.front)
}
