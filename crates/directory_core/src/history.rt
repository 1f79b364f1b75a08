//! All that a folder tells of its changes, as lines.
ghost use Rattle.std.specs.Prelude.{All};
ghost use Rattle.std.specs.Io.{ReadsAtMost};
ghost use Rattle.directory_core.specs.Small.{IsSmall};

use crate::listing::{dumps_of, names_in, pieces_of, resumes_of};
use crate::names::FileName;
use crate::scanning::{Front, front_of};
use folder_core::FolderFault;
use std::alloc::Global;
use std::fs;
use std::fs::File;
use std::io::{Error, ErrorKind, Read, Result, Seek, SeekFrom};

/// The whole lines of a file that are read: so many bytes from there on.
#[derive(Clone, Copy)]
struct Part {
    name: FileName,
    front: Front,
}

/// A reader of all changes of a folder, as lines: those of its pieces, if they are all there; else its newest
/// dump, and the lines behind it.
#[derive(Drop)]
pub struct History {
    host: HostRuntime,
    path: String,
    parts: Vec<Part>,
    /// How many parts were opened.
    opened: usize,
    file: Option<File>,
    /// How many bytes of it are still to be read.
    left: u64,
}

/// The pieces from one point on, as far as each begins where the one before it ends.
#[derive(Drop)]
struct Chain {
    parts: Vec<Part>,
    /// Behind how many changes the next would begin.
    at: u64,
}

fn opened(
    host: &HostRuntime,
    alloc: Global,
    path: &str,
    name: FileName,
) -> std::result::Result<File, FolderFault> {
    let Ok(path) = name.path_in(alloc, path) else {
        return Err(FolderFault::NoMemory);
    };
    match fs::open(host, path.as_str()) {
        Ok(file) => Ok(file),
        Err(_) => Err(FolderFault::Broken),
    }
}

fn part_of(
    host: &HostRuntime,
    alloc: Global,
    path: &str,
    name: FileName,
    skips: u64,
) -> std::result::Result<Part, FolderFault> {
    let file = opened(host, alloc, path, name)?;
    match front_of(&file, skips) {
        Ok(front) => Ok(Part { name, front }),
        Err(_) => Err(FolderFault::Broken),
    }
}

/// The pieces from this point on, but for so many lines, behind what was read before.
fn pieces_from(
    host: &HostRuntime,
    alloc: Global,
    path: &str,
    points: &[u64],
    before: Chain,
    skips: u64,
) -> std::result::Result<Chain, FolderFault> {
    let Chain { mut parts, mut at } = before;
    let mut skips = skips;
    for _ in 0..points.len() {
        if !points.contains(&at) {
            break;
        }
        let part = part_of(host, alloc, path, FileName::Piece { point: at }, skips)?;
        if part.front.lines == 0 || parts.push(part).is_err() {
            break;
        }
        skips = skips.saturating_sub(part.front.lines);
        at = at.saturating_add(part.front.lines);
    }
    Ok(Chain { parts, at })
}

fn greatest(points: &[u64]) -> u64 {
    points.iter().copied().max().unwrap_or(0)
}

/// The newest dump, and the lines behind it.
fn behind_dump(
    host: &HostRuntime,
    alloc: Global,
    path: &str,
    names: &[FileName],
    points: &[u64],
    point: u64,
) -> std::result::Result<Chain, FolderFault> {
    let Some(resumes) = resumes_of(names, point) else {
        return Err(FolderFault::Broken);
    };
    let mut parts = Vec::new(alloc);
    let dump = part_of(host, alloc, path, FileName::Dump { point, resumes }, 0)?;
    if parts.push(dump).is_err() {
        return Err(FolderFault::NoMemory);
    }
    let before = Chain { parts, at: resumes };
    pieces_from(
        host,
        alloc,
        path,
        points,
        before,
        point.saturating_sub(resumes),
    )
}

/// What is read of a folder with these names.
fn chain_of(
    host: &HostRuntime,
    alloc: Global,
    path: &str,
    names: &[FileName],
) -> std::result::Result<Chain, FolderFault>
    requires { All IsSmall names.now }
{
    let dumps = dumps_of(alloc, names)?;
    let points = pieces_of(alloc, names)?;
    let points = points.as_slice();
    let nothing = Chain {
        parts: Vec::new(alloc),
        at: 0,
    };
    let all = pieces_from(host, alloc, path, points, nothing, 0)?;
    if all.at >= greatest(points) || dumps.is_empty() {
        return Ok(all);
    }
    behind_dump(host, alloc, path, names, points, greatest(dumps.as_slice()))
}

impl History {
    /// A reader of this folder, which a server may have open meanwhile.
    pub fn new(host: &HostRuntime, path: &str) -> std::result::Result<History, FolderFault> {
        let alloc = host.alloc();
        let names = names_in(host, alloc, path)?;
        let Chain { parts, .. } = chain_of(host, alloc, path, names.as_slice())?;
        let Ok(path) = path.to_string(alloc) else {
            return Err(FolderFault::NoMemory);
        };
        Ok(History {
            host: *host,
            path,
            parts,
            opened: 0,
            file: None,
            left: 0,
        })
    }

    /// Opens the next part, if there is one.
    fn open_next(&mut self) -> Result<bool> {
        if self.opened >= self.parts.len() {
            return Ok(false);
        }
        let part = self.parts.as_slice()[self.opened];
        self.opened += 1;
        let alloc = self.host.alloc();
        let Ok(mut file) = opened(&self.host, alloc, self.path.as_str(), part.name) else {
            return Err(Error::from(ErrorKind::NotFound));
        };
        file.seek(SeekFrom::Start(part.front.from))?;
        self.left = part.front.to.saturating_sub(part.front.from);
        self.file = Some(file);
        Ok(true)
    }

    /// Reads some bytes of the part that is open.
    fn read_part(&mut self, buf: &mut [u8]) -> Result<usize>
        ensures { ReadsAtMost result buf.new }
    {
        let Some(file) = &mut self.file else {
            return Ok(0);
        };
        let most = if self.left < buf.len() as u64 {
            self.left as usize
        } else {
            buf.len()
        };
        let count = file.read(&mut buf[..most])?;
        self.left = self.left.saturating_sub(count as u64);
        Ok(count)
    }
}

impl Read for History {
    ghost use Rattle.std.specs.Prelude.{None};

    // Of a folder nothing is known.
    ghost remaining = { λ _. None };

    fn read(&mut self, buf: &mut [u8]) -> Result<usize> {
        if buf.is_empty() {
            return Ok(0);
        }
        for _ in 0..u64::MAX {
            let count = self.read_part(buf)?;
            if count > 0 {
                return Ok(count);
            }
            if !self.open_next()? {
                return Ok(0);
            }
        }
        Ok(0)
    }
}
