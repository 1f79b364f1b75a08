//! What stands in the folder of a server.
ghost use Rattle.std.specs.Prelude.{◌≤◌, All, IfOk, IfSome};
ghost use Rattle.directory_core.specs.Small.{IsSmall};

use crate::names::FileName;
use folder_core::FolderFault;
use std::alloc::Global;
use std::fs;
use std::fs::read_dir;

fn no_memory<E: Drop>(_: E) -> FolderFault {
    FolderFault::NoMemory
}

fn broken<E: Drop>(_: E) -> FolderFault {
    FolderFault::Broken
}

/// The names of a server's files in this directory, in no order.
pub fn names_in(host: &HostRuntime, alloc: Global, path: &str) -> Result<Vec<FileName>, FolderFault>
    ensures { IfOk result (λ names. All IsSmall names.items) }
{
    let mut names = Vec::new(alloc);
    for entry in read_dir(host, path).map_err(broken)? {
        let entry = entry.map_err(broken)?;
        if let Some(name) = FileName::read(entry.file_name().as_bytes()) {
            names.push(name).map_err(no_memory)?;
        }
    }
    Ok(names)
}

/// The points of the dumps among them.
pub fn dumps_of(alloc: Global, names: &[FileName]) -> Result<Vec<u64>, FolderFault>
    requires { All IsSmall names.now }
    ensures { IfOk result (λ points. All (λ point. point ≤ 9999999999) points.items) }
{
    let mut points = Vec::new(alloc);
    for name in names {
        if let FileName::Dump { point, .. } = name {
            points.push(*point).map_err(no_memory)?;
        }
    }
    Ok(points)
}

/// The points of the pieces among them.
pub fn pieces_of(alloc: Global, names: &[FileName]) -> Result<Vec<u64>, FolderFault>
    requires { All IsSmall names.now }
    ensures { IfOk result (λ points. All (λ point. point ≤ 9999999999) points.items) }
{
    let mut points = Vec::new(alloc);
    for name in names {
        if let FileName::Piece { point } = name {
            points.push(*point).map_err(no_memory)?;
        }
    }
    Ok(points)
}

/// The piece with which the dump of this point resumes, if there is one among them.
pub fn resumes_of(names: &[FileName], wanted: u64) -> Option<u64> {
    for name in names {
        match name {
            FileName::Dump { point, resumes } if *point == wanted => return Some(*resumes),
            _ => {}
        }
    }
    None
}

/// How many bytes the pieces in this directory have, as far as the system says it.
pub fn bytes_of_pieces(host: &HostRuntime, path: &str) -> u64 {
    let alloc = host.alloc();
    let Ok(names) = names_in(host, alloc, path) else {
        return 0;
    };
    let mut bytes: u64 = 0;
    for &name in names.as_slice() {
        if let FileName::Piece { .. } = name {
            bytes = bytes.saturating_add(bytes_of(host, alloc, path, name));
        }
    }
    bytes
}

fn bytes_of(host: &HostRuntime, alloc: Global, folder: &str, name: FileName) -> u64 {
    let Ok(path) = name.path_in(alloc, folder) else {
        return 0;
    };
    match fs::metadata(host, path.as_str()) {
        Ok(metadata) => metadata.len(),
        Err(_) => 0,
    }
}
