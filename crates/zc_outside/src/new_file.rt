// Replacing a file of the system by a new one that is renamed over it.

use crate::placed::FileId;
use crate::transfer::write_whole;
use crate::trouble::Trouble;
use std::alloc::{AllocError, Global};
use std::fs;
use std::fs::{OpenFile, OpenOptions, Permissions};
use std::io::{ErrorKind, Write};
use std::os::unix::fs::{OpenOptionsExt, PermissionsExt};
use std::rt::Files;

// The number of names that are tried for a new file.
const NAMES: u32 = 1000;

// The permissions of a file that didn't exist, before the process's umask.
const NEW_RIGHTS: u32 = 0o666;

/// Writes a new file with these permissions, renames it to `name`, and returns which file it is. If
/// that is refused, the new file is removed again, as far as the system lets it.
pub fn replace<R: Files + AllocGlobal>(
    rt: &R,
    id: u32,
    name: &str,
    bytes: &[u8],
    rights: Option<u32>,
) -> Result<FileId, Trouble> {
    let (beside, mut file) = create_beside(rt, id, name, rights)?;
    let filled = fill(&mut file, bytes, rights);
    let renamed = rename_filled(rt, filled, beside.as_str(), name);
    if renamed.is_err() {
        let _ = fs::remove_file(rt, beside.as_str());
    }
    renamed
}

// Gives a new file these permissions and fills it, and returns which file it is.
fn fill<F: OpenFile + Write>(
    file: &mut F,
    bytes: &[u8],
    rights: Option<u32>,
) -> Result<FileId, Trouble> {
    if let Some(rights) = rights {
        file.set_permissions(Permissions::from_mode(rights))?;
    }
    write_whole(file, bytes)?;
    sync(file)?;
    Ok(FileId::of(&file.metadata()?))
}

// Gives a new file that could be filled the name that it is made for.
fn rename_filled<R: Files>(
    rt: &R,
    filled: Result<FileId, Trouble>,
    beside: &str,
    name: &str,
) -> Result<FileId, Trouble> {
    let placed = filled?;
    fs::rename(rt, beside, name)?;
    Ok(placed)
}

/// Waits until an open file's data are on disk: some file systems tell only then that they couldn't store them. What has
/// no disk can't be synced, and needn't be.
pub fn sync<F: OpenFile>(file: &F) -> Result<(), Trouble> {
    match file.sync_all() {
        Err(fault) if !has_no_sync(fault.kind()) => Err(Trouble::from(fault)),
        _ => Ok(()),
    }
}

// Whether a sync was refused because such a file can't be synced.
fn has_no_sync(kind: ErrorKind) -> bool {
    kind == ErrorKind::InvalidInput || kind == ErrorKind::Unsupported
}

// Creates a new file in the folder of a name, with no more permissions than these, and returns it with its
// temporary name.
fn create_beside<R: Files + AllocGlobal>(
    rt: &R,
    id: u32,
    name: &str,
    rights: Option<u32>,
) -> Result<(String, R::File), Trouble> {
    let mut options = OpenOptions::new();
    options
        .write(true)
        .create_new(true)
        .mode(rights.unwrap_or(NEW_RIGHTS));
    for number in 0..NAMES {
        let beside = name_beside(rt.alloc(), id, name, number)?;
        match options.open(rt, beside.as_str()) {
            Ok(file) => return Ok((beside, file)),
            Err(fault) if fault.kind() == ErrorKind::AlreadyExists => {}
            Err(fault) => return Err(Trouble::from(fault)),
        }
    }
    Err(Trouble::System)
}

// A hidden name in the folder of a name, different for each process.
fn name_beside(alloc: Global, id: u32, name: &str, number: u32) -> Result<String, AllocError> {
    match name.rsplit_once('/') {
        Some((folder, _)) => format!(in alloc; "{folder}/.zcld-{id}-{number}.new"),
        None => format!(in alloc; ".zcld-{id}-{number}.new"),
    }
}
