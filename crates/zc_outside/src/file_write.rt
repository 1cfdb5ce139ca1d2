// Writing under a name: over what is there, by a new file if that is a regular file or nothing.

use crate::links::{is_named, link_target};
use crate::new_file::{replace, sync};
use crate::placed::{FileId, Placed, forget, has_another_name};
use crate::transfer::write_whole;
use crate::trouble::Trouble;
use std::fs;
use std::fs::{Metadata, OpenOptions};
use std::io::ErrorKind;
use std::os::unix::fs::PermissionsExt;
use std::rt::Files;

// The permission bits for reading, writing and running a file, without set-user-ID, set-group-ID and the sticky bit.
const RIGHTS: u32 = 0o777;

/// Writes a file under a name, and remembers it in `placed`. `id` is the number of this process.
///
/// If this is refused, a regular file keeps its bytes. A file of `placed` is refused under any other
/// name than its own.
pub fn put_file<R: Files + AllocGlobal>(
    rt: &R,
    id: u32,
    placed: &mut Vec<Placed>,
    name: &str,
    bytes: &[u8],
) -> Result<(), Trouble> {
    let own_name = String::from_str(rt.alloc(), name)?;
    placed.reserve(1)?;
    if let Some(file) = write_file(rt, id, placed.as_slice(), name, bytes)? {
        forget(placed, name, file);
        let name = own_name;
        let pushed = placed.push(Placed { name, file });
        return pushed.map_err(|_| Trouble::Memory);
    }
    Ok(())
}

// Writes a file, and returns which file it is if it is a regular one.
fn write_file<R: Files + AllocGlobal>(
    rt: &R,
    id: u32,
    placed: &[Placed],
    name: &str,
    bytes: &[u8],
) -> Result<Option<FileId>, Trouble> {
    match fs::metadata(rt, name) {
        Ok(there) if there.is_file() => write_over(rt, id, placed, name, bytes, &there),
        Ok(_) => write_in_place(rt, name, bytes),
        Err(fault) if fault.kind() == ErrorKind::NotFound => {
            let target = link_target(rt, name)?;
            Ok(Some(replace(rt, id, target.as_str(), bytes, None)?))
        }
        Err(fault) => Err(Trouble::from(fault)),
    }
}

// Replaces an existing regular file.
fn write_over<R: Files + AllocGlobal>(
    rt: &R,
    id: u32,
    placed: &[Placed],
    name: &str,
    bytes: &[u8],
    there: &Metadata,
) -> Result<Option<FileId>, Trouble> {
    let file = FileId::of(there);
    if has_another_name(placed, name, file) {
        return Err(Trouble::System);
    }
    let target = link_target(rt, name)?;
    // A link of the system's own, such as one in /proc to an open file that was removed, may lead to a
    // file that has no name.
    if !is_named(rt, target.as_str(), file)? {
        return write_in_place(rt, name, bytes);
    }
    let rights = there.permissions().mode() & RIGHTS;
    Ok(Some(replace(rt, id, target.as_str(), bytes, Some(rights))?))
}

// Writes to what is no regular file, such as a device or a pipe, and creates nothing.
fn write_in_place<R: Files>(rt: &R, name: &str, bytes: &[u8]) -> Result<Option<FileId>, Trouble> {
    let mut file = OpenOptions::new()
        .write(true)
        .truncate(true)
        .open(rt, name)?;
    write_whole(&mut file, bytes)?;
    sync(&file)?;
    Ok(None)
}
