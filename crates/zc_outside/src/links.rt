// The symbolic links that begin at a name.

use crate::placed::FileId;
use crate::trouble::Trouble;
use std::alloc::{AllocError, Global};
use std::fs;
use std::io::ErrorKind;
use std::rt::Files;

// The most links that are followed; Linux has the same limit.
const LINKS: u32 = 40;

/// The name at the end of a chain of symbolic links. No file need exist under it.
pub fn link_target<R: Files + AllocGlobal>(rt: &R, name: &str) -> Result<String, Trouble> {
    let mut target = String::from_str(rt.alloc(), name)?;
    for _ in 0..LINKS {
        match fs::read_link(rt, target.as_str()) {
            Ok(text) => {
                target = name_from(rt.alloc(), target.as_str(), text.into_string().as_str())?;
            }
            Err(fault) if is_no_link(fault.kind()) => return Ok(target),
            Err(fault) => return Err(Trouble::from(fault)),
        }
    }
    Err(Trouble::System)
}

// Whether a link can't be read because the name isn't a link, or nothing exists under it.
fn is_no_link(kind: ErrorKind) -> bool {
    kind == ErrorKind::InvalidInput || kind == ErrorKind::NotFound
}

// The name that a link's text means: relative to the link's folder, or absolute.
fn name_from(alloc: Global, link: &str, text: &str) -> Result<String, AllocError> {
    match link.rsplit_once('/') {
        Some((folder, _)) if !text.starts_with('/') => format!(in alloc; "{folder}/{text}"),
        _ => String::from_str(alloc, text),
    }
}

/// Whether a name is this file itself, and no link to it.
pub fn is_named<R: Files>(rt: &R, name: &str, file: FileId) -> Result<bool, Trouble> {
    match fs::symlink_metadata(rt, name) {
        Ok(there) => Ok(FileId::of(&there).is(file)),
        Err(fault) if fault.kind() == ErrorKind::NotFound => Ok(false),
        Err(fault) => Err(Trouble::from(fault)),
    }
}
