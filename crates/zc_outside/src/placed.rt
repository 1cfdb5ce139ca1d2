// Which files of the system were put, and under which names.

ghost use Rattle.std.specs.Prelude.{◌≡◌, ◌↔◌, IsTrue, vec_capacity};

use std::fs::Metadata;
use std::os::unix::fs::MetadataExt;

/// A file by its device and its inode number, which all its names share.
#[derive(Clone, Copy)]
pub struct FileId {
    device: u64,
    number: u64,
}

impl FileId {
    /// The file that this metadata is about.
    pub fn of(there: &Metadata) -> FileId {
        FileId {
            device: there.dev(),
            number: there.ino(),
        }
    }

    /// Whether both are the same file.
    pub fn is(self, other: FileId) -> bool
        ensures { IsTrue result ↔ (self.device ≡ other.device) × (self.number ≡ other.number) }
    {
        self.device == other.device && self.number == other.number
    }
}

/// A file that was put under a name.
#[derive(Drop)]
pub struct Placed {
    pub name: String,
    pub file: FileId,
}

/// Forgets what is no longer true: which file had this name before, and which name this file had.
pub fn forget(placed: &mut Vec<Placed>, name: &str, file: FileId)
    ensures { vec_capacity placed.new ≡ vec_capacity placed.old }
{
    placed.retain(|one| one.name.as_str() != name && !one.file.is(file));
}

/// Whether this file was put under another name.
pub fn has_another_name(placed: &[Placed], name: &str, file: FileId) -> bool {
    for one in placed {
        if one.file.is(file) && one.name.as_str() != name {
            return true;
        }
    }
    false
}
