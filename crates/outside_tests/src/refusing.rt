// The system's files, one call of which is refused.

use std::alloc::{Alloc, Allocator, Global};
use std::fs::{File, Files, Metadata, OpenFile, OpenOptions, Permissions};
use std::io;
use std::io::{ErrorKind, Read, Seek, SeekFrom, Write};
use std::path::PathBuf;
use std::rt::LibcRuntime;

// The numbers of the calls that may be refused.
const CREATE: u32 = 0;

const RIGHTS: u32 = 1;

const WRITE: u32 = 2;

const SYNC: u32 = 3;

const RENAME: u32 = 4;

/// The number of calls that may be refused.
pub const CALLS: u32 = 5;

/// The system's files, or one of them, except that the call with this number is refused for this reason. What a
/// store doesn't need isn't implemented.
#[derive(Drop)]
pub struct Refusing<F> {
    pub over: F,
    pub call: u32,
    pub kind: ErrorKind,
}

impl<F> Refusing<F> {
    // Passes, or refuses the call.
    fn pass(&self, call: u32) -> io::Result<()> {
        if self.call == call {
            Err(io::Error::from(self.kind))
        } else {
            Ok(())
        }
    }
}

// Methods that a store doesn't need.
fn unneeded<T>() -> io::Result<T> {
    Err(io::Error::from(ErrorKind::Unsupported))
}

impl<'a> Alloc for Refusing<&'a LibcRuntime> {
    type A = Global;

    fn alloc(&self) -> Global {
        self.over.alloc()
    }
}

impl<'a> Files for Refusing<&'a LibcRuntime> {
    type File = Refusing<File>;

    type Dir = <LibcRuntime as Files>::Dir;

    fn open_file(&self, how: &OpenOptions, path: &str) -> io::Result<Refusing<File>> {
        if how.asks_create_new() {
            self.pass(CREATE)?;
        }
        let over = self.over.open_file(how, path)?;
        Ok(Refusing {
            over,
            call: self.call,
            kind: self.kind,
        })
    }

    fn metadata(&self, path: &str) -> io::Result<Metadata> {
        self.over.metadata(path)
    }

    fn symlink_metadata(&self, path: &str) -> io::Result<Metadata> {
        self.over.symlink_metadata(path)
    }

    fn read_link<B: Allocator>(&self, alloc: B, path: &str) -> io::Result<PathBuf<B>> {
        self.over.read_link(alloc, path)
    }

    fn rename(&self, from: &str, to: &str) -> io::Result<()> {
        self.pass(RENAME)?;
        self.over.rename(from, to)
    }

    fn remove_file(&self, path: &str) -> io::Result<()> {
        self.over.remove_file(path)
    }

    fn open_dir(&self, _path: &str) -> io::Result<Self::Dir> {
        unneeded()
    }

    fn copy(&self, _from: &str, _to: &str) -> io::Result<u64> {
        unneeded()
    }

    fn create_dir(&self, _path: &str) -> io::Result<()> {
        unneeded()
    }

    fn remove_dir(&self, _path: &str) -> io::Result<()> {
        unneeded()
    }

    fn remove_dir_all<B: Allocator>(&self, _alloc: B, _path: &str) -> io::Result<()> {
        unneeded()
    }
}

impl Read for Refusing<File> {
    fn read(&mut self, buf: &mut [u8]) -> io::Result<usize> {
        self.over.read(buf)
    }
}

impl Write for Refusing<File> {
    fn write(&mut self, buf: &[u8]) -> io::Result<usize> {
        self.pass(WRITE)?;
        self.over.write(buf)
    }

    fn flush(&mut self) -> io::Result<()> {
        unneeded()
    }
}

impl Seek for Refusing<File> {
    fn seek(&mut self, _to: SeekFrom) -> io::Result<u64> {
        unneeded()
    }
}

impl OpenFile for Refusing<File> {
    fn metadata(&self) -> io::Result<Metadata> {
        self.over.metadata()
    }

    fn sync_all(&self) -> io::Result<()> {
        self.pass(SYNC)?;
        self.over.sync_all()
    }

    fn set_permissions(&self, perm: Permissions) -> io::Result<()> {
        self.pass(RIGHTS)?;
        self.over.set_permissions(perm)
    }

    fn set_len(&self, _size: u64) -> io::Result<()> {
        unneeded()
    }

    fn sync_data(&self) -> io::Result<()> {
        unneeded()
    }
}
