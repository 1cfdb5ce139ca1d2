// A stream in memory with short reads and writes, interruptions, and an end.

ghost use Rattle.std.specs.Prelude.{◌≤◌, IfOk};

use std::alloc::Global;
use std::io;
use std::io::{ErrorKind, Read, Write};

/// A stream that moves at most one byte per call, and is interrupted at every second call. At its end a
/// read or a write is refused for a reason, or moves nothing.
#[derive(Drop)]
pub struct Drip {
    interrupted: bool,
    left: usize,
    pub moved: Vec<u8>,
    end: Option<ErrorKind>,
}

impl Drip {
    pub fn new(alloc: Global, left: usize, end: Option<ErrorKind>) -> Drip {
        Drip {
            interrupted: false,
            left,
            moved: Vec::new(alloc),
            end,
        }
    }

    // The number of bytes that move now, out of `len`.
    fn step(&mut self, len: usize) -> io::Result<usize>
        ensures { IfOk result (λ n. n ≤ len) }
    {
        self.interrupted = !self.interrupted;
        if self.interrupted {
            return Err(io::Error::from(ErrorKind::Interrupted));
        }
        match self.end {
            Some(end) if self.left == 0 => Err(io::Error::from(end)),
            _ => {
                let count = len.min(1).min(self.left);
                self.left -= count;
                Ok(count)
            }
        }
    }
}

impl Write for Drip {
    fn write(&mut self, buf: &[u8]) -> io::Result<usize> {
        let count = self.step(buf.len())?;
        self.moved.extend_from_slice(&buf[..count])?;
        Ok(count)
    }

    fn flush(&mut self) -> io::Result<()> {
        Ok(())
    }
}

impl Read for Drip {
    fn read(&mut self, buf: &mut [u8]) -> io::Result<usize> {
        let count = self.step(buf.len())?;
        if count > 0 {
            buf[0] = b'a';
        }
        Ok(count)
    }
}
