// Reads and writes of the system that go on after signals and short writes.

ghost use Rattle.std.specs.Prelude.{◌≡◌, ◌≤◌, [], IfOk, IsOk, OnErr, OnOk, length};
ghost use Rattle.std.specs.Io.KnownBytes.{ReadConsumes};
ghost use Rattle.zc_outside.specs.Streams.{Adds, AddsPart};

use crate::trouble::Trouble;
use std::io;
use std::io::{ErrorKind, Read, Write};

/// One read to the start of a buffer, made again if a signal interrupts it.
pub fn read_some<S: Read>(source: &mut S, buf: &mut [u8]) -> io::Result<usize>
    ensures within { IfOk result (λ n. n ≤ length buf.new) }
    ensures bytes { ReadConsumes (S.remaining source.old) (S.remaining source.new) result buf.new }
{
    // Signals may come without end, but the proof that a loop ends needs a bound. No process runs long
    // enough to reach this one, or the `TimedOut` after it.
    for _ in 0..u64::MAX {
        match source.read(buf) {
            Ok(count) => return Ok(count),
            Err(fault) if fault.kind() == ErrorKind::Interrupted => {}
            Err(fault) => return Err(fault),
        }
    }
    Err(io::Error::from(ErrorKind::TimedOut))
}

/// Writes a whole piece. A write that takes nothing is a fault.
///
/// After a refusal a first part of the piece may have been written, but not all of it.
pub fn write_whole<S: Write>(sink: &mut S, piece: &[u8]) -> Result<(), Trouble>
    ensures empty { piece.now ≡ [] → IsOk result }
    ensures ok { OnOk result (Adds (S.contents sink.old) (S.contents sink.new) piece.now) }
    ensures err { OnErr result (AddsPart (S.contents sink.old) (S.contents sink.new) piece.now) }
{
    let mut done = 0;
    let mut trouble = Trouble::System;
    // As in `read_some`, this bound is never reached.
    for _ in 0..u64::MAX {
        if done == piece.len() {
            break;
        }
        match sink.write(&piece[done..]) {
            Ok(0) => break,
            Ok(count) => done += count,
            Err(fault) if fault.kind() == ErrorKind::Interrupted => {}
            Err(fault) => {
                trouble = Trouble::from(fault);
                break;
            }
        }
    }
    if done == piece.len() {
        Ok(())
    } else {
        Err(trouble)
    }
}
