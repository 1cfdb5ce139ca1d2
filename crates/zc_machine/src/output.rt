// What a program writes, handed to the console.

ghost use Rattle.std.specs.Prelude.{◌≡◌, ◌<◌, ◌⊎◌, IfErr, OnErr, OnOk, length};
ghost use Rattle.zc_machine.specs.Buffer.{InMemory, bytes_at};
ghost use Rattle.zc_outside.specs.Course.{WrotePart, WroteTo};
ghost use Rattle.zc_outside.specs.Desk.{OnlyWrites, WriteCause};

use crate::machine::Machine;
use zc_outside::console::{Console, ConsoleFault};

/// Writes `len` bytes of a machine's memory to stream 1 or 2, piece by piece.
pub fn write<C: Console>(
    machine: &Machine,
    fd: u8,
    at: u32,
    len: u32,
    console: &mut C,
) -> Result<(), ConsoleFault>
    requires stream { (fd ≡ 1) ⊎ (fd ≡ 2) }
    requires memory { InMemory machine.now at len }
    ensures ok { OnOk result (WroteTo fd (bytes_at machine.now at len) (C.shown console.old) (C.shown console.new)) }
    ensures err { OnErr result (WrotePart fd (bytes_at machine.now at len) (C.shown console.old)
        (C.shown console.new)) }
    ensures cause { IfErr result (WriteCause (C.shown console.old) (C.shown console.new)) }
    ensures writes { OnlyWrites (C.shown console.old) (C.shown console.new) }
{
    let mut done = 0;
    while done < len {
        let piece = machine.piece(at + done, len - done).unwrap();
        put(fd, piece, console)?;
        done += piece.len() as u32;
    }
    Ok(())
}

/// Writes a piece that isn't empty.
pub fn put<C: Console>(fd: u8, piece: &[u8], console: &mut C) -> Result<(), ConsoleFault>
    requires stream { (fd ≡ 1) ⊎ (fd ≡ 2) }
    requires some { 0 < length piece.now }
    ensures ok { OnOk result (WroteTo fd piece.now (C.shown console.old) (C.shown console.new)) }
    ensures err { OnErr result (WrotePart fd piece.now (C.shown console.old) (C.shown console.new)) }
    ensures cause { IfErr result (WriteCause (C.shown console.old) (C.shown console.new)) }
    ensures writes { OnlyWrites (C.shown console.old) (C.shown console.new) }
{
    if fd == 1 {
        console.out(piece)
    } else {
        console.err(piece)
    }
}
