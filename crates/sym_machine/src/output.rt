// What a run writes to a console.

ghost use Rattle.std.specs.Prelude.{◌≡◌, ◌+◌, ◌≤◌, ◌^◌, true, IfErr, OnErr, OnOk};
ghost use Rattle.rv_decode.specs.Devices.{sent_bytes};
ghost use Rattle.rv_decode.specs.Effect.{store_width};
ghost use Rattle.rv_decode.specs.EventBytes.{shown_bytes};
ghost use Rattle.sym_machine.specs.Change.{is_output};
ghost use Rattle.zc_outside.specs.Course.{WrotePart, WroteTo};
ghost use Rattle.zc_outside.specs.Desk.{OnlyWrites, WriteCause};

use crate::answer::SentWord;
use devices::environment::DeviceMap;
use zc_outside::console::{Console, ConsoleFault};

/// Writes bytes to the stream with a number.
pub fn write_to<C: Console>(console: &mut C, fd: u8, bytes: &[u8]) -> Result<(), ConsoleFault>
    requires { is_output fd ≡ true }
    ensures ok { OnOk result (WroteTo fd bytes.now (C.shown console.old) (C.shown console.new)) }
    ensures err { OnErr result (WrotePart fd bytes.now (C.shown console.old) (C.shown console.new)) }
    ensures cause { IfErr result (WriteCause (C.shown console.old) (C.shown console.new)) }
    ensures writes { OnlyWrites (C.shown console.old) (C.shown console.new) }
{
    if fd == 1 {
        console.out(bytes)
    } else {
        console.err(bytes)
    }
}

/// Writes what appears of a word that is stored at a device's address, all at once.
pub fn show<C: Console>(
    console: &mut C,
    devices: &DeviceMap<'_>,
    sent: SentWord,
) -> Result<(), ConsoleFault>
    requires { sent.at + store_width sent.op ≤ 2 ^ 32 }
    ensures ok { OnOk result (WroteTo 1 (shown_bytes devices.now.outputs sent.at (sent_bytes sent.op sent.word))
        (C.shown console.old) (C.shown console.new)) }
    ensures err { OnErr result (WrotePart 1 (shown_bytes devices.now.outputs sent.at (sent_bytes sent.op sent.word))
        (C.shown console.old) (C.shown console.new)) }
    ensures cause { IfErr result (WriteCause (C.shown console.old) (C.shown console.new)) }
    ensures writes { OnlyWrites (C.shown console.old) (C.shown console.new) }
{
    let (bytes, count) = devices.shown(sent.op, sent.at, sent.word);
    if count == 0 {
        return Ok(());
    }
    write_to(console, 1, &bytes[..count])
}
