// What asks a device: whether there is one, and what a store shows.

ghost use Rattle.std.specs.Prelude.{◌≡◌, ◌≤◌, IfErr, OnErr, OnOk, take};
ghost use Rattle.zc_machine.specs.Shown.{EndsWithin, shown_by};
ghost use Rattle.zc_machine.specs.Run.{is_answered, unanswered};
ghost use Rattle.zc_outside.specs.Course.{WrotePart, WroteTo};
ghost use Rattle.zc_outside.specs.Desk.{OnlyWrites, WriteCause};

use crate::output::put;
use crate::reason::Reason;
use devices::environment::DeviceMap;
use rv_decode::device_access::DeviceAccess;
use rv_decode::widths::{load_width, store_width};
use zc_outside::console::{Console, ConsoleFault};

/// Whether there is a device for an access.
pub fn is_answered(devices: &DeviceMap<'_>, access: &DeviceAccess) -> bool
    ensures { result ≡ is_answered devices.now.all access.now }
{
    match access {
        DeviceAccess::Load { op, at, .. } => devices.has(*at, load_width(*op)),
        DeviceAccess::Store { op, at, .. } => devices.has(*at, store_width(*op)),
        DeviceAccess::System { .. } => devices.has_registers(),
    }
}

/// Why the machine stops where there is none.
pub fn unanswered(access: &DeviceAccess) -> Reason
    ensures { result ≡ unanswered access.now }
{
    match access {
        DeviceAccess::Load { .. } | DeviceAccess::Store { .. } => Reason::BadAccess,
        DeviceAccess::System { .. } => Reason::Illegal,
    }
}

/// Writes what an access shows to standard output, all at once.
pub fn show<C: Console>(
    devices: &DeviceMap<'_>,
    access: &DeviceAccess,
    console: &mut C,
) -> Result<(), ConsoleFault>
    requires { EndsWithin access.now }
    ensures ok { OnOk result (WroteTo 1 (shown_by devices.now.outputs access.now) (C.shown console.old)
        (C.shown console.new)) }
    ensures err { OnErr result (WrotePart 1 (shown_by devices.now.outputs access.now) (C.shown console.old)
        (C.shown console.new)) }
    ensures cause { IfErr result (WriteCause (C.shown console.old) (C.shown console.new)) }
    ensures writes { OnlyWrites (C.shown console.old) (C.shown console.new) }
{
    let (bytes, count) = shown_by(devices, access);
    if count == 0 {
        return Ok(());
    }
    put(1, &bytes[..count], console)
}

// The bytes that an access shows, and their number.
fn shown_by(devices: &DeviceMap<'_>, access: &DeviceAccess) -> ([u8; 4], usize)
    requires { EndsWithin access.now }
    ensures few { result.1 ≤ 4 }
    ensures bytes { take result.1 result.0 ≡ shown_by devices.now.outputs access.now }
{
    match access {
        DeviceAccess::Load { .. } | DeviceAccess::System { .. } => ([0; 4], 0),
        DeviceAccess::Store { op, at, word, .. } => devices.shown(*op, *at, *word),
    }
}
