// Texts of devices.

ghost use Rattle.std.specs.Prelude.{◌≡◌, ◌⊎◌, ◌≤◌, IfOk, IfErr, Ok, Err, [], length};
ghost use Rattle.rv_decode.specs.Devices.{AreOutside};
ghost use Rattle.text_lines.specs.Lines.{lines_of};
ghost use Rattle.devices.specs.Fault.{IsDevicesFault};
ghost use Rattle.devices.specs.Lines.{devices_of};
ghost use Rattle.devices.specs.Text.{IsDevicesText, ReadsDevices, devices_in, lines_behind, lines_from};

use crate::device_list::Devices;
use crate::fault::DevicesFault;
use crate::line::read_line;
use std::alloc::Global;
use text_lines::split::split_line;
use zc_base::mem_map::MemMap;

/// The longest text that is read, in bytes.
pub const DEVICES_LIMIT: usize = 8_388_608;

/// The devices that a text names, which lie outside a map, or the first fault in the text, with the number of its line.
pub fn read_devices(alloc: Global, text: &[u8], map: MemMap) -> Result<Devices, DevicesFault>
    ensures ok { IfOk result (λ devices. devices_in map text.now ≡ Ok devices) }
    ensures err { IfErr result (λ fault. (fault ≡ DevicesFault.OutOfMemory) ⊎ (devices_in map text.now ≡ Err fault)) }
    ensures fault { IfErr result (IsDevicesFault map text.now) }
    ensures spells { IfOk result (IsDevicesText map text.now) }
    ensures outside { IfOk result (λ devices. AreOutside map (devices_of devices)) }
    ensures complete { ReadsDevices map text.now result }
{
    let devices = read_text(alloc, text, map)?;
    Ok(devices)
}

// The devices that a text names, or its first fault.
fn read_text(alloc: Global, text: &[u8], map: MemMap) -> Result<Devices, DevicesFault>
    ensures ok { IfOk result (λ devices. devices_in map text.now ≡ Ok devices) }
    ensures err { IfErr result (λ fault. (fault ≡ DevicesFault.OutOfMemory) ⊎ (devices_in map text.now ≡ Err fault)) }
{
    if text.len() > DEVICES_LIMIT {
        return Err(DevicesFault::Size);
    }
    let Some((title, lines)) = split_line(text) else {
        return Err(DevicesFault::Line(1));
    };
    if title != b"zcld devices 1".as_slice() {
        return Err(DevicesFault::Line(1));
    }
    read_lines(alloc, lines, map)
}

// The devices that the lines after the first one name.
fn read_lines(alloc: Global, lines: &[u8], map: MemMap) -> Result<Devices, DevicesFault>
    requires { length lines.now ≤ DEVICES_LIMIT }
    ensures ok { IfOk result (λ devices. lines_from map [] (lines_of lines.now) ≡ Ok devices) }
    ensures err { IfErr result (λ fault. (fault ≡ DevicesFault.OutOfMemory)
        ⊎ (lines_from map [] (lines_of lines.now) ≡ Err fault)) }
{
    let mut devices = Devices::new(alloc);
    let mut rest = lines;
    while !rest.is_empty() {
        let number = devices.len() as u32 + 2;
        let Some((text, behind)) = split_line(rest) else {
            return Err(DevicesFault::Line(number));
        };
        let Some(line) = read_line(alloc, text)? else {
            return Err(DevicesFault::Line(number));
        };
        if !devices.may_follow(&line, map) {
            return Err(DevicesFault::Line(number));
        }
        devices = devices.with_line(line)?;
        rest = behind;
    }
    Ok(devices)
}
