// What a run meets outside its machine.

ghost use Rattle.std.specs.Prelude.{◌≡◌, ◌+◌, ◌^◌, ◌≤◌, ◌<◌, ◌==◌, length, take};
ghost use Rattle.std.specs.List.{list_any};
ghost use Rattle.rv_decode.specs.Devices.{has_registers, in_devices, sent_bytes};
ghost use Rattle.rv_decode.specs.Effect.{store_width};
ghost use Rattle.rv_decode.specs.EventBytes.{shown_bytes};
ghost use Rattle.devices.specs.Environment.{device_map, environment_of, no_devices, only_input};

use crate::answers::Answers;
use crate::device_list::Devices;
use rv_decode::instr::StoreOp;
use rv_decode::widths::store_width;
use std::marker::Model;

/// Devices, or none.
#[derive(Drop)]
pub struct DeviceMap<'a> {
    devices: Option<&'a Devices>,
}

impl<'a> Model for DeviceMap<'a> {
    ghost use Rattle.std.specs.Option.{option_map_or};
    ghost use Rattle.devices.specs.Environment.{DeviceMap, device_map, no_devices};

    ghost Value = { DeviceMap };

    ghost view = { λ m. option_map_or (λ d. device_map d.now) m.devices no_devices };
}

impl<'a> DeviceMap<'a> {
    /// No devices.
    pub fn none() -> DeviceMap<'a>
        ensures { result ≡ no_devices }
    {
        DeviceMap { devices: None }
    }

    /// The devices of a text's lines.
    pub fn new(devices: &'a Devices) -> DeviceMap<'a>
        ensures { result ≡ device_map devices.now }
    {
        DeviceMap {
            devices: Some(devices),
        }
    }

    /// Whether `count` bytes from an address on lie in one device.
    pub fn has(&self, at: u32, count: u32) -> bool
        requires { 0 < count }
        ensures { result ≡ in_devices self.now.all at count }
    {
        match self.devices {
            Some(devices) => devices.has(at, count),
            None => false,
        }
    }

    /// Whether the control and status registers are among them.
    pub fn has_registers(&self) -> bool
        ensures { result ≡ has_registers self.now.all }
    {
        match self.devices {
            Some(devices) => devices.has_registers(),
            None => false,
        }
    }

    /// Whether the byte that is stored at an address appears on standard output.
    pub fn is_output(&self, at: u32) -> bool
        ensures { result ≡ list_any (λ x. x == at) self.now.outputs }
    {
        match self.devices {
            Some(devices) => devices.is_output(at),
            None => false,
        }
    }

    /// What appears on standard output of a word that is stored at an address: bytes, and how many of them.
    pub fn shown(&self, op: StoreOp, at: u32, word: u32) -> ([u8; 4], usize)
        requires { at + store_width op ≤ 2 ^ 32 }
        ensures few { result.1 ≤ 4 }
        ensures bytes { take result.1 result.0 ≡ shown_bytes self.now.outputs at (sent_bytes op word) }
    {
        let bytes = word.to_le_bytes();
        shown_bytes(self, at, &bytes[..store_width(op) as usize])
    }
}

// Those of the bytes that are stored from an address on which appear on standard output, and their number.
fn shown_bytes(devices: &DeviceMap<'_>, at: u32, bytes: &[u8]) -> ([u8; 4], usize)
    requires few { length bytes.now ≤ 4 }
    requires within { at + length bytes.now ≤ 2 ^ 32 }
    ensures few { result.1 ≤ 4 }
    ensures bytes { take result.1 result.0 ≡ shown_bytes devices.now.outputs at bytes.now }
{
    let mut shown = [0; 4];
    let mut count = 0;
    for i in 0..bytes.len() {
        if devices.is_output(at + i as u32) {
            shown[count] = bytes[i];
            count += 1;
        }
    }
    (shown, count)
}

/// Devices, and the bytes that reads and loads from devices take, from the front.
#[derive(Drop)]
pub struct Environment<'a> {
    pub devices: DeviceMap<'a>,
    pub answers: Answers<'a>,
}

impl<'a> Model for Environment<'a> {
    ghost use Rattle.devices.specs.Environment.{Environment};

    ghost Value = { Environment };

    ghost view = { λ e. record { devices = e.devices; input = e.answers } };
}

impl<'a> Environment<'a> {
    /// No devices, and this input.
    pub fn of_input(input: &'a [u8]) -> Environment<'a>
        ensures { result ≡ only_input input.now }
    {
        Environment {
            devices: DeviceMap::none(),
            answers: Answers::new(input, &[], 0),
        }
    }

    /// The devices of a text's lines, and what they answer in a run of at most `steps` steps: the lines' bytes, or, if
    /// the lines have none, this input.
    pub fn new(devices: &'a Devices, steps: u64, input: &'a [u8]) -> Environment<'a>
        ensures { result ≡ environment_of devices.now steps input.now }
    {
        Environment {
            devices: DeviceMap::new(devices),
            answers: devices.answers(steps, input),
        }
    }
}
