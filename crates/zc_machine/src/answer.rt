// What a step of the machine answers.

use crate::reason::Reason;
use rv_decode::device_access::DeviceAccess;

/// An environment call that the machine knows, whose buffer lies in its memory. `at` is the buffer's
/// address and `len` its length in bytes; an exit has the status.
#[derive(Clone, Copy)]
pub enum EnvCall {
    Read { at: u32, len: u32 },
    Write { fd: u8, at: u32, len: u32 },
    Exit(u8),
}

/// What one step comes to: an instruction was committed, or nothing changed, since the program wants
/// an environment call, has ended, or is stopped, or since it asks a device: it loads or stores outside memory, or makes
/// an instruction of the system.
#[derive(Clone, Copy)]
pub enum Step {
    Committed,
    Wants(EnvCall),
    Ended(u8),
    Stopped(Reason),
    Asks(DeviceAccess),
}
