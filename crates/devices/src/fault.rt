// Why a text names no devices.

use std::alloc::AllocError;
use thiserror::Error;

/// Why a text names no devices. Lines are counted from 1.
#[derive(Clone, Copy, PartialEq, Eq, Debug, Error)]
pub enum DevicesFault {
    /// A line isn't allowed where it is, or is missing.
    #[error("line {0} isn't one of devices")]
    Line(u32),
    /// The text is longer than `DEVICES_LIMIT`.
    #[error("the devices are too large")]
    Size,
    #[error("out of memory")]
    OutOfMemory,
}

impl From<AllocError> for DevicesFault {
    ghost use Rattle.std.specs.Prelude.{◌≡◌};
    ghost use Rattle.devices.specs.declared.fault.DevicesFault.TheVariants.{OutOfMemory};

    ghost from_gives = { λ _ fault. fault ≡ OutOfMemory };

    fn from(_error: AllocError) -> DevicesFault {
        DevicesFault::OutOfMemory
    }
}
