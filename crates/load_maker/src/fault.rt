// Why no objects are made.

use std::alloc::AllocError;
use thiserror::Error;

/// Why no objects are made.
#[derive(Clone, Copy, PartialEq, Eq, Debug, Error)]
pub enum MakeFault {
    /// More than `FUNCTION_LIMIT`.
    #[error("too many functions")]
    TooMany,
    #[error("out of memory")]
    OutOfMemory,
}

impl From<AllocError> for MakeFault {
    ghost use Rattle.std.specs.Prelude.{◌≡◌};
    ghost use Rattle.load_maker.specs.declared.fault.MakeFault.TheVariants.{OutOfMemory};

    ghost from_gives = { λ _ fault. fault ≡ OutOfMemory };

    fn from(_error: AllocError) -> MakeFault {
        MakeFault::OutOfMemory
    }
}
