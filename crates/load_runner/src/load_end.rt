// Why a load has no result.

use std::alloc::AllocError;
use sym_machine::why::Why;
use thiserror::Error;
use zc_base::place::Place;

/// Why one of the runs doesn't exit.
#[derive(Clone, Copy, PartialEq, Eq, Debug, Error)]
pub enum LoadEnd {
    /// The symbolic machine is stuck at a place.
    #[error("the program is stuck")]
    Stuck(Place, Why),
    /// A run made `LOAD_STEPS` steps or commits without an exit. The runs before it exited.
    #[error("the program doesn't exit in time")]
    Spent,
    #[error("out of memory")]
    OutOfMemory,
}

impl From<AllocError> for LoadEnd {
    ghost use Rattle.std.specs.Prelude.{◌≡◌};
    ghost use Rattle.load_runner.specs.declared.load_end.LoadEnd.TheVariants.{OutOfMemory};

    ghost from_gives = { λ _ end. end ≡ OutOfMemory };

    fn from(_refused: AllocError) -> LoadEnd {
        LoadEnd::OutOfMemory
    }
}
