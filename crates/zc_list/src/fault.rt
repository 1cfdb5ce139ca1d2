// Why a text is no listing.

use std::alloc::AllocError;
use thiserror::Error;

/// Why a text is no listing.
#[derive(Clone, Copy, PartialEq, Eq, Debug, Error)]
pub enum ListFault {
    /// A line isn't allowed where it is, or is missing. `number` counts lines from 1.
    #[error("line {number} isn't one of a listing")]
    BadLine { number: u32 },
    /// The text is longer than `LIST_LIMIT`.
    #[error("the listing is too large")]
    TooLarge,
    #[error("out of memory")]
    OutOfMemory,
}

impl From<AllocError> for ListFault {
    ghost use Rattle.std.specs.Prelude.{◌≡◌};
    ghost use Rattle.zc_list.specs.declared.fault.ListFault.TheVariants.{OutOfMemory};

    ghost from_gives = { λ _ fault. fault ≡ OutOfMemory };

    fn from(_error: AllocError) -> ListFault {
        ListFault::OutOfMemory
    }
}
