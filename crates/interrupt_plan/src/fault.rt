// Why a text is no plan.

use std::alloc::AllocError;
use thiserror::Error;

/// Why a text is no plan. `number` counts lines from 1.
#[derive(Clone, Copy, PartialEq, Eq, Debug, Error)]
pub enum PlanFault {
    /// A line isn't allowed where it is, or is missing.
    #[error("line {number} isn't one of a plan")]
    BadLine { number: u32 },
    /// A line's commit is before the commit of the line before it.
    #[error("line {number} comes before the line above it")]
    OutOfOrder { number: u32 },
    /// The text is longer than `PLAN_LIMIT`.
    #[error("the plan is too large")]
    TooLarge,
    #[error("out of memory")]
    OutOfMemory,
}

impl From<AllocError> for PlanFault {
    ghost use Rattle.std.specs.Prelude.{◌≡◌};
    ghost use Rattle.interrupt_plan.specs.declared.fault.PlanFault.TheVariants.{OutOfMemory};

    ghost from_gives = { λ _ fault. fault ≡ OutOfMemory };

    fn from(_error: AllocError) -> PlanFault {
        PlanFault::OutOfMemory
    }
}
