// Why equal tails aren't shared.

ghost use Rattle.std.specs.Prelude.{◌≡◌, None};
ghost use Rattle.psabi_sym.specs.Inputs.{Inputs};
ghost use Rattle.psabi_sym.specs.LinkFault.{IsRefusal};
ghost use Rattle.block_cut.specs.Faults.{first_fault};
ghost use Rattle.moved_runs.specs.Passes.{with_files};
ghost use Rattle.tail_merge.specs.Merging.{IsMergeFault, merged_files};

use elf32_read::fault::Fault;
use psabi_sym::link_fault::LinkFault;
use std::alloc::AllocError;

/// Why objects aren't written with equal tails shared: the first fault that stands in the given ones, with its object's
/// index; the first one of the result, if the given ones have none; or want of memory.
#[derive(Clone, Copy, PartialEq, Eq, Debug)]
pub enum MergeFault {
    Object { index: u32, fault: Fault },
    Broken { index: u32, fault: Fault },
    OutOfMemory,
}

impl MergeFault {
    /// Why the given objects are refused.
    pub(crate) fn of_given(fault: LinkFault) -> MergeFault
        ensures { (inputs : Inputs) → IsRefusal (first_fault inputs) fault → IsMergeFault inputs result }
    {
        match fault {
            LinkFault::Object { index, fault } => MergeFault::Object { index, fault },
            LinkFault::OutOfMemory => MergeFault::OutOfMemory,
        }
    }

    /// Why the result is refused, of given objects without a fault.
    pub(crate) fn of_result(fault: LinkFault) -> MergeFault
        ensures { (inputs : Inputs) → first_fault inputs ≡ None
            → IsRefusal (first_fault (with_files inputs (merged_files inputs))) fault → IsMergeFault inputs result }
    {
        match fault {
            LinkFault::Object { index, fault } => MergeFault::Broken { index, fault },
            LinkFault::OutOfMemory => MergeFault::OutOfMemory,
        }
    }
}

impl From<AllocError> for MergeFault {
    ghost use Rattle.std.specs.Prelude.{◌≡◌};
    ghost use Rattle.tail_merge.specs.declared.merge_fault.MergeFault.TheVariants.{OutOfMemory};

    ghost from_gives = { λ _ fault. fault ≡ OutOfMemory };

    fn from(_error: AllocError) -> MergeFault {
        MergeFault::OutOfMemory
    }
}
