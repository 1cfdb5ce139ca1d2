// Why code isn't collected.

ghost use Rattle.std.specs.Prelude.{◌≡◌, ℕ, Bool, None, Some};
ghost use Rattle.elf32_read.specs.declared.fault.Fault.{Fault};
ghost use Rattle.psabi_sym.specs.Inputs.{Inputs, parsed};
ghost use Rattle.block_cut.specs.Faults.{first_fault};
ghost use Rattle.psabi_sym.specs.LinkFault.{IsRefusal};
ghost use Rattle.moved_runs.specs.Passes.{with_files};
ghost use Rattle.section_gc.specs.Collected.{IsBreakage, IsGcFault, collected_files};
ghost use Rattle.section_gc.specs.Kept.{AreNeeded};

use elf32_read::fault::Fault;
use psabi_sym::link_fault::LinkFault;
use std::alloc::AllocError;

/// Why objects aren't written without the code that nothing reaches: the first fault that stands in the given ones,
/// with its object's index; the first one of the result, if the given ones have none; or want of memory.
#[derive(Clone, Copy, PartialEq, Eq, Debug)]
pub enum GcFault {
    Object { index: u32, fault: Fault },
    Broken { index: u32, fault: Fault },
    OutOfMemory,
}

impl GcFault {
    /// Why the given objects are refused.
    pub(crate) fn of_given(fault: LinkFault) -> GcFault
        ensures { (inputs : Inputs) → IsRefusal (first_fault inputs) fault → IsGcFault inputs result }
    {
        match fault {
            LinkFault::Object { index, fault } => GcFault::Object { index, fault },
            LinkFault::OutOfMemory => GcFault::OutOfMemory,
        }
    }

    /// Why the result is refused, of given objects without a fault.
    pub(crate) fn of_result(fault: LinkFault) -> GcFault
        ensures { (inputs : Inputs) (needed : ℕ → ℕ → Bool) → first_fault inputs ≡ None
            → AreNeeded (parsed inputs) needed
            → ((i : ℕ) (fault : Fault)
            → first_fault (with_files inputs (collected_files inputs needed)) ≡ Some (i, fault) → IsBreakage fault)
            → IsRefusal (first_fault (with_files inputs (collected_files inputs needed))) fault
            → IsGcFault inputs result }
    {
        match fault {
            LinkFault::Object { index, fault } => GcFault::Broken { index, fault },
            LinkFault::OutOfMemory => GcFault::OutOfMemory,
        }
    }
}

impl From<AllocError> for GcFault {
    ghost use Rattle.std.specs.Prelude.{◌≡◌};
    ghost use Rattle.section_gc.specs.declared.gc_fault.GcFault.TheVariants.{OutOfMemory};

    ghost from_gives = { λ _ fault. fault ≡ OutOfMemory };

    fn from(_error: AllocError) -> GcFault {
        GcFault::OutOfMemory
    }
}
