// Why objects aren't linked.

use elf32_read::fault::Fault;
use std::alloc::AllocError;

/// Why objects aren't linked: the first fault that stands in them, with its object's index, or want of
/// memory.
#[derive(Clone, Copy, PartialEq, Eq, Debug)]
pub enum LinkFault {
    Object { index: u32, fault: Fault },
    OutOfMemory,
}

impl From<AllocError> for LinkFault {
    ghost use Rattle.std.specs.Prelude.{◌≡◌};
    ghost use Rattle.psabi_sym.specs.declared.link_fault.LinkFault.TheVariants.{OutOfMemory};

    ghost from_gives = { λ _ fault. fault ≡ OutOfMemory };

    fn from(_error: AllocError) -> LinkFault {
        LinkFault::OutOfMemory
    }
}
