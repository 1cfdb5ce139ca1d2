// Why a call of the system was refused: memory ran out, or anything else.

ghost use Rattle.std.specs.Prelude.{◌≡◌, ◌≤◌};
ghost use Rattle.zc_outside.specs.StoreTrouble.{RefusesGet, RefusesPut};
ghost use Rattle.zc_outside.specs.Trouble.{Refuses};

use crate::console::ConsoleFault;
use crate::store::StoreFault;
use std::alloc::AllocError;
use std::io;
use std::io::ErrorKind;

/// Why the system's files and streams can't be read or written.
#[derive(Clone, Copy)]
pub enum Trouble {
    System,
    Memory,
}

impl From<io::Error> for Trouble {
    ghost use Rattle.std.specs.Prelude.{◌≡◌, ◌↔◌};
    ghost use Rattle.std.specs.IoError.{error_kind};
    ghost use Rattle.std.specs.declared.io.ErrorKind.TheVariants.{OutOfMemory};
    ghost use Rattle.zc_outside.specs.declared.trouble.Trouble.TheVariants.{Memory};

    ghost from_gives = { λ fault trouble. (error_kind fault ≡ OutOfMemory) ↔ (trouble ≡ Memory) };

    fn from(fault: io::Error) -> Trouble {
        if fault.kind() == ErrorKind::OutOfMemory {
            Trouble::Memory
        } else {
            Trouble::System
        }
    }
}

impl From<AllocError> for Trouble {
    ghost use Rattle.std.specs.Prelude.{◌≡◌};
    ghost use Rattle.zc_outside.specs.declared.trouble.Trouble.TheVariants.{Memory};

    ghost from_gives = { λ _ trouble. trouble ≡ Memory };

    fn from(_: AllocError) -> Trouble {
        Trouble::Memory
    }
}

impl Trouble {
    /// What a console returns for it, and counts: each kind has a count of its own.
    pub fn refuse(self, faults: &mut u64, memory_faults: &mut u64) -> ConsoleFault
        ensures counts { Refuses self faults.old memory_faults.old result faults.new memory_faults.new }
        ensures faults { faults.old ≤ faults.new }
        ensures memory { memory_faults.old ≤ memory_faults.new }
    {
        match self {
            Trouble::System => {
                *faults = faults.saturating_add(1);
                ConsoleFault::Failed
            }
            Trouble::Memory => {
                *memory_faults = memory_faults.saturating_add(1);
                ConsoleFault::OutOfMemory
            }
        }
    }

    /// What a store returns for it from a write, and counts: each kind has a count of its own.
    pub fn refuse_put(self, faults: &mut u64, memory_faults: &mut u64) -> StoreFault
        ensures counts { RefusesPut self faults.old memory_faults.old result faults.new memory_faults.new }
        ensures faults { faults.old ≤ faults.new }
        ensures memory { memory_faults.old ≤ memory_faults.new }
    {
        match self {
            Trouble::System => {
                *faults = faults.saturating_add(1);
                StoreFault::Failed
            }
            Trouble::Memory => {
                *memory_faults = memory_faults.saturating_add(1);
                StoreFault::OutOfMemory
            }
        }
    }

    /// What a store returns for it from a read, and counts: running out of memory isn't counted.
    pub fn refuse_get(self, faults: &mut u64) -> StoreFault
        ensures counts { RefusesGet self faults.old result faults.new }
    {
        match self {
            Trouble::System => {
                *faults = faults.saturating_add(1);
                StoreFault::Failed
            }
            Trouble::Memory => StoreFault::OutOfMemory,
        }
    }
}
