// What a machine's environment answers: loads and stores outside memory, and instructions of the system.

use crate::instr::{LoadOp, StoreOp};
use zc_base::reg::Reg;

/// An access outside memory, by an instruction of `size` bytes: a load from address `at` whose value goes to `rd`, or a
/// store there of the low bytes of `word`. Or an access to a control and status register, or `wfi`, by its word and its
/// operand. A device answers it, if there is one for it.
#[derive(Clone, Copy)]
pub enum DeviceAccess {
    Load {
        op: LoadOp,
        at: u32,
        rd: Reg,
        size: u32,
    },
    Store {
        op: StoreOp,
        at: u32,
        word: u32,
        size: u32,
    },
    System {
        word: u32,
        operand: u32,
    },
}
