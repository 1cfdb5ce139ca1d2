// What is found at the start of a run of instructions.

use zc_base::reg::Reg;
use zc_decode::short::Short;

/// A group without its place: its number of items, what is written for them, and by how many bytes a second instruction
/// moves the stack pointer.
#[derive(Clone, Copy)]
pub struct Found {
    pub items: u32,
    pub kind: Short,
    pub rest: u16,
}

/// How a pop ends: execution goes on after it, or it returns, or it returns 0, where a0 is set before the first load,
/// before the stack pointer is raised, or before the return.
#[derive(Clone, Copy)]
pub enum Ending {
    GoesOn,
    Returns,
    ZeroFirst,
    ZeroBeforeRaise,
    ZeroBeforeReturn,
}

/// `addi rd,source,0`.
#[derive(Clone, Copy)]
pub struct Move {
    pub rd: Reg,
    pub source: Reg,
}
