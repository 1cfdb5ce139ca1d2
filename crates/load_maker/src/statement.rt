// Statements of assembly.

use rv_decode::instr::Instr;

/// Types of relocations (RISC-V ELF psABI, "Relocations").
pub const CALL: u8 = 18;

pub const HI20: u8 = 26;

pub const LO12_I: u8 = 27;

pub const LO12_S: u8 = 28;

/// What one line of assembly says: an instruction; a call of the function with this number, which is two instructions;
/// or an instruction that takes a part of the address of `result`, by the type of its relocation.
#[derive(Clone, Copy)]
pub enum Statement {
    Plain(Instr),
    Call(u32),
    WithAddress(u8, Instr),
}
