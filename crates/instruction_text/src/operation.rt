// The operations of words.

ghost use Rattle.std.specs.Prelude.{◌≡◌};
ghost use Rattle.instruction_text.specs.Names as names;

use rv_decode::instr::{BranchOp, ImmOp, Instr, LoadOp, RegOp, StoreOp, UpperOp};

/// What an instruction of 32 bits is apart from its operands. Each has a name.
#[derive(Clone, Copy)]
pub enum Operation {
    Upper(UpperOp),
    Jal,
    Jalr,
    Branch(BranchOp),
    Load(LoadOp),
    Store(StoreOp),
    WithImm(ImmOp),
    WithReg(RegOp),
    Fence,
    Ecall,
    Ebreak,
    Csrrw,
}

/// The operation of an instruction.
pub fn operation_of(i: &Instr) -> Operation
    ensures { result ≡ names.operation_of i.now }
{
    match i {
        Instr::Upper { op, .. } => Operation::Upper(*op),
        Instr::Jal { .. } => Operation::Jal,
        Instr::Jalr { .. } => Operation::Jalr,
        Instr::Branch { op, .. } => Operation::Branch(*op),
        Instr::Load { op, .. } => Operation::Load(*op),
        Instr::Store { op, .. } => Operation::Store(*op),
        Instr::WithImm { op, .. } => Operation::WithImm(*op),
        Instr::WithReg { op, .. } => Operation::WithReg(*op),
        Instr::Fence { .. } => Operation::Fence,
        Instr::Ecall => Operation::Ecall,
        Instr::Ebreak => Operation::Ebreak,
        Instr::Csrrw { .. } => Operation::Csrrw,
    }
}
