// The operations of the formats, by their fields.

ghost use Rattle.std.specs.Prelude.{◌≡◌};
ghost use Rattle.rv_decode.specs.Decode.{branch_ops, imm_ops, load_ops, reg_ops, row_of, shift_ops, store_ops};

use crate::instr::{BranchOp, ImmOp, LoadOp, RegOp, StoreOp};

/// The branch with this funct3.
pub fn branch_op(funct3: u32) -> Option<BranchOp>
    ensures { result ≡ row_of branch_ops funct3 }
{
    match funct3 {
        0b000 => Some(BranchOp::Beq),
        0b001 => Some(BranchOp::Bne),
        0b100 => Some(BranchOp::Blt),
        0b101 => Some(BranchOp::Bge),
        0b110 => Some(BranchOp::Bltu),
        0b111 => Some(BranchOp::Bgeu),
        _ => None,
    }
}

/// The load with this funct3.
pub fn load_op(funct3: u32) -> Option<LoadOp>
    ensures { result ≡ row_of load_ops funct3 }
{
    match funct3 {
        0b000 => Some(LoadOp::Lb),
        0b001 => Some(LoadOp::Lh),
        0b010 => Some(LoadOp::Lw),
        0b100 => Some(LoadOp::Lbu),
        0b101 => Some(LoadOp::Lhu),
        _ => None,
    }
}

/// The store with this funct3.
pub fn store_op(funct3: u32) -> Option<StoreOp>
    ensures { result ≡ row_of store_ops funct3 }
{
    match funct3 {
        0b000 => Some(StoreOp::Sb),
        0b001 => Some(StoreOp::Sh),
        0b010 => Some(StoreOp::Sw),
        _ => None,
    }
}

/// The operation with an immediate of the I format and this funct3.
pub fn imm_op(funct3: u32) -> Option<ImmOp>
    ensures { result ≡ row_of imm_ops funct3 }
{
    match funct3 {
        0b000 => Some(ImmOp::Addi),
        0b010 => Some(ImmOp::Slti),
        0b011 => Some(ImmOp::Sltiu),
        0b100 => Some(ImmOp::Xori),
        0b110 => Some(ImmOp::Ori),
        0b111 => Some(ImmOp::Andi),
        _ => None,
    }
}

/// The shift by an amount with this funct7 and funct3, as one number of ten bits.
pub fn shift_op(funct: u32) -> Option<ImmOp>
    ensures { result ≡ row_of shift_ops funct }
{
    match funct {
        0b000_0000_001 => Some(ImmOp::Slli),
        0b000_0000_101 => Some(ImmOp::Srli),
        0b010_0000_101 => Some(ImmOp::Srai),
        _ => None,
    }
}

/// The operation on two registers with this funct7 and funct3, as one number of ten bits.
pub fn reg_op(funct: u32) -> Option<RegOp>
    ensures { result ≡ row_of reg_ops funct }
{
    match funct {
        0b000_0000_000 => Some(RegOp::Add),
        0b010_0000_000 => Some(RegOp::Sub),
        0b000_0000_001 => Some(RegOp::Sll),
        0b000_0000_010 => Some(RegOp::Slt),
        0b000_0000_011 => Some(RegOp::Sltu),
        0b000_0000_100 => Some(RegOp::Xor),
        0b000_0000_101 => Some(RegOp::Srl),
        0b010_0000_101 => Some(RegOp::Sra),
        0b000_0000_110 => Some(RegOp::Or),
        0b000_0000_111 => Some(RegOp::And),
        0b000_0001_000 => Some(RegOp::Mul),
        0b000_0001_001 => Some(RegOp::Mulh),
        0b000_0001_010 => Some(RegOp::Mulhsu),
        0b000_0001_011 => Some(RegOp::Mulhu),
        0b000_0001_100 => Some(RegOp::Div),
        0b000_0001_101 => Some(RegOp::Divu),
        0b000_0001_110 => Some(RegOp::Rem),
        0b000_0001_111 => Some(RegOp::Remu),
        _ => None,
    }
}
