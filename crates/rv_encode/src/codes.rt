// The fields that distinguish the operations of a format.

ghost use Rattle.std.specs.Prelude.{◌≡◌, ℕ, ◌<◌, ◌^◌};
ghost use Rattle.rv_encode.specs.Codes.{branch_funct3, imm_code, load_funct3, reg_funct, store_funct3, upper_opcode};

use rv_decode::instr::{BranchOp, ImmOp, LoadOp, RegOp, StoreOp, UpperOp};

/// The opcode of an instruction with an upper immediate.
pub fn upper_opcode(op: UpperOp) -> u32
    ensures value { result ≡ upper_opcode op }
    ensures below { result < 2 ^ 7 }
{
    match op {
        UpperOp::Lui => 0b011_0111,
        UpperOp::Auipc => 0b001_0111,
    }
}

/// The funct3 of a branch.
pub fn branch_funct3(op: BranchOp) -> u32
    ensures value { result ≡ branch_funct3 op }
    ensures below { result < 2 ^ 3 }
{
    match op {
        BranchOp::Beq => 0b000,
        BranchOp::Bne => 0b001,
        BranchOp::Blt => 0b100,
        BranchOp::Bge => 0b101,
        BranchOp::Bltu => 0b110,
        BranchOp::Bgeu => 0b111,
    }
}

/// The funct3 of a load.
pub fn load_funct3(op: LoadOp) -> u32
    ensures value { result ≡ load_funct3 op }
    ensures below { result < 2 ^ 3 }
{
    match op {
        LoadOp::Lb => 0b000,
        LoadOp::Lh => 0b001,
        LoadOp::Lw => 0b010,
        LoadOp::Lbu => 0b100,
        LoadOp::Lhu => 0b101,
    }
}

/// The funct3 of a store.
pub fn store_funct3(op: StoreOp) -> u32
    ensures value { result ≡ store_funct3 op }
    ensures below { result < 2 ^ 3 }
{
    match op {
        StoreOp::Sb => 0b000,
        StoreOp::Sh => 0b001,
        StoreOp::Sw => 0b010,
    }
}

/// The code of an operation with an immediate: its funct3, or for a shift its funct7 and funct3 as one
/// number of ten bits.
#[derive(Clone, Copy)]
pub enum ImmCode {
    Operand(u32),
    Shift(u32),
}

/// The code of an operation with an immediate.
pub fn imm_code(op: ImmOp) -> ImmCode
    ensures value { result ≡ imm_code op }
    ensures operand_below { (n : ℕ) → result ≡ ImmCode.Operand n → n < 2 ^ 3 }
    ensures shift_below { (n : ℕ) → result ≡ ImmCode.Shift n → n < 2 ^ 10 }
{
    match op {
        ImmOp::Addi => ImmCode::Operand(0b000),
        ImmOp::Slti => ImmCode::Operand(0b010),
        ImmOp::Sltiu => ImmCode::Operand(0b011),
        ImmOp::Xori => ImmCode::Operand(0b100),
        ImmOp::Ori => ImmCode::Operand(0b110),
        ImmOp::Andi => ImmCode::Operand(0b111),
        ImmOp::Slli => ImmCode::Shift(0b000_0000_001),
        ImmOp::Srli => ImmCode::Shift(0b000_0000_101),
        ImmOp::Srai => ImmCode::Shift(0b010_0000_101),
    }
}

/// The funct7 and funct3 of an operation on two registers, as one number of ten bits.
pub fn reg_funct(op: RegOp) -> u32
    ensures value { result ≡ reg_funct op }
    ensures below { result < 2 ^ 10 }
{
    match op {
        RegOp::Add => 0b000_0000_000,
        RegOp::Sub => 0b010_0000_000,
        RegOp::Sll => 0b000_0000_001,
        RegOp::Slt => 0b000_0000_010,
        RegOp::Sltu => 0b000_0000_011,
        RegOp::Xor => 0b000_0000_100,
        RegOp::Srl => 0b000_0000_101,
        RegOp::Sra => 0b010_0000_101,
        RegOp::Or => 0b000_0000_110,
        RegOp::And => 0b000_0000_111,
        RegOp::Mul => 0b000_0001_000,
        RegOp::Mulh => 0b000_0001_001,
        RegOp::Mulhsu => 0b000_0001_010,
        RegOp::Mulhu => 0b000_0001_011,
        RegOp::Div => 0b000_0001_100,
        RegOp::Divu => 0b000_0001_101,
        RegOp::Rem => 0b000_0001_110,
        RegOp::Remu => 0b000_0001_111,
    }
}
