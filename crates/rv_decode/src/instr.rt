// Instructions (RISC-V unprivileged manual, chapters "RV32I" and "M").

use zc_base::reg::Reg;

/// The instructions with an upper immediate.
#[derive(Clone, Copy, PartialEq, Eq, Debug)]
pub enum UpperOp {
    Lui,
    Auipc,
}

/// The conditional branches.
#[derive(Clone, Copy, PartialEq, Eq, Debug)]
pub enum BranchOp {
    Beq,
    Bne,
    Blt,
    Bge,
    Bltu,
    Bgeu,
}

/// The loads.
#[derive(Clone, Copy, PartialEq, Eq, Debug)]
pub enum LoadOp {
    Lb,
    Lh,
    Lw,
    Lbu,
    Lhu,
}

/// The stores.
#[derive(Clone, Copy, PartialEq, Eq, Debug)]
pub enum StoreOp {
    Sb,
    Sh,
    Sw,
}

/// The operations on a register and an immediate.
#[derive(Clone, Copy, PartialEq, Eq, Debug)]
pub enum ImmOp {
    Addi,
    Slti,
    Sltiu,
    Xori,
    Ori,
    Andi,
    Slli,
    Srli,
    Srai,
}

/// The operations on two registers.
#[derive(Clone, Copy, PartialEq, Eq, Debug)]
pub enum RegOp {
    Add,
    Sub,
    Sll,
    Slt,
    Sltu,
    Xor,
    Srl,
    Sra,
    Or,
    And,
    Mul,
    Mulh,
    Mulhsu,
    Mulhu,
    Div,
    Divu,
    Rem,
    Remu,
}

/// An instruction of 32 bits, or the one that a halfword stands for.
///
/// An upper `imm` is the 20 bits as they stand in the word, a shift's `imm` its amount, and a
/// `distance` is in bytes from the instruction itself. `rest` is what a fence has beside its opcode
/// and `funct3`: these 22 bits in the order of the word, from the highest to the lowest. `Csrrw` is
/// the one on the table base register jvt.
#[derive(Clone, Copy, PartialEq, Eq, Debug)]
pub enum Instr {
    Upper {
        op: UpperOp,
        rd: Reg,
        imm: u32,
    },
    Jal {
        rd: Reg,
        distance: i32,
    },
    Jalr {
        rd: Reg,
        base: Reg,
        imm: i32,
    },
    Branch {
        op: BranchOp,
        first: Reg,
        second: Reg,
        distance: i32,
    },
    Load {
        op: LoadOp,
        rd: Reg,
        base: Reg,
        imm: i32,
    },
    Store {
        op: StoreOp,
        source: Reg,
        base: Reg,
        imm: i32,
    },
    WithImm {
        op: ImmOp,
        rd: Reg,
        first: Reg,
        imm: i32,
    },
    WithReg {
        op: RegOp,
        rd: Reg,
        first: Reg,
        second: Reg,
    },
    Fence {
        rest: u32,
    },
    Ecall,
    Ebreak,
    Csrrw {
        rd: Reg,
        source: Reg,
    },
}
