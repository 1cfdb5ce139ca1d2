// The normal form of instructions.

ghost use Rattle.std.specs.Prelude.{◌≡◌, pos};
ghost use Rattle.rv_decode.specs.Normal.{SameEffect, greater_branch, greater_first, normal_branch, normal_of, normal_reg, normal_sum};

use crate::instr::{BranchOp, ImmOp, Instr, RegOp};
use zc_base::reg::Reg;

/// The normal form of an instruction: a sum with x0 is an `addi` of 0, and where the order of the
/// sources makes no difference, in `add`, `and`, `or`, `xor`, `mul`, `beq` and `bne`, the register with
/// the greater number comes first.
#[tactic(auto, using(crate::proofs::NormalLaws::same_effect))]
pub fn normal(i: Instr) -> Instr
    ensures form { result ≡ normal_of i }
    ensures same { (j : Instr) → normal_of j ≡ result → SameEffect j i }
{
    match i {
        Instr::Branch {
            op,
            first,
            second,
            distance,
        } => branch(op, first, second, distance),
        Instr::WithReg {
            op,
            rd,
            first,
            second,
        } => with_reg(op, rd, first, second),
        Instr::Upper { .. }
        | Instr::Jal { .. }
        | Instr::Jalr { .. }
        | Instr::Load { .. }
        | Instr::Store { .. }
        | Instr::WithImm { .. }
        | Instr::Fence { .. }
        | Instr::Ecall
        | Instr::Ebreak
        | Instr::Csrrw { .. } => i,
    }
}

fn branch(op: BranchOp, first: Reg, second: Reg, distance: i32) -> Instr
    ensures { result ≡ normal_branch op first second distance }
{
    match op {
        BranchOp::Beq | BranchOp::Bne => ordered_branch(op, first, second, distance),
        BranchOp::Blt | BranchOp::Bge | BranchOp::Bltu | BranchOp::Bgeu => Instr::Branch {
            op,
            first,
            second,
            distance,
        },
    }
}

// A branch, the register with the greater number first.
fn ordered_branch(op: BranchOp, first: Reg, second: Reg, distance: i32) -> Instr
    ensures { result ≡ greater_branch op first second distance }
{
    if first.number() < second.number() {
        Instr::Branch {
            op,
            first: second,
            second: first,
            distance,
        }
    } else {
        Instr::Branch {
            op,
            first,
            second,
            distance,
        }
    }
}

fn with_reg(op: RegOp, rd: Reg, first: Reg, second: Reg) -> Instr
    ensures { result ≡ normal_reg op rd first second }
{
    match op {
        RegOp::Add => sum(rd, first, second),
        RegOp::Xor | RegOp::Or | RegOp::And | RegOp::Mul => ordered(op, rd, first, second),
        RegOp::Sub
        | RegOp::Sll
        | RegOp::Slt
        | RegOp::Sltu
        | RegOp::Srl
        | RegOp::Sra
        | RegOp::Mulh
        | RegOp::Mulhsu
        | RegOp::Mulhu
        | RegOp::Div
        | RegOp::Divu
        | RegOp::Rem
        | RegOp::Remu => Instr::WithReg {
            op,
            rd,
            first,
            second,
        },
    }
}

fn sum(rd: Reg, first: Reg, second: Reg) -> Instr
    ensures { result ≡ normal_sum rd first second }
{
    if second.number() == 0 {
        copy(rd, first)
    } else if first.number() == 0 {
        copy(rd, second)
    } else {
        ordered(RegOp::Add, rd, first, second)
    }
}

// A register's word goes to another: `addi rd, source, 0`.
fn copy(rd: Reg, source: Reg) -> Instr
    ensures { result ≡ Instr.WithImm ImmOp.Addi rd source (pos 0) }
{
    Instr::WithImm {
        op: ImmOp::Addi,
        rd,
        first: source,
        imm: 0,
    }
}

// An operation on two registers, the one with the greater number first.
fn ordered(op: RegOp, rd: Reg, first: Reg, second: Reg) -> Instr
    ensures { result ≡ greater_first op rd first second }
{
    if first.number() < second.number() {
        Instr::WithReg {
            op,
            rd,
            first: second,
            second: first,
        }
    } else {
        Instr::WithReg {
            op,
            rd,
            first,
            second,
        }
    }
}
