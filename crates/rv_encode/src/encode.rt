// The word of an instruction.
#![tactic(auto, unfolding(crate::specs::Words::encoded))]

ghost use Rattle.std.specs.Prelude.{◌≡◌, ◌<◌, ◌^◌, Some};
ghost use Rattle.rv_decode.specs.Bits.{FitsIn};
ghost use Rattle.rv_decode.specs.Decode.{decoded};
ghost use Rattle.rv_decode.specs.Immediates.{ImmInRange, InRange};
ghost use Rattle.rv_decode.specs.Registers.{HasRegisters};
ghost use Rattle.rv_encode.specs.Words.{encoded};

use crate::codes::{
    ImmCode, branch_funct3, imm_code, load_funct3, reg_funct, store_funct3, upper_opcode,
};
use crate::words::{bits_of, branch_five, branch_seven, jump_twenty, twelve, upper_word, word};
use rv_decode::bits::field_at;
use rv_decode::instr::{BranchOp, ImmOp, Instr, LoadOp, RegOp, StoreOp, UpperOp};
use zc_base::reg::Reg;

// The number of the table base register jvt among the control and status registers.
const JVT: u32 = 0x017;

/// The word that encodes an instruction whose immediate fits its field (RISC-V unprivileged manual,
/// "RV32/64G Instruction Set Listings").
pub fn encode(i: Instr) -> u32
    requires { InRange i }
    ensures decodes { decoded result ≡ Some i }
    ensures word { result ≡ encoded i }
{
    word_of(i)
}

// The word that `encode` returns, put together from its fields. `encode`'s contract follows from this one.
fn word_of(i: Instr) -> u32
    requires { InRange i }
    ensures word { result ≡ encoded i }
    ensures registers { HasRegisters i }
{
    match i {
        Instr::Upper { op, rd, imm } => upper(op, rd, imm),
        Instr::Jal { rd, distance } => jal(rd, distance),
        Instr::Jalr { rd, base, imm } => jalr(rd, base, imm),
        Instr::Branch {
            op,
            first,
            second,
            distance,
        } => branch(op, first, second, distance),
        Instr::Load { op, rd, base, imm } => load(op, rd, base, imm),
        Instr::Store {
            op,
            source,
            base,
            imm,
        } => store(op, source, base, imm),
        Instr::WithImm { op, rd, first, imm } => with_imm(op, rd, first, imm),
        Instr::WithReg {
            op,
            rd,
            first,
            second,
        } => with_reg(op, rd, first, second),
        Instr::Fence { rest } => fence(rest),
        Instr::Ecall => 0x0000_0073,
        Instr::Ebreak => 0x0010_0073,
        Instr::Csrrw { rd, source } => word(JVT, source, 0b001, number(rd), 0b111_0011),
    }
}

// A register's number, as five bits of a word.
fn number(r: Reg) -> u32
    ensures value { result ≡ r }
    ensures below { result < 2 ^ 5 }
{
    u32::from(r.number())
}

fn upper(op: UpperOp, rd: Reg, imm: u32) -> u32
    requires { imm < 2 ^ 20 }
    ensures { result ≡ encoded (Instr.Upper op rd imm) }
{
    upper_word(imm, number(rd), upper_opcode(op))
}

fn jal(rd: Reg, distance: i32) -> u32
    requires { FitsIn 21 distance }
    ensures { result ≡ encoded (Instr.Jal rd distance) }
{
    upper_word(jump_twenty(bits_of(21, distance)), number(rd), 0b110_1111)
}

fn jalr(rd: Reg, base: Reg, imm: i32) -> u32
    requires { FitsIn 12 imm }
    ensures { result ≡ encoded (Instr.Jalr rd base imm) }
{
    word(bits_of(12, imm), base, 0b000, number(rd), 0b110_0111)
}

fn branch(op: BranchOp, first: Reg, second: Reg, distance: i32) -> u32
    requires { FitsIn 13 distance }
    ensures { result ≡ encoded (Instr.Branch op first second distance) }
{
    let bits = bits_of(13, distance);
    let high = twelve(branch_seven(bits), number(second));
    word(
        high,
        first,
        branch_funct3(op),
        branch_five(bits),
        0b110_0011,
    )
}

fn load(op: LoadOp, rd: Reg, base: Reg, imm: i32) -> u32
    requires { FitsIn 12 imm }
    ensures { result ≡ encoded (Instr.Load op rd base imm) }
{
    word(
        bits_of(12, imm),
        base,
        load_funct3(op),
        number(rd),
        0b000_0011,
    )
}

fn store(op: StoreOp, source: Reg, base: Reg, imm: i32) -> u32
    requires { FitsIn 12 imm }
    ensures { result ≡ encoded (Instr.Store op source base imm) }
{
    let bits = bits_of(12, imm);
    let high = twelve(field_at(bits, 5, 7), number(source));
    word(
        high,
        base,
        store_funct3(op),
        field_at(bits, 0, 5),
        0b010_0011,
    )
}

fn with_imm(op: ImmOp, rd: Reg, first: Reg, imm: i32) -> u32
    requires { ImmInRange op imm }
    ensures { result ≡ encoded (Instr.WithImm op rd first imm) }
{
    match imm_code(op) {
        ImmCode::Operand(funct3) => {
            word(bits_of(12, imm), first, funct3, number(rd), 0b001_0011)
        }
        ImmCode::Shift(funct) => {
            let high = twelve(field_at(funct, 3, 7), imm.unsigned_abs());
            word(high, first, field_at(funct, 0, 3), number(rd), 0b001_0011)
        }
    }
}

fn with_reg(op: RegOp, rd: Reg, first: Reg, second: Reg) -> u32
    ensures { result ≡ encoded (Instr.WithReg op rd first second) }
{
    let funct = reg_funct(op);
    let high = twelve(field_at(funct, 3, 7), number(second));
    word(high, first, field_at(funct, 0, 3), number(rd), 0b011_0011)
}

fn fence(rest: u32) -> u32
    requires { rest < 2 ^ 22 }
    ensures { result ≡ encoded (Instr.Fence rest) }
{
    upper_word(rest >> 5 << 3, field_at(rest, 0, 5), 0b000_1111)
}
