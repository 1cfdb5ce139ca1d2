// The halfword that encodes an instruction.

ghost use Rattle.std.specs.Prelude.{◌≡◌};
ghost use Rattle.rv_decode.specs.Registers.{HasRegisters};
ghost use Rattle.zc_encode.specs.Encoding.{IsEncoding};
ghost use Rattle.zc_encode.specs.Halves.{encoded16, half_for};

use crate::jumps::{branch, jal, jalr};
use crate::memory::{load, store};
use crate::with_imm::{upper, with_imm_half};
use crate::with_reg::with_reg;
use crate::zcmp::{move_as, move_sa, push_or_pop, table_jump};
use rv_decode::instr::Instr;
use rv_decode::normal::normal;
use zc_decode::short::Short;

/// The halfword, of the first row in the tables, that encodes something with the same normal form and is
/// no hint; `None` if there is no such halfword.
pub fn encode16(s: Short) -> Option<u16>
    ensures first { IsEncoding s result }
    ensures fields { result ≡ encoded16 s }
{
    match s {
        Short::Base(i) => encode(normal(i)),
        Short::Push { list, adjust } => push_or_pop(0b1000, list, adjust),
        Short::Pop { list, adjust } => push_or_pop(0b1010, list, adjust),
        Short::PopRet { list, adjust } => push_or_pop(0b1110, list, adjust),
        Short::PopRetz { list, adjust } => push_or_pop(0b1100, list, adjust),
        Short::MoveSa { first, second } => move_sa(first, second),
        Short::MoveAs { first, second } => move_as(first, second),
        Short::TableJump { index } => table_jump(index),
    }
}

// The halfword of an instruction in normal form, if it has one.
fn encode(i: Instr) -> Option<u16>
    ensures value { result ≡ half_for i }
    ensures registers { HasRegisters i }
{
    match i {
        Instr::Upper { op, rd, imm } => upper(op, rd, imm),
        Instr::Jal { rd, distance } => jal(rd, distance),
        Instr::Jalr { rd, base, imm } => jalr(rd, base, imm),
        Instr::Branch {
            op,
            first,
            second,
            distance,
        } => branch(op, first, second, distance),
        Instr::Load { op, rd, base, imm } => load(op, rd, base, imm),
        Instr::Store {
            op,
            source,
            base,
            imm,
        } => store(op, source, base, imm),
        Instr::WithImm { op, rd, first, imm } => with_imm_half(op, rd, first, imm),
        Instr::WithReg {
            op,
            rd,
            first,
            second,
        } => with_reg(op, rd, first, second),
        Instr::Ebreak => Some(0x9002),
        Instr::Fence { .. } => None,
        Instr::Ecall => None,
        Instr::Csrrw { .. } => None,
    }
}
