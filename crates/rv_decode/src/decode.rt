// The instruction that a word spells.

ghost use Rattle.std.specs.Prelude.{◌≡◌};
ghost use Rattle.rv_decode.specs.Decode.{decoded, opcodes, row_of, system_of, with_imm_of};
ghost use Rattle.rv_decode.specs.Formats.{imm_u_of, rd_of};

use crate::bits::{field_at, register_at};
use crate::formats::{funct, imm_b, imm_i, imm_j, imm_s};
use crate::instr::{Instr, UpperOp};
use crate::ops::{branch_op, imm_op, load_op, reg_op, shift_op, store_op};

// The number of the table base register jvt among the control and status registers.
const JVT: u32 = 0x017;

/// The instruction that a word spells, or none if the table has no row for it.
#[tactic(auto, unfolding(crate::specs::Decode::decoded))]
pub fn decode(word: u32) -> Option<Instr>
    ensures { result ≡ decoded word }
{
    match field_at(word, 0, 7) {
        0b011_0111 => Some(upper(UpperOp::Lui, word)),
        0b001_0111 => Some(upper(UpperOp::Auipc, word)),
        0b110_1111 => Some(jal(word)),
        0b110_0111 => jalr(word),
        0b110_0011 => branch(word),
        0b000_0011 => load(word),
        0b010_0011 => store(word),
        0b001_0011 => with_imm(word),
        0b011_0011 => with_reg(word),
        0b000_1111 => fence(word),
        0b111_0011 => system(word),
        _ => None,
    }
}

fn upper(op: UpperOp, word: u32) -> Instr
    ensures { result ≡ Instr.Upper op (rd_of word) (imm_u_of word) }
{
    Instr::Upper {
        op,
        rd: register_at(word, 7),
        imm: field_at(word, 12, 20),
    }
}

fn jal(word: u32) -> Instr
    ensures { row_of (opcodes word) 0b1101111 ≡ Some (Some result) }
{
    Instr::Jal {
        rd: register_at(word, 7),
        distance: imm_j(word),
    }
}

fn jalr(word: u32) -> Option<Instr>
    ensures { row_of (opcodes word) 0b1100111 ≡ Some result }
{
    match field_at(word, 12, 3) {
        0b000 => Some(Instr::Jalr {
            rd: register_at(word, 7),
            base: register_at(word, 15),
            imm: imm_i(word),
        }),
        _ => None,
    }
}

fn branch(word: u32) -> Option<Instr>
    ensures { row_of (opcodes word) 0b1100011 ≡ Some result }
{
    Some(Instr::Branch {
        op: branch_op(field_at(word, 12, 3))?,
        first: register_at(word, 15),
        second: register_at(word, 20),
        distance: imm_b(word),
    })
}

fn load(word: u32) -> Option<Instr>
    ensures { row_of (opcodes word) 0b0000011 ≡ Some result }
{
    Some(Instr::Load {
        op: load_op(field_at(word, 12, 3))?,
        rd: register_at(word, 7),
        base: register_at(word, 15),
        imm: imm_i(word),
    })
}

fn store(word: u32) -> Option<Instr>
    ensures { row_of (opcodes word) 0b0100011 ≡ Some result }
{
    Some(Instr::Store {
        op: store_op(field_at(word, 12, 3))?,
        source: register_at(word, 20),
        base: register_at(word, 15),
        imm: imm_s(word),
    })
}

fn with_imm(word: u32) -> Option<Instr>
    ensures { result ≡ with_imm_of word }
{
    let rd = register_at(word, 7);
    let first = register_at(word, 15);
    if let Some(op) = imm_op(field_at(word, 12, 3)) {
        let imm = imm_i(word);
        return Some(Instr::WithImm { op, rd, first, imm });
    }
    let op = shift_op(funct(word))?;
    let imm = field_at(word, 20, 5) as i32;
    Some(Instr::WithImm { op, rd, first, imm })
}

fn with_reg(word: u32) -> Option<Instr>
    ensures { row_of (opcodes word) 0b0110011 ≡ Some result }
{
    Some(Instr::WithReg {
        op: reg_op(funct(word))?,
        rd: register_at(word, 7),
        first: register_at(word, 15),
        second: register_at(word, 20),
    })
}

fn fence(word: u32) -> Option<Instr>
    ensures { row_of (opcodes word) 0b0001111 ≡ Some result }
{
    match field_at(word, 12, 3) {
        0b000 => Some(Instr::Fence {
            rest: field_at(word, 15, 17) << 5 | field_at(word, 7, 5),
        }),
        _ => None,
    }
}

fn system(word: u32) -> Option<Instr>
    ensures { result ≡ system_of word }
{
    match word {
        0x0000_0073 => Some(Instr::Ecall),
        0x0010_0073 => Some(Instr::Ebreak),
        _ if field_at(word, 12, 3) == 0b001 && field_at(word, 20, 12) == JVT => Some(
            Instr::Csrrw {
                rd: register_at(word, 7),
                source: register_at(word, 15),
            },
        ),
        _ => None,
    }
}
