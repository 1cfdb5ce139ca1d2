// What halfwords of the rows spell.

ghost use Rattle.std.specs.Prelude.{◌≡◌, ◌<◌, pos};
ghost use Rattle.zc_decode.specs.Halfwords.{spelled};

use crate::fields::{
    addi4spn, addi16sp, adjust, amount, byte_offset, cb_offset, cj_offset, half_offset, high_reg,
    imm_ci, index, list, low_reg, lui, lwsp, register, s_register, swsp, word_offset,
};
use crate::form::Form;
use crate::short::Short;
use rv_decode::bits::register_at;
use rv_decode::instr::{BranchOp, ImmOp, Instr, LoadOp, RegOp, StoreOp, UpperOp};
use zc_base::reg::Reg;

/// What a halfword of a row spells.
pub fn spell(form: Form, half: u32) -> Short
    ensures { result ≡ spelled form half }
{
    let (rd, rs2) = (register_at(half, 7), register_at(half, 2));
    let (high, low) = (high_reg(half), low_reg(half));
    match form {
        Form::CAddi4spn => with_imm(ImmOp::Addi, low, register(2), addi4spn(half)),
        Form::CLw => load(LoadOp::Lw, low, high, word_offset(half)),
        Form::CSw => store(StoreOp::Sw, low, high, word_offset(half)),
        Form::CLbu => load(LoadOp::Lbu, low, high, byte_offset(half)),
        Form::CLhu => load(LoadOp::Lhu, low, high, half_offset(half)),
        Form::CLh => load(LoadOp::Lh, low, high, half_offset(half)),
        Form::CSb => store(StoreOp::Sb, low, high, byte_offset(half)),
        Form::CSh => store(StoreOp::Sh, low, high, half_offset(half)),
        Form::CNop => with_imm(ImmOp::Addi, register(0), register(0), imm_ci(half)),
        Form::CAddi => with_imm(ImmOp::Addi, rd, rd, imm_ci(half)),
        Form::CJal => jal(1, cj_offset(half)),
        Form::CLi => with_imm(ImmOp::Addi, rd, register(0), imm_ci(half)),
        Form::CAddi16sp => with_imm(ImmOp::Addi, register(2), register(2), addi16sp(half)),
        Form::CLui => upper(rd, lui(half)),
        Form::CSrli => with_imm(ImmOp::Srli, high, high, amount(half)),
        Form::CSrai => with_imm(ImmOp::Srai, high, high, amount(half)),
        Form::CAndi => with_imm(ImmOp::Andi, high, high, imm_ci(half)),
        Form::CSub => with_reg(RegOp::Sub, high, high, low),
        Form::CXor => with_reg(RegOp::Xor, high, high, low),
        Form::COr => with_reg(RegOp::Or, high, high, low),
        Form::CAnd => with_reg(RegOp::And, high, high, low),
        Form::CMul => with_reg(RegOp::Mul, high, high, low),
        Form::CZextB => with_imm(ImmOp::Andi, high, high, 255),
        Form::CNot => with_imm(ImmOp::Xori, high, high, -1),
        Form::CJ => jal(0, cj_offset(half)),
        Form::CBeqz => branch_if_zero(BranchOp::Beq, high, cb_offset(half)),
        Form::CBnez => branch_if_zero(BranchOp::Bne, high, cb_offset(half)),
        Form::CSlli => with_imm(ImmOp::Slli, rd, rd, amount(half)),
        Form::CLwsp => load(LoadOp::Lw, rd, register(2), lwsp(half)),
        Form::CJr => jalr(0, rd),
        Form::CMv => with_reg(RegOp::Add, rd, register(0), rs2),
        Form::CEbreak => Short::Base(Instr::Ebreak),
        Form::CJalr => jalr(1, rd),
        Form::CAdd => with_reg(RegOp::Add, rd, rd, rs2),
        Form::CSwsp => store(StoreOp::Sw, rs2, register(2), swsp(half)),
        Form::CmPush => Short::Push {
            list: list(half),
            adjust: adjust(half),
        },
        Form::CmPop => Short::Pop {
            list: list(half),
            adjust: adjust(half),
        },
        Form::CmPopretz => Short::PopRetz {
            list: list(half),
            adjust: adjust(half),
        },
        Form::CmPopret => Short::PopRet {
            list: list(half),
            adjust: adjust(half),
        },
        Form::CmMvsa01 => Short::MoveSa {
            first: s_register(half, 7),
            second: s_register(half, 2),
        },
        Form::CmMva01s => Short::MoveAs {
            first: s_register(half, 7),
            second: s_register(half, 2),
        },
        Form::CmJt | Form::CmJalt => Short::TableJump { index: index(half) },
    }
}

fn with_imm(op: ImmOp, rd: Reg, first: Reg, imm: i32) -> Short
    ensures { result ≡ Short.Base (Instr.WithImm op rd first imm) }
{
    Short::Base(Instr::WithImm { op, rd, first, imm })
}

fn with_reg(op: RegOp, rd: Reg, first: Reg, second: Reg) -> Short
    ensures { result ≡ Short.Base (Instr.WithReg op rd first second) }
{
    Short::Base(Instr::WithReg {
        op,
        rd,
        first,
        second,
    })
}

fn load(op: LoadOp, rd: Reg, base: Reg, imm: i32) -> Short
    ensures { result ≡ Short.Base (Instr.Load op rd base imm) }
{
    Short::Base(Instr::Load { op, rd, base, imm })
}

fn store(op: StoreOp, source: Reg, base: Reg, imm: i32) -> Short
    ensures { result ≡ Short.Base (Instr.Store op source base imm) }
{
    Short::Base(Instr::Store {
        op,
        source,
        base,
        imm,
    })
}

fn upper(rd: Reg, imm: u32) -> Short
    ensures { result ≡ Short.Base (Instr.Upper UpperOp.Lui rd imm) }
{
    Short::Base(Instr::Upper {
        op: UpperOp::Lui,
        rd,
        imm,
    })
}

fn jal(rd: u32, distance: i32) -> Short
    requires { rd < 32 }
    ensures { result ≡ Short.Base (Instr.Jal rd distance) }
{
    Short::Base(Instr::Jal {
        rd: register(rd),
        distance,
    })
}

fn jalr(rd: u32, base: Reg) -> Short
    requires { rd < 32 }
    ensures { result ≡ Short.Base (Instr.Jalr rd base (pos 0)) }
{
    Short::Base(Instr::Jalr {
        rd: register(rd),
        base,
        imm: 0,
    })
}

fn branch_if_zero(op: BranchOp, first: Reg, distance: i32) -> Short
    ensures { result ≡ Short.Base (Instr.Branch op first 0 distance) }
{
    Short::Base(Instr::Branch {
        op,
        first,
        second: register(0),
        distance,
    })
}
