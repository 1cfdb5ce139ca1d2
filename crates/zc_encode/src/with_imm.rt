// The halfwords of operations with an immediate, and of upper immediates.

ghost use Rattle.std.specs.Prelude.{◌≡◌, ◌<◌, ◌^◌};
ghost use Rattle.zc_encode.specs.Halves.{addi16sp_half, addi4spn_half, addi_half, andi_half, li_half, lui_half, mv_half, nop_half, right_half, six_half, slli_half, sum_half, unary_half, with_imm_half};

use crate::fields::{
    half, has_bits, is_amount, is_offset, is_popular, is_signed, low_bits, number, word,
};
use rv_decode::bits::field_at;
use rv_decode::instr::{ImmOp, UpperOp};
use zc_base::reg::Reg;

/// The halfword of an operation with an immediate, if it has one.
pub fn with_imm_half(op: ImmOp, rd: Reg, first: Reg, imm: i32) -> Option<u16>
    ensures { result ≡ with_imm_half op rd first imm }
{
    match op {
        ImmOp::Addi => sum(rd, first, imm),
        ImmOp::Slti => None,
        ImmOp::Sltiu => None,
        ImmOp::Xori => unary(-1, 0b11101, rd, first, imm),
        ImmOp::Ori => None,
        ImmOp::Andi => andi(rd, first, imm).or(unary(255, 0b11000, rd, first, imm)),
        ImmOp::Slli => slli(rd, first, imm),
        ImmOp::Srli => shift_right(0b00, rd, first, imm),
        ImmOp::Srai => shift_right(0b01, rd, first, imm),
    }
}

/// The halfword of an upper immediate, if it has one.
pub fn upper(op: UpperOp, rd: Reg, imm: u32) -> Option<u16>
    ensures { result ≡ lui_half op rd imm }
{
    match op {
        UpperOp::Lui => lui(rd, imm),
        UpperOp::Auipc => None,
    }
}

fn lui(rd: Reg, imm: u32) -> Option<u16>
    ensures { result ≡ lui_half UpperOp.Lui rd imm }
{
    let is_six_bits = 0 < imm && imm < 32 || 0xF_FFE0 <= imm && imm < 0x10_0000;
    if number(rd) != 0 && number(rd) != 2 && is_six_bits {
        Some(half(
            0b011_01,
            field_at(imm, 5, 1),
            number(rd),
            field_at(imm, 0, 5),
        ))
    } else {
        None
    }
}

// The halfword of an `addi`, by the first row that can encode it.
fn sum(rd: Reg, first: Reg, imm: i32) -> Option<u16>
    ensures { result ≡ sum_half rd first imm }
{
    let last = addi16sp(rd, first, imm).or(mv(rd, first, imm));
    let later = addi(rd, first, imm).or(li(rd, first, imm).or(last));
    addi4spn(rd, first, imm).or(nop(rd, first, imm).or(later))
}

/// The halfword of c.addi4spn.
pub fn addi4spn(rd: Reg, first: Reg, imm: i32) -> Option<u16>
    ensures { result ≡ addi4spn_half rd first imm }
{
    if number(first) == 2 && is_popular(rd) && is_offset(1024, 4, imm) && word(imm) != 0 {
        let n = word(imm);
        let upper = field_at(n, 4, 1) << 4 | field_at(n, 6, 4);
        let lower = field_at(n, 3, 1) << 3 | (number(rd) - 8);
        let lower = field_at(n, 2, 1) << 4 | lower;
        Some(half(0b000_00, field_at(n, 5, 1), upper, lower))
    } else {
        None
    }
}

fn nop(rd: Reg, first: Reg, imm: i32) -> Option<u16>
    ensures { result ≡ nop_half rd first imm }
{
    if number(rd) == 0 && number(first) == 0 && imm == 0 {
        Some(six(0b000_01, 0, 0))
    } else {
        None
    }
}

fn addi(rd: Reg, first: Reg, imm: i32) -> Option<u16>
    ensures { result ≡ addi_half rd first imm }
{
    if number(first) == number(rd) && number(rd) != 0 && has_bits(6, imm) && imm != 0 {
        Some(six(0b000_01, number(rd), imm))
    } else {
        None
    }
}

fn li(rd: Reg, first: Reg, imm: i32) -> Option<u16>
    ensures { result ≡ li_half rd first imm }
{
    if number(first) == 0 && number(rd) != 0 && has_bits(6, imm) {
        Some(six(0b010_01, number(rd), imm))
    } else {
        None
    }
}

/// The halfword of c.addi16sp.
pub fn addi16sp(rd: Reg, first: Reg, imm: i32) -> Option<u16>
    ensures { result ≡ addi16sp_half rd first imm }
{
    let n = low_bits(10, imm);
    if number(rd) == 2 && number(first) == 2 && is_signed(10, 16, imm) && n != 0 {
        let low = field_at(n, 7, 2) << 1 | field_at(n, 5, 1);
        let lower = field_at(n, 4, 1) << 4 | (field_at(n, 6, 1) << 3 | low);
        Some(half(0b011_01, field_at(n, 9, 1), 2, lower))
    } else {
        None
    }
}

fn mv(rd: Reg, first: Reg, imm: i32) -> Option<u16>
    ensures { result ≡ mv_half rd first imm }
{
    if imm == 0 && number(rd) != 0 && number(first) != 0 {
        Some(half(0b100_10, 0, number(rd), number(first)))
    } else {
        None
    }
}

/// A halfword with a signed immediate of six bits.
pub fn six(group: u32, upper: u32, imm: i32) -> u16
    requires group { group < 2 ^ 5 }
    requires upper { upper < 2 ^ 5 }
    ensures { result ≡ six_half group upper imm }
{
    let n = low_bits(6, imm);
    half(group, field_at(n, 5, 1), upper, field_at(n, 0, 5))
}

// c.srli and c.srai
fn shift_right(which: u32, rd: Reg, first: Reg, imm: i32) -> Option<u16>
    requires { which < 4 }
    ensures { result ≡ right_half which rd first imm }
{
    if number(first) == number(rd) && is_popular(rd) && is_amount(imm) {
        let upper = which << 3 | (number(rd) - 8);
        Some(half(0b100_01, 0, upper, word(imm)))
    } else {
        None
    }
}

fn slli(rd: Reg, first: Reg, imm: i32) -> Option<u16>
    ensures { result ≡ slli_half rd first imm }
{
    if number(first) == number(rd) && number(rd) != 0 && is_amount(imm) {
        Some(half(0b000_10, 0, number(rd), word(imm)))
    } else {
        None
    }
}

/// The halfword of c.andi.
pub fn andi(rd: Reg, first: Reg, imm: i32) -> Option<u16>
    ensures { result ≡ andi_half rd first imm }
{
    if number(first) == number(rd) && is_popular(rd) && has_bits(6, imm) {
        Some(six(0b100_01, 0b10 << 3 | (number(rd) - 8), imm))
    } else {
        None
    }
}

/// The halfword of c.zext.b or c.not: an operation on one register and this immediate.
pub fn unary(wanted: i32, which: u32, rd: Reg, first: Reg, imm: i32) -> Option<u16>
    requires { which < 2 ^ 5 }
    ensures { result ≡ unary_half wanted which rd first imm }
{
    if number(first) == number(rd) && is_popular(rd) && imm == wanted {
        Some(half(0b100_01, 1, 0b11 << 3 | (number(rd) - 8), which))
    } else {
        None
    }
}
