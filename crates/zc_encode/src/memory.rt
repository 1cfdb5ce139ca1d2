// The halfwords of loads and stores.

ghost use Rattle.std.specs.Prelude.{◌≡◌, ◌<◌, ◌^◌};
ghost use Rattle.zc_encode.specs.Halves.{byte_half, half_half, load_half, lwsp_half, store_half, swsp_half, word_half};

use crate::fields::{half, is_offset, is_popular, number, word};
use rv_decode::bits::field_at;
use rv_decode::instr::{LoadOp, StoreOp};
use zc_base::reg::Reg;

/// The halfword of a load, if it has one.
pub fn load(op: LoadOp, rd: Reg, base: Reg, imm: i32) -> Option<u16>
    ensures { result ≡ load_half op rd base imm }
{
    match op {
        LoadOp::Lb => None,
        LoadOp::Lh => of_half(0b01, 1, rd, base, imm),
        LoadOp::Lw => of_word(0b010_00, rd, base, imm).or(lwsp(rd, base, imm)),
        LoadOp::Lbu => of_byte(0b00, rd, base, imm),
        LoadOp::Lhu => of_half(0b01, 0, rd, base, imm),
    }
}

/// The halfword of a store, if it has one.
pub fn store(op: StoreOp, source: Reg, base: Reg, imm: i32) -> Option<u16>
    ensures { result ≡ store_half op source base imm }
{
    match op {
        StoreOp::Sb => of_byte(0b10, source, base, imm),
        StoreOp::Sh => of_half(0b11, 0, source, base, imm),
        StoreOp::Sw => of_word(0b110_00, source, base, imm).or(swsp(source, base, imm)),
    }
}

/// The halfword of c.lw or c.sw, by its group.
pub fn of_word(group: u32, r: Reg, base: Reg, imm: i32) -> Option<u16>
    requires { group < 2 ^ 5 }
    ensures { result ≡ word_half group r base imm }
{
    if is_popular(r) && is_popular(base) && is_offset(128, 4, imm) {
        let n = word(imm);
        let upper = field_at(n, 3, 2) << 3 | (number(base) - 8);
        let lower = field_at(n, 6, 1) << 3 | (number(r) - 8);
        let lower = field_at(n, 2, 1) << 4 | lower;
        Some(half(group, field_at(n, 5, 1), upper, lower))
    } else {
        None
    }
}

/// The halfword of c.lbu or c.sb, by its bits 11 to 10.
pub fn of_byte(which: u32, r: Reg, base: Reg, imm: i32) -> Option<u16>
    requires { which < 4 }
    ensures { result ≡ byte_half which r base imm }
{
    if is_popular(r) && is_popular(base) && is_offset(4, 1, imm) {
        let n = word(imm);
        let lower = field_at(n, 1, 1) << 3 | (number(r) - 8);
        Some(half(
            0b100_00,
            0,
            which << 3 | (number(base) - 8),
            field_at(n, 0, 1) << 4 | lower,
        ))
    } else {
        None
    }
}

/// The halfword of c.lhu, c.lh or c.sh, by its bits 11 to 10 and 6.
pub fn of_half(which: u32, bit: u32, r: Reg, base: Reg, imm: i32) -> Option<u16>
    requires which { which < 4 }
    requires bit { bit < 2 }
    ensures { result ≡ half_half which bit r base imm }
{
    if is_popular(r) && is_popular(base) && is_offset(4, 2, imm) {
        let lower = field_at(word(imm), 1, 1) << 3 | (number(r) - 8);
        Some(half(
            0b100_00,
            0,
            which << 3 | (number(base) - 8),
            bit << 4 | lower,
        ))
    } else {
        None
    }
}

/// The halfword of c.lwsp.
pub fn lwsp(rd: Reg, base: Reg, imm: i32) -> Option<u16>
    ensures { result ≡ lwsp_half rd base imm }
{
    if number(base) == 2 && number(rd) != 0 && is_offset(256, 4, imm) {
        let n = word(imm);
        let lower = field_at(n, 2, 3) << 2 | field_at(n, 6, 2);
        Some(half(0b010_10, field_at(n, 5, 1), number(rd), lower))
    } else {
        None
    }
}

/// The halfword of c.swsp.
pub fn swsp(source: Reg, base: Reg, imm: i32) -> Option<u16>
    ensures { result ≡ swsp_half source base imm }
{
    if number(base) == 2 && is_offset(256, 4, imm) {
        let n = word(imm);
        let upper = field_at(n, 2, 3) << 2 | field_at(n, 6, 2);
        Some(half(0b110_10, field_at(n, 5, 1), upper, number(source)))
    } else {
        None
    }
}
