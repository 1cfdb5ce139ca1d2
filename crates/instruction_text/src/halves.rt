// The halfword of a row with operands.

ghost use Rattle.std.specs.Prelude.{◌≡◌, ◌<◌};
ghost use Rattle.instruction_text.specs.Assembly as assembly;
ghost use Rattle.instruction_text.specs.Assembly.{assembled_half};

use crate::operands::Operands;
use crate::words::natural_below;
use rv_decode::bits::field_at;
use rv_decode::instr::BranchOp;
use zc_base::reg::Reg;
use zc_decode::form::Form;
use zc_encode::fields::{half, has_bits, is_offset, is_popular, number, word};
use zc_encode::jumps::{branch, jalr, jump};
use zc_encode::memory::{lwsp, of_byte, of_half, of_word, swsp};
use zc_encode::with_imm::{addi4spn, addi16sp, andi, six, unary};
use zc_encode::with_reg::pair;
use zc_encode::zcmp::{move_as, move_sa, push_or_pop, table_jump};

/// The halfword of a row with operands, if they are of its kind and fit.
pub fn assemble_half(form: Form, operands: Operands) -> Option<u16>
    ensures { result ≡ assembled_half form operands }
{
    match operands {
        Operands::Nothing => match form {
            Form::CEbreak => Some(0x9002),
            _ => None,
        },
        Operands::OneNumber(index) => with_index(form, index),
        Operands::TwoNumbers(list, adjust) => with_list(form, list, adjust),
        Operands::TwoRegisters(first, second) => with_moves(form, first, second),
        Operands::RegisterNumber(rd, z) => with_register(form, rd, z),
        Operands::RegistersNumber(a, b, z) => with_registers(form, a, b, z),
        Operands::ThreeRegisters(rd, first, second) => on_registers(form, rd, first, second),
    }
}

fn with_index(form: Form, index: i32) -> Option<u16>
    ensures { result ≡ assembled_half form (Operands.OneNumber index) }
{
    match form {
        Form::CmJt | Form::CmJalt => table_jump(byte(index)?),
        _ => None,
    }
}

// A number as a byte.
fn byte(z: i32) -> Option<u8>
    ensures { result ≡ assembly.natural_below 256 z }
{
    u8::try_from(z).ok()
}

fn with_list(form: Form, list: i32, adjust: i32) -> Option<u16>
    ensures { result ≡ assembled_half form (Operands.TwoNumbers list adjust) }
{
    match form {
        Form::CmPush => of_list(0b1000, list, adjust),
        Form::CmPop => of_list(0b1010, list, adjust),
        Form::CmPopretz => of_list(0b1100, list, adjust),
        Form::CmPopret => of_list(0b1110, list, adjust),
        _ => None,
    }
}

// A push or pop, by its bits 11 to 8.
fn of_list(kind: u32, list: i32, adjust: i32) -> Option<u16>
    requires { kind < 16 }
    ensures { result ≡ assembly.numbers_half kind list adjust }
{
    let list = byte(list)?;
    push_or_pop(kind, list, byte(adjust)?)
}

fn with_moves(form: Form, first: Reg, second: Reg) -> Option<u16>
    ensures { result ≡ assembled_half form (Operands.TwoRegisters first second) }
{
    match form {
        Form::CmMvsa01 => move_sa(first, second),
        Form::CmMva01s => move_as(first, second),
        _ => None,
    }
}

fn with_register(form: Form, rd: Reg, z: i32) -> Option<u16>
    ensures { result ≡ assembled_half form (Operands.RegisterNumber rd z) }
{
    match form {
        Form::CJal => own_jump(0b001_01, 1, rd, z),
        Form::CJ => own_jump(0b101_01, 0, rd, z),
        Form::CLui => lui(rd, natural_below(1 << 20, z)?),
        _ => None,
    }
}

// c.j and c.jal: a jump with this rd.
fn own_jump(group: u32, own: u32, rd: Reg, distance: i32) -> Option<u16>
    requires { group < 32 }
    ensures { result ≡ assembly.own_jump_half group own rd distance }
{
    if number(rd) == own {
        jump(group, distance)
    } else {
        None
    }
}

// c.lui, hints too.
fn lui(rd: Reg, imm: u32) -> Option<u16>
    ensures { result ≡ assembly.any_lui_half rd imm }
{
    let is_six_bits = 0 < imm && imm < 32 || 0xF_FFE0 <= imm && imm < 0x10_0000;
    if number(rd) != 2 && is_six_bits {
        let (high, low) = (field_at(imm, 5, 1), field_at(imm, 0, 5));
        Some(half(0b011_01, high, number(rd), low))
    } else {
        None
    }
}

fn with_registers(form: Form, a: Reg, b: Reg, z: i32) -> Option<u16>
    ensures { result ≡ assembled_half form (Operands.RegistersNumber a b z) }
{
    match form {
        Form::CAddi4spn => addi4spn(a, b, z),
        Form::CLw => of_word(0b010_00, a, b, z),
        Form::CSw => of_word(0b110_00, b, a, z),
        Form::CLbu => of_byte(0b00, a, b, z),
        Form::CLhu => of_half(0b01, 0, a, b, z),
        Form::CLh => of_half(0b01, 1, a, b, z),
        Form::CSb => of_byte(0b10, b, a, z),
        Form::CSh => of_half(0b11, 0, b, a, z),
        Form::CNop | Form::CAddi => addi(a, b, z),
        Form::CLi => li(a, b, z),
        Form::CAddi16sp => addi16sp(a, b, z),
        Form::CSrli => shift_right(0b00, a, b, z),
        Form::CSrai => shift_right(0b01, a, b, z),
        Form::CAndi => andi(a, b, z),
        Form::CZextB => unary(255, 0b11000, a, b, z),
        Form::CNot => unary(-1, 0b11101, a, b, z),
        Form::CBeqz => branch(BranchOp::Beq, a, b, z),
        Form::CBnez => branch(BranchOp::Bne, a, b, z),
        Form::CSlli => slli(a, b, z),
        Form::CLwsp => lwsp(a, b, z),
        Form::CJr => own_jalr(0, a, b, z),
        Form::CJalr => own_jalr(1, a, b, z),
        Form::CSwsp => swsp(b, a, z),
        _ => None,
    }
}

// c.addi, c.nop too, hints too.
fn addi(rd: Reg, first: Reg, imm: i32) -> Option<u16>
    ensures { result ≡ assembly.any_addi_half rd first imm }
{
    if number(first) == number(rd) && has_bits(6, imm) {
        Some(six(0b000_01, number(rd), imm))
    } else {
        None
    }
}

// c.li, hints too.
fn li(rd: Reg, first: Reg, imm: i32) -> Option<u16>
    ensures { result ≡ assembly.any_li_half rd first imm }
{
    if number(first) == 0 && has_bits(6, imm) {
        Some(six(0b010_01, number(rd), imm))
    } else {
        None
    }
}

// c.srli and c.srai, hints too, by their bits 11 to 10.
fn shift_right(which: u32, rd: Reg, first: Reg, imm: i32) -> Option<u16>
    requires { which < 4 }
    ensures { result ≡ assembly.any_right_half which rd first imm }
{
    if number(first) == number(rd) && is_popular(rd) && is_offset(32, 1, imm) {
        let upper = which << 3 | (number(rd) - 8);
        Some(half(0b100_01, 0, upper, word(imm)))
    } else {
        None
    }
}

// c.slli, hints too.
fn slli(rd: Reg, first: Reg, imm: i32) -> Option<u16>
    ensures { result ≡ assembly.any_slli_half rd first imm }
{
    if number(first) == number(rd) && is_offset(32, 1, imm) {
        Some(half(0b000_10, 0, number(rd), word(imm)))
    } else {
        None
    }
}

// c.jr and c.jalr: a jump to a register, with this rd.
fn own_jalr(own: u32, rd: Reg, base: Reg, imm: i32) -> Option<u16>
    ensures { result ≡ assembly.own_jalr_half own rd base imm }
{
    if number(rd) == own {
        jalr(rd, base, imm)
    } else {
        None
    }
}

fn on_registers(form: Form, rd: Reg, first: Reg, second: Reg) -> Option<u16>
    ensures { result ≡ assembled_half form (Operands.ThreeRegisters rd first second) }
{
    match form {
        Form::CSub => own_pair(0, 0b00, rd, first, second),
        Form::CXor => own_pair(0, 0b01, rd, first, second),
        Form::COr => own_pair(0, 0b10, rd, first, second),
        Form::CAnd => own_pair(0, 0b11, rd, first, second),
        Form::CMul => own_pair(1, 0b10, rd, first, second),
        Form::CMv => mv(rd, first, second),
        Form::CAdd => add(rd, first, second),
        _ => None,
    }
}

// An operation on two registers of x8 to x15, of which the first is rd too.
fn own_pair(bit: u32, which: u32, rd: Reg, first: Reg, second: Reg) -> Option<u16>
    requires bit { bit < 2 }
    requires which { which < 4 }
    ensures { result ≡ assembly.own_pair_half bit which rd first second }
{
    if number(first) == number(rd) {
        pair(bit, which, rd, second)
    } else {
        None
    }
}

// c.mv, hints too.
fn mv(rd: Reg, first: Reg, second: Reg) -> Option<u16>
    ensures { result ≡ assembly.any_mv_half rd first second }
{
    if number(first) == 0 && number(second) != 0 {
        Some(half(0b100_10, 0, number(rd), number(second)))
    } else {
        None
    }
}

// c.add, hints too.
fn add(rd: Reg, first: Reg, second: Reg) -> Option<u16>
    ensures { result ≡ assembly.any_add_half rd first second }
{
    if number(first) == number(rd) && number(second) != 0 {
        Some(half(0b100_10, 1, number(rd), number(second)))
    } else {
        None
    }
}
