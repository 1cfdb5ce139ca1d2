// The halfwords of operations on two registers.

ghost use Rattle.std.specs.Prelude.{◌≡◌, ◌<◌};
ghost use Rattle.zc_encode.specs.Halves.{add_half, either_half, pair_half, plus_half, with_reg_half};

use crate::fields::{half, is_popular, number};
use rv_decode::instr::RegOp;
use zc_base::reg::Reg;

/// The halfword of an operation on two registers, if it has one.
pub fn with_reg(op: RegOp, rd: Reg, first: Reg, second: Reg) -> Option<u16>
    ensures { result ≡ with_reg_half op rd first second }
{
    match op {
        RegOp::Add => add(rd, first, second),
        RegOp::Sub => sub(rd, first, second),
        RegOp::Xor => either(0, 0b01, rd, first, second),
        RegOp::Or => either(0, 0b10, rd, first, second),
        RegOp::And => either(0, 0b11, rd, first, second),
        RegOp::Mul => either(1, 0b10, rd, first, second),
        RegOp::Sll | RegOp::Slt | RegOp::Sltu | RegOp::Srl | RegOp::Sra => None,
        RegOp::Mulh | RegOp::Mulhsu | RegOp::Mulhu => None,
        RegOp::Div | RegOp::Divu | RegOp::Rem | RegOp::Remu => None,
    }
}

fn add(rd: Reg, first: Reg, second: Reg) -> Option<u16>
    ensures { result ≡ add_half rd first second }
{
    if number(first) == number(rd) {
        plus(rd, second)
    } else if number(second) == number(rd) {
        plus(rd, first)
    } else {
        None
    }
}

// c.add, with the second source.
fn plus(rd: Reg, second: Reg) -> Option<u16>
    ensures { result ≡ plus_half rd second }
{
    if number(rd) != 0 && number(second) != 0 {
        Some(half(0b100_10, 1, number(rd), number(second)))
    } else {
        None
    }
}

fn sub(rd: Reg, first: Reg, second: Reg) -> Option<u16>
    ensures { result ≡ with_reg_half RegOp.Sub rd first second }
{
    if number(first) == number(rd) {
        pair(0, 0b00, rd, second)
    } else {
        None
    }
}

// An operation whose sources may be swapped.
fn either(bit: u32, which: u32, rd: Reg, first: Reg, second: Reg) -> Option<u16>
    requires bit { bit < 2 }
    requires which { which < 4 }
    ensures { result ≡ either_half bit which rd first second }
{
    if number(first) == number(rd) {
        pair(bit, which, rd, second)
    } else if number(second) == number(rd) {
        pair(bit, which, rd, first)
    } else {
        None
    }
}

/// The halfword of an operation on two registers of x8 to x15.
pub fn pair(bit: u32, which: u32, rd: Reg, second: Reg) -> Option<u16>
    requires bit { bit < 2 }
    requires which { which < 4 }
    ensures { result ≡ pair_half bit which rd second }
{
    if is_popular(rd) && is_popular(second) {
        let upper = 0b11 << 3 | (number(rd) - 8);
        let lower = which << 3 | (number(second) - 8);
        Some(half(0b100_01, bit, upper, lower))
    } else {
        None
    }
}
