// The halfwords of jumps and branches.

ghost use Rattle.std.specs.Prelude.{◌≡◌, ◌<◌, ◌^◌};
ghost use Rattle.zc_encode.specs.Halves.{beqz_half, branch_half, jal_half, jalr_half, jump_half};

use crate::fields::{half, is_popular, is_signed, low_bits, number};
use rv_decode::bits::field_at;
use rv_decode::instr::BranchOp;
use zc_base::reg::Reg;

/// The halfword of a jump, if it has one.
pub fn jal(rd: Reg, distance: i32) -> Option<u16>
    ensures { result ≡ jal_half rd distance }
{
    match number(rd) {
        1 => jump(0b001_01, distance),
        0 => jump(0b101_01, distance),
        _ => None,
    }
}

/// The halfword of c.j or c.jal, by its group.
pub fn jump(group: u32, distance: i32) -> Option<u16>
    requires { group < 2 ^ 5 }
    ensures { result ≡ jump_half group distance }
{
    if is_signed(12, 2, distance) {
        let n = low_bits(12, distance);
        let upper = field_at(n, 8, 2) << 2 | (field_at(n, 10, 1) << 1 | field_at(n, 6, 1));
        let lower = field_at(n, 1, 3) << 1 | field_at(n, 5, 1);
        Some(half(
            group,
            field_at(n, 11, 1),
            field_at(n, 4, 1) << 4 | upper,
            field_at(n, 7, 1) << 4 | lower,
        ))
    } else {
        None
    }
}

/// The halfword of a jump to a register, if it has one.
pub fn jalr(rd: Reg, base: Reg, imm: i32) -> Option<u16>
    ensures { result ≡ jalr_half rd base imm }
{
    if number(rd) < 2 && number(base) != 0 && imm == 0 {
        Some(half(0b100_10, number(rd), number(base), 0))
    } else {
        None
    }
}

/// The halfword of a branch, if it has one.
pub fn branch(op: BranchOp, first: Reg, second: Reg, distance: i32) -> Option<u16>
    ensures { result ≡ branch_half op first second distance }
{
    match op {
        BranchOp::Beq => on_zero(0b110_01, first, second, distance),
        BranchOp::Bne => on_zero(0b111_01, first, second, distance),
        BranchOp::Blt | BranchOp::Bge | BranchOp::Bltu | BranchOp::Bgeu => None,
    }
}

// c.beqz and c.bnez
fn on_zero(group: u32, first: Reg, second: Reg, distance: i32) -> Option<u16>
    requires { group < 2 ^ 5 }
    ensures { result ≡ beqz_half group first second distance }
{
    if number(second) == 0 && is_popular(first) && is_signed(9, 2, distance) {
        let n = low_bits(9, distance);
        let low = field_at(n, 1, 2) << 1 | field_at(n, 5, 1);
        Some(half(
            group,
            field_at(n, 8, 1),
            field_at(n, 3, 2) << 3 | (number(first) - 8),
            field_at(n, 6, 2) << 3 | low,
        ))
    } else {
        None
    }
}
