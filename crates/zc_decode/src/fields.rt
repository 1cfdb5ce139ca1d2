// The fields of halfwords.

ghost use Rattle.std.specs.Prelude.{◌≡◌, ◌<◌, pos};
ghost use Rattle.rv_decode.specs.Bits.{field};
ghost use Rattle.zc_decode.specs.Fields.{addi16sp_of, addi4spn_of, adjust_of, amount_of, cb_offset_of, byte_offset_of, group_of, half_offset_of, high_reg_of, imm_ci_of, cj_offset_of, index_of, list_of, low_reg_of, lui_of, lwsp_of, s_register_of, swsp_of, word_offset_of};

use crate::lists::base;
use rv_decode::bits::{field_at, signed_of};
use zc_base::reg::Reg;

/// Bits 15 to 13 and 1 to 0, as one number of five bits.
pub fn group_at(half: u32) -> u32
    ensures { result ≡ group_of half }
{
    field_at(half, 13, 3) << 2 | field_at(half, 0, 2)
}

/// The register of bits 9 to 7, one of x8 to x15.
pub fn high_reg(half: u32) -> Reg
    ensures { result ≡ high_reg_of half }
{
    register(8 + field_at(half, 7, 3))
}

/// The register of bits 4 to 2, one of x8 to x15.
pub fn low_reg(half: u32) -> Reg
    ensures { result ≡ low_reg_of half }
{
    register(8 + field_at(half, 2, 3))
}

/// The register with a number.
pub fn register(number: u32) -> Reg
    requires { number < 32 }
    ensures { result ≡ number }
{
    Reg::new(number as u8).unwrap()
}

/// The one of s0 to s7 whose number stands in the three bits from bit `low` on.
pub fn s_register(half: u32, low: u32) -> Reg
    requires { low < 32 }
    ensures { result ≡ s_register_of (field half low 3) }
{
    let code = field_at(half, low, 3);
    register(if code < 2 { 8 + code } else { 16 + code })
}

/// The register list of a push or pop.
pub fn list(half: u32) -> u8
    ensures { result ≡ list_of half }
{
    field_at(half, 4, 4) as u8
}

/// The bytes that a push or pop moves sp by.
pub fn adjust(half: u32) -> u8
    ensures { result ≡ adjust_of half }
{
    (base(field_at(half, 4, 4)) + 16 * field_at(half, 2, 2)) as u8
}

/// The entry of the jump table.
pub fn index(half: u32) -> u8
    ensures { result ≡ index_of half }
{
    field_at(half, 2, 8) as u8
}

/// The amount of a shift.
pub fn amount(half: u32) -> i32
    ensures { result ≡ pos (amount_of half) }
{
    field_at(half, 2, 5) as i32
}

/// The immediate of c.addi4spn.
pub fn addi4spn(half: u32) -> i32
    ensures { result ≡ pos (addi4spn_of half) }
{
    let low = field_at(half, 5, 1) << 3 | field_at(half, 6, 1) << 2;
    (field_at(half, 7, 4) << 6 | (field_at(half, 11, 2) << 4 | low)) as i32
}

/// The offset of c.lw and c.sw.
pub fn word_offset(half: u32) -> i32
    ensures { result ≡ pos (word_offset_of half) }
{
    let low = field_at(half, 10, 3) << 3 | field_at(half, 6, 1) << 2;
    (field_at(half, 5, 1) << 6 | low) as i32
}

/// The offset of c.lhu, c.lh and c.sh.
pub fn half_offset(half: u32) -> i32
    ensures { result ≡ pos (half_offset_of half) }
{
    (field_at(half, 5, 1) << 1) as i32
}

/// The offset of c.lbu and c.sb.
pub fn byte_offset(half: u32) -> i32
    ensures { result ≡ pos (byte_offset_of half) }
{
    (field_at(half, 5, 1) << 1 | field_at(half, 6, 1)) as i32
}

/// The offset of c.lwsp.
pub fn lwsp(half: u32) -> i32
    ensures { result ≡ pos (lwsp_of half) }
{
    let low = field_at(half, 12, 1) << 5 | field_at(half, 4, 3) << 2;
    (field_at(half, 2, 2) << 6 | low) as i32
}

/// The offset of c.swsp.
pub fn swsp(half: u32) -> i32
    ensures { result ≡ pos (swsp_of half) }
{
    (field_at(half, 7, 2) << 6 | field_at(half, 9, 4) << 2) as i32
}

/// The signed immediate of six bits.
pub fn imm_ci(half: u32) -> i32
    ensures { result ≡ imm_ci_of half }
{
    signed_of(6, field_at(half, 12, 1) << 5 | field_at(half, 2, 5))
}

/// The immediate of c.addi16sp.
pub fn addi16sp(half: u32) -> i32
    ensures { result ≡ addi16sp_of half }
{
    let low = field_at(half, 2, 1) << 5 | field_at(half, 6, 1) << 4;
    let high = field_at(half, 12, 1) << 2 | field_at(half, 3, 2);
    signed_of(10, high << 7 | (field_at(half, 5, 1) << 6 | low))
}

/// The upper 20 bits of c.lui.
pub fn lui(half: u32) -> u32
    ensures { result ≡ lui_of half }
{
    field_at(half, 12, 1) * 0xF_FFE0 + field_at(half, 2, 5)
}

/// The distance of c.j and c.jal.
pub fn cj_offset(half: u32) -> i32
    ensures { result ≡ cj_offset_of half }
{
    let low = field_at(half, 11, 1) << 4 | field_at(half, 3, 3) << 1;
    let middle = field_at(half, 6, 1) << 2 | (field_at(half, 7, 1) << 1 | field_at(half, 2, 1));
    let top = field_at(half, 12, 1) << 3 | (field_at(half, 8, 1) << 2 | field_at(half, 9, 2));
    signed_of(12, top << 8 | (middle << 5 | low))
}

/// The distance of c.beqz and c.bnez.
pub fn cb_offset(half: u32) -> i32
    ensures { result ≡ cb_offset_of half }
{
    let low = field_at(half, 10, 2) << 3 | field_at(half, 3, 2) << 1;
    let top = field_at(half, 12, 1) << 3 | (field_at(half, 5, 2) << 1 | field_at(half, 2, 1));
    signed_of(9, top << 5 | low)
}
