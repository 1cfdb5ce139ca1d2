// Halfwords by their fields, and which values fit these fields.

ghost use Rattle.std.specs.Prelude.{◌≡◌, ◌<◌, ◌≤◌, ◌^◌, IsTrue};
ghost use Rattle.rv_decode.specs.Bits.{as_word};
ghost use Rattle.zc_encode.specs.Halves as halves;
ghost use Rattle.zc_encode.specs.Halves.{half_of};

use rv_decode::bits::field_at;
use zc_base::reg::Reg;

/// A halfword by its group (bits 15 to 13 and 1 to 0), bit 12, bits 11 to 7, and bits 6 to 2.
pub fn half(group: u32, bit: u32, upper: u32, lower: u32) -> u16
    requires group { group < 2 ^ 5 }
    requires bit { bit < 2 }
    requires upper { upper < 2 ^ 5 }
    requires lower { lower < 2 ^ 5 }
    ensures { result ≡ half_of group bit upper lower }
{
    let low = upper << 7 | (lower << 2 | field_at(group, 0, 2));
    (field_at(group, 2, 3) << 13 | (bit << 12 | low)) as u16
}

/// A register's number.
pub fn number(r: Reg) -> u32
    ensures value { result ≡ r }
    ensures below { result < 2 ^ 5 }
{
    u32::from(r.number())
}

/// Whether a register is one of x8 to x15, whose numbers are encoded in three bits.
pub fn is_popular(r: Reg) -> bool
    ensures value { result ≡ halves.is_popular r }
    ensures least { IsTrue result → 8 ≤ r }
    ensures greatest { IsTrue result → r < 16 }
{
    (8..16).contains(&r.number())
}

/// A signed number as a word, in two's complement.
pub fn word(imm: i32) -> u32
    ensures { result ≡ as_word imm }
{
    imm.cast_unsigned()
}

/// The low bits of a signed number.
pub fn low_bits(bits: u32, imm: i32) -> u32
    requires { bits < 32 }
    ensures { result ≡ halves.low_bits bits imm }
{
    field_at(word(imm), 0, bits)
}

/// Whether a number is an offset below a limit, and a multiple of a step.
pub fn is_offset(limit: u32, step: u32, imm: i32) -> bool
    requires limit { limit < 2 ^ 31 }
    requires step { 0 < step }
    ensures value { result ≡ halves.is_offset limit step imm }
    ensures below { IsTrue result → as_word imm < limit }
{
    let offset = word(imm);
    offset < limit && offset % step == 0
}

/// Whether a signed number fits in `bits` bits.
pub fn has_bits(bits: u32, imm: i32) -> bool
    requires some { 0 < bits }
    requires few { bits < 31 }
    ensures { result ≡ halves.has_bits bits imm }
{
    let limit = 1 << (bits - 1);
    if imm < 0 {
        imm.unsigned_abs() <= limit
    } else {
        imm.unsigned_abs() < limit
    }
}

/// Whether a signed number fits in `bits` bits, and is a multiple of a step.
pub fn is_signed(bits: u32, step: u32, imm: i32) -> bool
    requires some { 0 < bits }
    requires few { bits < 31 }
    requires step { 0 < step }
    ensures { result ≡ halves.is_signed bits step imm }
{
    has_bits(bits, imm) && low_bits(bits, imm) % step == 0
}

/// Whether a number is the amount of a shift, except 0.
pub fn is_amount(imm: i32) -> bool
    ensures value { result ≡ halves.is_amount imm }
    ensures below { IsTrue result → as_word imm < 2 ^ 5 }
{
    is_offset(32, 1, imm) && imm != 0
}
