// Words by their fields, and signed numbers in two's complement.

ghost use Rattle.std.specs.Prelude.{◌≡◌, ◌<◌, ◌^◌};
ghost use Rattle.rv_decode.specs.Bits.{FitsIn};
ghost use Rattle.rv_encode.specs.Words.{bits_of, branch_five_of, branch_seven_of, fields_word, jump_twenty_of, twelve_of, upper_word_of};

use rv_decode::bits::field_at;
use zc_base::reg::Reg;

/// The word of the formats R, I, S and B: `high` is its upper twelve bits, and `low` the five above
/// the opcode.
pub fn word(high: u32, first: Reg, funct3: u32, low: u32, opcode: u32) -> u32
    requires high { high < 2 ^ 12 }
    requires funct3 { funct3 < 2 ^ 3 }
    requires low { low < 2 ^ 5 }
    requires opcode { opcode < 2 ^ 7 }
    ensures { result ≡ fields_word high first funct3 low opcode }
{
    let first = u32::from(first.number());
    high << 20 | (first << 15 | (funct3 << 12 | (low << 7 | opcode)))
}

/// The word of the formats U and J: `upper` is its upper twenty bits, and `low` the five above the
/// opcode.
pub fn upper_word(upper: u32, low: u32, opcode: u32) -> u32
    requires upper { upper < 2 ^ 20 }
    requires low { low < 2 ^ 5 }
    requires opcode { opcode < 2 ^ 7 }
    ensures { result ≡ upper_word_of upper low opcode }
{
    upper << 12 | (low << 7 | opcode)
}

/// Seven bits followed by five.
pub fn twelve(seven: u32, five: u32) -> u32
    requires seven { seven < 2 ^ 7 }
    requires five { five < 2 ^ 5 }
    ensures value { result ≡ twelve_of seven five }
    ensures below { result < 2 ^ 12 }
{
    seven << 5 | five
}

/// The upper seven bits of a branch's word, from the 13 bits of its distance.
pub fn branch_seven(bits: u32) -> u32
    ensures value { result ≡ branch_seven_of bits }
    ensures below { result < 2 ^ 7 }
{
    field_at(bits, 12, 1) << 6 | field_at(bits, 5, 6)
}

/// The five bits above the opcode of a branch's word, from the 13 bits of its distance.
pub fn branch_five(bits: u32) -> u32
    ensures value { result ≡ branch_five_of bits }
    ensures below { result < 2 ^ 5 }
{
    field_at(bits, 1, 4) << 1 | field_at(bits, 11, 1)
}

/// The upper twenty bits of a jump's word, from the 21 bits of its distance.
pub fn jump_twenty(bits: u32) -> u32
    ensures value { result ≡ jump_twenty_of bits }
    ensures below { result < 2 ^ 20 }
{
    let low = field_at(bits, 11, 1) << 8 | field_at(bits, 12, 8);
    field_at(bits, 20, 1) << 19 | (field_at(bits, 1, 10) << 9 | low)
}

/// A signed number as `bits` bits in two's complement.
pub fn bits_of(bits: u32, z: i32) -> u32
    requires some { 0 < bits }
    requires few { bits < 31 }
    requires fits { FitsIn bits z }
    ensures value { result ≡ bits_of bits z }
    ensures below { result < 2 ^ bits }
{
    if z < 0 {
        (1 << bits) - z.unsigned_abs()
    } else {
        z.unsigned_abs()
    }
}
