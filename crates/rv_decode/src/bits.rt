// Bit fields of words.

ghost use Rattle.std.specs.Prelude.{◌≡◌, ◌<◌, ◌^◌};
ghost use Rattle.rv_decode.specs.Bits.{field, signed};

use zc_base::reg::Reg;

/// The field of `width` bits from bit `low` on.
pub fn field_at(word: u32, low: u32, width: u32) -> u32
    requires low { low < 32 }
    requires width { width < 32 }
    ensures value { result ≡ field word low width }
    ensures below { result < 2 ^ width }
{
    (word >> low) & ((1 << width) - 1)
}

/// The register whose number stands in the five bits from bit `low` on.
pub fn register_at(word: u32, low: u32) -> Reg
    requires { low < 32 }
    ensures { result ≡ field word low 5 }
{
    Reg::new(field_at(word, low, 5) as u8).unwrap()
}

/// A number of `bits` bits, read in two's complement.
pub fn signed_of(bits: u32, n: u32) -> i32
    requires some { 0 < bits }
    requires few { bits < 31 }
    requires fits { n < 2 ^ bits }
    ensures { result ≡ signed bits n }
{
    if n < 1 << (bits - 1) {
        n as i32
    } else {
        n as i32 - (1 << bits)
    }
}
