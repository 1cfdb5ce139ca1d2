// Upper and lower parts of an address.

ghost use Rattle.std.specs.Prelude.{◌≡◌, ◌<◌, ◌^◌};
ghost use Rattle.psabi_reloc.specs.Parts.{hi20_of, lo12_of};

use rv_decode::bits::{field_at, signed_of};

/// The upper 20 bits of an address, rounded so that the signed lower 12 complete it.
pub fn hi20(x: u32) -> u32
    ensures value { result ≡ hi20_of x }
    ensures below { result < 2 ^ 20 }
{
    x.wrapping_add(0x800) >> 12
}

/// The lower 12 bits of an address, signed.
pub fn lo12(x: u32) -> i32
    ensures { result ≡ lo12_of x }
{
    signed_of(12, field_at(x, 0, 12))
}
