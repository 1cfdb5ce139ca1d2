// What padding aligns to.

ghost use Rattle.std.specs.Prelude.{◌≡◌, ◌≤◌};
ghost use Rattle.psabi_sym.specs.Faults.{power_above};

/// The least power of two above a number of bytes from 1 to 255: what padding of `bytes` bytes aligns to.
pub fn power_above(bytes: u16) -> u32
    ensures value { result ≡ power_above bytes }
    ensures most { result ≤ 256 }
{
    match bytes {
        0..=1 => 2,
        2..=3 => 4,
        4..=7 => 8,
        8..=15 => 16,
        16..=31 => 32,
        32..=63 => 64,
        64..=127 => 128,
        _ => 256,
    }
}
