// The register lists of pushes and pops.

ghost use Rattle.std.specs.Prelude.{◌≡◌, ◌<◌, ◌≤◌, All, length};
ghost use Rattle.zc_decode.specs.Lists.{stack_adjust_base, registers_of};

/// The bytes that a push or pop of a list moves sp by at least.
pub fn base(list: u32) -> u32
    ensures value { result ≡ stack_adjust_base list }
    ensures below { result < 65 }
{
    if list == 15 {
        64
    } else if list < 8 {
        16
    } else if list < 12 {
        32
    } else {
        48
    }
}

// The registers that pushes save, from the highest number down: s11 to s2, s1, s0, ra.
const SAVED: [u8; 13] = [27, 26, 25, 24, 23, 22, 21, 20, 19, 18, 9, 8, 1];

/// The numbers of a list's registers, from the highest down.
pub fn registers(list: u8) -> &'static [u8]
    ensures value { result.now ≡ registers_of list }
    ensures few { length result.now ≤ 13 }
    ensures known { All (λ r. (0 < r) × (r < 32)) result.now }
{
    let left_out = if list < 15 { 16 - list } else { 0 };
    &SAVED[usize::from(left_out.min(13))..]
}
