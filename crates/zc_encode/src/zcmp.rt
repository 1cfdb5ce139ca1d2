// The halfwords of pushes and pops, of moves, and of table jumps.

ghost use Rattle.std.specs.Prelude.{◌≡◌, ◌<◌, ◌≤◌, ◌^◌};
ghost use Rattle.zc_encode.specs.Halves as halves;

use crate::fields::{half, number};
use rv_decode::bits::field_at;
use zc_base::reg::Reg;
use zc_decode::lists::base;

/// The halfword of a push or pop with these bits 11 to 8, if it has one.
pub fn push_or_pop(kind: u32, list: u8, adjust: u8) -> Option<u16>
    requires { kind < 2 ^ 4 }
    ensures { result ≡ halves.list_half kind list adjust }
{
    let (list, adjust) = (u32::from(list), u32::from(adjust));
    let base = base(list);
    if list < 4 || list > 15 || adjust < base {
        return None;
    }
    let more = adjust - base;
    if more % 16 != 0 || more >= 64 {
        return None;
    }
    let lower = field_at(list, 0, 3) << 2 | more / 16;
    Some(half(0b101_10, 1, kind << 1 | field_at(list, 3, 1), lower))
}

/// The halfword of a move from a0 and a1, if it has one.
pub fn move_sa(first: Reg, second: Reg) -> Option<u16>
    ensures { result ≡ halves.move_sa_half first second }
{
    if number(first) == number(second) {
        None
    } else {
        either_move(0b01, first, second)
    }
}

/// The halfword of a move to a0 and a1, if it has one.
pub fn move_as(first: Reg, second: Reg) -> Option<u16>
    ensures { result ≡ halves.move_half 0b11 first second }
{
    either_move(0b11, first, second)
}

fn either_move(which: u32, first: Reg, second: Reg) -> Option<u16>
    requires { which < 2 ^ 2 }
    ensures { result ≡ halves.move_half which first second }
{
    let (first, second) = (s_code(first), s_code(second));
    if first < 8 && second < 8 {
        Some(half(0b101_10, 0, 24 + first, which << 3 | second))
    } else {
        None
    }
}

// The three-bit code of s0 to s7; 8 for any other register.
fn s_code(r: Reg) -> u32
    ensures value { result ≡ halves.s_code r }
    ensures most { result ≤ 8 }
{
    match number(r) {
        8 | 9 => number(r) - 8,
        18..=23 => number(r) - 16,
        _ => 8,
    }
}

/// The halfword of a table jump.
pub fn table_jump(index: u8) -> Option<u16>
    ensures { result ≡ halves.table_half index }
{
    let index = u32::from(index);
    Some(half(0b101_10, 0, index / 32, index % 32))
}
