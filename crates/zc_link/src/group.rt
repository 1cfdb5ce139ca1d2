// What is written for a group: its halfword, and the instruction that moves the stack pointer by the rest of its frame.

ghost use Rattle.std.specs.Prelude.{◌≡◌, ◌<◌, ◌^◌, length, slice_index, ℕ};
ghost use Rattle.shrink_layout.specs.Pieces.{group_size};
ghost use Rattle.zc_link.specs.Codes.{code_bytes};
ghost use Rattle.zc_link.specs.Standing.{HasHalf};
ghost use Rattle.zc_link.specs.Written.{IsGroupWritten, SpellsHalf};
ghost use Rattle.zc_base.specs.Fields.{half_bytes};

use crate::code::Code;
use frame_match::group::Group;
use rv_encode::encode::encode;
use shrink_layout::group_size::{is_push, rest_instr};
use zc_decode::short::Short;
use zc_encode::encode16::encode16;
use zca_zcb_pass::short::short_of;

/// What is written for a group: a halfword, or two instructions if that doesn't move the stack pointer by all of its
/// frame. It takes constant time.
pub fn group_code<'a>(group: &Group) -> Code<'a>
    requires half { HasHalf group.now.kind }
    requires rest { group.now.rest < 2 ^ 11 }
    ensures long { length (code_bytes result) ≡ group_size group.now }
    ensures written { IsGroupWritten (group_size group.now) group.now (code_bytes result) }
    ensures octets { (k : ℕ) → slice_index (code_bytes result) k < 256 }
{
    let half = half_of(group.kind);
    if group.rest == 0 {
        return Code::Half(half);
    }
    let push = is_push(group.kind);
    if let Some(short) = short_of(rest_instr(*group)) {
        return if push {
            Code::Halves(half, short)
        } else {
            Code::Halves(short, half)
        };
    }
    let word = encode(rest_instr(*group));
    if push {
        Code::HalfWord(half, word)
    } else {
        Code::WordHalf(word, half)
    }
}

// The halfword of an instruction that has no 32-bit form.
fn half_of(kind: Short) -> u16
    requires { HasHalf kind }
    ensures { SpellsHalf (half_bytes result) kind }
{
    encode16(kind).unwrap()
}
