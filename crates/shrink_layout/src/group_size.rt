// The sizes of groups.

ghost use Rattle.std.specs.Prelude.{◌≡◌, ◌<◌};
ghost use Rattle.shrink_layout.specs.Pieces as pieces;
ghost use Rattle.shrink_layout.specs.Units as units;

use frame_match::group::Group;
use rv_decode::instr::{ImmOp, Instr};
use zc_base::reg::Reg;
use zc_decode::short::Short;
use zca_zcb_pass::short::short_of;

/// Whether a group is a push, whose second instruction comes after its halfword.
pub fn is_push(kind: Short) -> bool
    ensures { result ≡ units.is_push kind }
{
    matches!(kind, Short::Push { .. })
}

/// The instruction that moves the stack pointer by what a group's halfword doesn't. It takes constant time, as does all
/// that follows.
pub fn rest_instr(group: Group) -> Instr
    requires { 0 < group.rest }
    ensures { result ≡ units.rest_instr group }
{
    let rest = i32::from(group.rest);
    let sp = Reg::new(2).unwrap();
    Instr::WithImm {
        op: ImmOp::Addi,
        rd: sp,
        first: sp,
        imm: if is_push(group.kind) { -rest } else { rest },
    }
}

/// The number of bytes of a group.
pub fn group_size(group: Group) -> u16
    ensures { result ≡ pieces.group_size group }
{
    if group.rest == 0 {
        return 2;
    }
    match short_of(rest_instr(group)) {
        None => 6,
        Some(_) => 4,
    }
}
