// Short forms: halfwords with the effect of an instruction.

ghost use Rattle.std.specs.Prelude.{◌≡◌, IfSome, true};
ghost use Rattle.psabi_reloc.specs.Patched.{with_distance};
ghost use Rattle.psabi_reloc.specs.Reaches.{short_branch_reach, short_jump_reach};
ghost use Rattle.zca_zcb_pass.specs.Forms.{IsBranch, IsJump, ShortForm};
ghost use Rattle.zc_encode.specs.Halves.{encoded16};

use crate::patched::with_distance;
use rv_decode::instr::Instr;
use zc_decode::short::Short;
use zc_encode::encode16::encode16;

/// The short form of an instruction, if it has one. A branch or a jump keeps the distance that it has;
/// `short_branch` and `short_jump` take the distance as an argument.
#[tactic(auto, using(crate::proofs::FormEffects::short_form))]
pub fn short_of(i: Instr) -> Option<u16>
    ensures form { ShortForm i result }
    ensures fields { result ≡ encoded16 (Short.Base i) }
{
    encode16(Short::Base(i))
}

/// The short form of a branch at a distance, if it has one.
pub fn short_branch(i: Instr, distance: i32) -> Option<u16>
    ensures form { ShortForm (with_distance i distance) result }
    ensures reach { IsBranch i → IfSome result (λ _. short_branch_reach distance ≡ true) }
{
    short_of(with_distance(i, distance))
}

/// The short form of a jump at a distance, if it has one.
pub fn short_jump(i: Instr, distance: i32) -> Option<u16>
    ensures form { ShortForm (with_distance i distance) result }
    ensures reach { IsJump i → IfSome result (λ _. short_jump_reach distance ≡ true) }
{
    short_of(with_distance(i, distance))
}
