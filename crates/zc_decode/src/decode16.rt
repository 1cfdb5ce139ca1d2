// What a halfword spells.

ghost use Rattle.std.specs.Prelude.{◌≡◌, IfSome};
ghost use Rattle.zc_decode.specs.Halfwords.{decoded16};
ghost use Rattle.zc_decode.specs.Operands.{HasOperands};

use crate::rows::form_at;
use crate::short::Short;
use crate::spell::spell;

/// What a halfword spells, or none if the tables have no row for it.
#[tactic(auto, unfolding(crate::specs::Halfwords::decoded16))]
pub fn decode16(half: u16) -> Option<Short>
    ensures value { result ≡ decoded16 half }
    ensures operands { IfSome result HasOperands }
{
    let half = u32::from(half);
    Some(spell(form_at(half)?, half))
}
