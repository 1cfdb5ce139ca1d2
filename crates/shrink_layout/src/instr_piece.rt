// The pieces of instructions that don't depend on the layout, and those of instructions with parts of addresses.

ghost use Rattle.std.specs.Prelude.{◌≡◌, Some, false};
ghost use Rattle.psabi_reloc.specs.Parts.{hi20_of, lo12_of};
ghost use Rattle.psabi_reloc.specs.Patched.{with_imm, with_upper};
ghost use Rattle.block_cut.specs.declared.item.Item.TheVariants as item;
ghost use Rattle.shrink_layout.specs.Invariants.Numbers.{IsHalfAt, is_table_half};
ghost use Rattle.shrink_layout.specs.Pieces.{instr_size_on, part_size};
ghost use Rattle.shrink_layout.specs.Units.{OneItem};
ghost use Rattle.shrink_layout.specs.declared.piece.Piece.TheVariants.{Fixed};
ghost use Rattle.zca_zcb_pass.specs.Forms.{HasEffectOf};
ghost use Rattle.zc_decode.specs.Extensions.{has_half};

use crate::piece::Piece;
use psabi_reloc::parts::{hi20, lo12};
use psabi_sym::target::Target;
use rv_decode::instr::Instr;
use zc_base::extensions::Extensions;
use zc_decode::extensions::has_half;
use zca_zcb_pass::patched::{with_imm, with_upper};
use zca_zcb_pass::short::short_of;

/// The piece of an item, and the short form of its instruction if that is known before the layout, or else 0.
#[derive(Clone, Copy)]
pub struct ItemPiece {
    pub piece: Piece,
    pub half: u16,
}

/// A piece of an item whose halfword isn't known before the layout.
pub fn without_half(piece: Piece) -> ItemPiece
    ensures piece { result ≡ record { piece = piece; half = 0 } }
    ensures half { is_table_half result.half ≡ false }
{
    ItemPiece { piece, half: 0 }
}

/// A piece of one size.
pub fn fixed(size: u16) -> ItemPiece
    ensures piece { result ≡ record { piece = Fixed size; half = 0 } }
    ensures half { is_table_half result.half ≡ false }
{
    without_half(Piece::Fixed { size })
}

// Whether a chip with these extensions has the short form of an instruction. One with Zcb has all of them, so the
// halfword's row needn't be found.
#[inline(always)]
fn has_short(extensions: Extensions, _i: Instr, half: u16) -> bool
    requires { HasEffectOf _i half }
    ensures { result ≡ has_half extensions half }
{
    extensions.zcb || has_half(extensions, half)
}

/// The piece of an instruction whose immediate doesn't depend on the layout.
#[tactic(auto, using(crate::proofs::HalfLaws::effect_no_table))]
pub fn instr_piece(extensions: Extensions, i: Instr) -> ItemPiece
    ensures piece { result.piece ≡ Fixed (instr_size_on extensions i) }
    ensures half { IsHalfAt (Some (OneItem (item.Op i))) result.half }
{
    match short_of(i) {
        None => fixed(4),
        Some(half) => ItemPiece {
            piece: Piece::Fixed {
                size: if has_short(extensions, i, half) { 2 } else { 4 },
            },
            half,
        },
    }
}

/// The piece of an instruction with the upper part of a target; the addresses of code aren't known yet.
pub fn upper_piece(extensions: Extensions, i: Instr, t: Target) -> ItemPiece
    ensures piece { result.piece ≡ Fixed (part_size extensions t (λ x. with_upper i (hi20_of x))) }
    ensures half { IsHalfAt (Some (OneItem (item.Hi i t))) result.half }
{
    match t {
        Target::Code(_) | Target::Nowhere => fixed(4),
        Target::Number(x) | Target::Absent(x) => instr_piece(extensions, with_upper(i, hi20(x))),
    }
}

/// The piece of an instruction with the lower part of a target.
pub fn lower_piece(extensions: Extensions, i: Instr, t: Target) -> ItemPiece
    ensures piece { result.piece ≡ Fixed (part_size extensions t (λ x. with_imm i (lo12_of x))) }
    ensures half { IsHalfAt (Some (OneItem (item.Lo i t))) result.half }
{
    match t {
        Target::Code(_) | Target::Nowhere => fixed(4),
        Target::Number(x) | Target::Absent(x) => instr_piece(extensions, with_imm(i, lo12(x))),
    }
}
