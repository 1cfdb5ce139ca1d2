// The piece of an item.

ghost use Rattle.std.specs.Prelude.{◌≡◌, ◌&&◌, ◌==◌, None, Some, false};
ghost use Rattle.psabi_sym.specs.Faults.{gather_fault};
ghost use Rattle.psabi_sym.specs.Inputs.{parsed};
ghost use Rattle.shrink_layout.specs.Invariants.Numbers.{AreFirstNumbers, IsHalfAt, is_table_half};
ghost use Rattle.shrink_layout.specs.Pieces as pieces;
ghost use Rattle.shrink_layout.specs.Pieces.{piece_of};
ghost use Rattle.shrink_layout.specs.Units.{OneItem};
ghost use Rattle.zc_encode.specs.Halves.{is_popular};

use crate::instr_piece::{ItemPiece, fixed, instr_piece, lower_piece, upper_piece, without_half};
use crate::numbers::piece_number_at;
use crate::piece::Piece;
use block_cut::cut::Cut;
use block_cut::item::Item;
use psabi_sym::padding::power_above;
use rv_decode::instr::BranchOp;
use zc_base::place::Place;
use zc_base::reg::Reg;

// Whether the second register is zero, and the first is one of x8 to x15.
fn is_on_zero(first: Reg, second: Reg) -> bool
    ensures { result ≡ (second == 0 && is_popular first) }
{
    second.number() == 0 && (8..16).contains(&first.number())
}

// Whether a branch on two registers has a short form: `c.beqz` or `c.bnez`.
#[tactic(auto, using(crate::proofs::ShortLaws::short_beq, crate::proofs::ShortLaws::short_bne))]
fn is_short_branch(op: BranchOp, first: Reg, second: Reg) -> bool
    ensures { result ≡ pieces.is_short_branch op first second }
{
    match op {
        BranchOp::Beq | BranchOp::Bne => is_on_zero(first, second) || is_on_zero(second, first),
        BranchOp::Blt | BranchOp::Bge | BranchOp::Bltu | BranchOp::Bgeu => false,
    }
}

// Whether a `jal` with this link register has a short form: `c.jal` or `c.j`.
fn is_short_jump(rd: Reg) -> bool
    ensures { result ≡ pieces.is_short_jump rd }
{
    rd.number() < 2
}

// The piece of a `jal` to a place.
fn jump_piece(cut: &Cut, starts: &[u32], rd: Reg, to: Place) -> ItemPiece
    requires faultless { gather_fault cut.now ≡ None }
    requires starts { AreFirstNumbers (parsed cut.now).objects starts.now }
    ensures piece { result ≡ record {
      piece = pieces.jump_piece (parsed cut.now).objects to (pieces.is_short_jump rd);
      half = 0;
    } }
    ensures half { is_table_half result.half ≡ false }
{
    if !is_short_jump(rd) {
        return fixed(4);
    }
    without_half(Piece::Jump {
        to: piece_number_at(cut, starts, to),
    })
}

/// The piece of an item of a fixed section that has `own` bytes in its object.
pub fn kept_piece(cut: &Cut, starts: &[u32], own: u8, item: &Item) -> Piece
    requires faultless { gather_fault cut.now ≡ None }
    requires starts { AreFirstNumbers (parsed cut.now).objects starts.now }
    ensures { result ≡ pieces.kept_piece (parsed cut.now) own item.now }
{
    match item {
        Item::Op(_) => Piece::Fixed {
            size: u16::from(own),
        },
        Item::Branch {
            op,
            first,
            second,
            to,
        } => Piece::Branch {
            to: piece_number_at(cut, starts, *to),
            short: own == 2 && is_short_branch(*op, *first, *second),
        },
        Item::Jump { rd, to } => {
            if own == 2 {
                jump_piece(cut, starts, *rd, *to).piece
            } else {
                Piece::Fixed { size: 4 }
            }
        }
        Item::Align(bytes) => Piece::Align {
            alignment: power_above(*bytes),
        },
        Item::Hi(..)
        | Item::Lo(..)
        | Item::PcHi(..)
        | Item::PcLo(..)
        | Item::Word(_)
        | Item::Raw(_) => Piece::Fixed { size: 4 },
        Item::RawShort(_) => Piece::Fixed { size: 2 },
        Item::Call { .. } | Item::RawPair(..) => Piece::Fixed { size: 8 },
    }
}

/// The piece of an item, with its halfword.
pub fn item_piece(cut: &Cut, starts: &[u32], item: &Item) -> ItemPiece
    requires faultless { gather_fault cut.now ≡ None }
    requires starts { AreFirstNumbers (parsed cut.now).objects starts.now }
    ensures piece { result.piece ≡ piece_of (parsed cut.now) item.now }
    ensures half { IsHalfAt (Some (OneItem item.now)) result.half }
{
    let extensions = cut.objects().map().extensions;
    match item {
        Item::Op(i) => instr_piece(extensions, *i),
        Item::Hi(i, t) => upper_piece(extensions, *i, *t),
        Item::Lo(i, t) => lower_piece(extensions, *i, *t),
        Item::Branch {
            op,
            first,
            second,
            to,
        } => without_half(Piece::Branch {
            to: piece_number_at(cut, starts, *to),
            short: is_short_branch(*op, *first, *second),
        }),
        Item::Jump { rd, to } | Item::Call { rd, to, .. } => jump_piece(cut, starts, *rd, *to),
        Item::Align(bytes) => without_half(Piece::Align {
            alignment: power_above(*bytes),
        }),
        Item::PcHi(..) | Item::PcLo(..) | Item::Word(_) | Item::Raw(_) => fixed(4),
        Item::RawShort(_) => fixed(2),
        Item::RawPair(..) => fixed(8),
    }
}
