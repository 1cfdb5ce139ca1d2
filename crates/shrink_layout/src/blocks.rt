// What is kept of each block of pieces from round to round.

ghost use Rattle.std.specs.Prelude.{◌≡◌, ℕ, ◌+◌, ◌*◌, ◌<◌, IfOk, List, length, min, slice_index};
ghost use Rattle.shrink_layout.specs.Invariants.Blocks.{AreMultiples, IsMovedBy, block_count, block_size};
ghost use Rattle.shrink_layout.specs.Invariants.Rounds.{AreBlocks};
ghost use Rattle.shrink_layout.specs.declared.piece.Piece.{Piece};
ghost use Rattle.shrink_layout.specs.declared.piece.Piece.TheVariants.{Align};

use crate::piece::Piece;
use std::alloc::{AllocError, Global};

/// The number of pieces in a block; the last block may have fewer.
pub const BLOCK: usize = 64;

/// The pieces from one number up to another.
#[derive(Clone, Copy)]
pub struct PieceSpan {
    pub first: usize,
    pub end: usize,
}

impl PieceSpan {
    /// The pieces of a block.
    pub fn of_block(pieces: &[Piece], block: usize) -> PieceSpan
        requires { block < block_count pieces.now }
        ensures first { result.first ≡ block * block_size }
        ensures end { result.end ≡ min (length pieces.now) (block * block_size + block_size) }
    {
        let first = block * BLOCK;
        PieceSpan {
            first,
            end: pieces.len().min(first + BLOCK),
        }
    }
}

/// What is kept of each block from round to round, by its number.
#[derive(Drop)]
pub struct Blocks {
    /// A multiple of this number is a distance by which the block can be moved with the same paddings; 0 if none was
    /// found.
    pub multiples: Vec<u32>,
    /// Whether a piece of the block grew in the last round.
    pub grown: Vec<bool>,
    /// The first of the blocks on which it depends whether this one's pieces fit: it, those with the targets of pieces
    /// that can still grow, and those between.
    pub lows: Vec<usize>,
    /// The last of the blocks on which it depends whether this one's pieces fit.
    pub highs: Vec<usize>,
}

/// A multiple of this number and of an alignment: the larger of the two, if it is a multiple of the other one, or else
/// 0.
pub fn multiple_with(multiple: u32, alignment: u32) -> u32
    requires alignment { 0 < alignment }
    ensures some { 0 < result → 0 < multiple }
    ensures piece { 0 < result → IsMovedBy result (Align alignment) }
    ensures before { 0 < result → (p : _) → IsMovedBy multiple p → IsMovedBy result p }
{
    if multiple % alignment == 0 {
        multiple
    } else if alignment % multiple == 0 {
        alignment
    } else {
        0
    }
}

impl Blocks {
    /// The blocks before the first round, by the multiples of each. Pieces of the first block count as changed, and
    /// every block depends on it, so each block is tested.
    pub fn new(alloc: Global, multiples: Vec<u32>) -> Result<Blocks, AllocError>
        ensures blocks { (pieces : List Piece) → length multiples.items ≡ block_count pieces
            → AreMultiples pieces multiples.items → IfOk result (AreBlocks pieces) }
        ensures lows { IfOk result (λ b. (k : ℕ) → slice_index b.lows.items k ≡ 0) }
        ensures highs { IfOk result (λ b. (k : ℕ) → slice_index b.highs.items k ≡ 0) }
    {
        let count = multiples.len();
        let grown = vec![in alloc; false; count]?;
        let lows = vec![in alloc; 0; count]?;
        let highs = vec![in alloc; 0; count]?;
        Ok(Blocks {
            multiples,
            grown,
            lows,
            highs,
        })
    }
}
