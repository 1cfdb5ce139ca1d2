// One round.

ghost use Rattle.std.specs.Prelude.{◌≡◌, ◌+◌, ◌*◌, ◌<◌, ◌≤◌, ◌^◌, false, length, min, slice_index};
ghost use Rattle.std.specs.List.{sum};
ghost use Rattle.shrink_layout.specs.Forms.{form_reaches, near_limit, target};
ghost use Rattle.shrink_layout.specs.Invariants.Blocks.{HaveGrownIn, ReachesAll, block_count, block_size};
ghost use Rattle.shrink_layout.specs.Invariants.Rounds.{AreLaid, HaveGrown};
ghost use Rattle.shrink_layout.specs.Invariants.Widths.{AreStarts, CanBeTested, OthersFitFrom, addresses_in};
ghost use Rattle.shrink_layout.specs.Layout.{all_fit, next_sizes};

use crate::blocks::{BLOCK, Blocks, PieceSpan};
use crate::piece::Piece;
use crate::widths::Widths;

// Whether the target is in range of a form at an address.
fn reaches(widths: &Widths, at: u32, piece: Piece, size: u16) -> bool
    requires starts { AreStarts (addresses_in widths.now) (length widths.now.sums) widths.now.starts.items }
    requires within { target piece ≤ length widths.now.sums }
    requires room { slice_index widths.now.starts.items 0 + sum widths.now.sums < 2 ^ 32 }
    requires near { at < slice_index (addresses_in widths.now) (target piece) + near_limit }
    requires near_back { slice_index (addresses_in widths.now) (target piece) < at + near_limit }
    ensures { result ≡ form_reaches piece size at (slice_index (addresses_in widths.now) (target piece)) }
{
    piece.reaches(size, at, widths.address(piece.target() as usize))
}

// Whether there is a longer form. If not, this one has every target in range.
fn can_grow(piece: Piece, size: u16) -> bool
    ensures { result ≡ false → ReachesAll piece size }
{
    match piece {
        Piece::Fixed { .. } | Piece::WithOthers { .. } | Piece::Align { .. } => false,
        Piece::Branch { .. } => size == 2 || size == 4,
        Piece::Jump { .. } => size == 2,
    }
}

// What a round found of a block: whether all of its pieces fitted, and the lowest and the highest number among its own
// first piece and the targets of pieces that could still grow.
#[derive(Clone, Copy)]
struct Tested {
    fitted: bool,
    low: usize,
    high: usize,
}

// Gives the next longer form to just those pieces of a block that don't fit. A piece is tested only if it changed in
// the last round, or a piece between it and its target did: all others fit.
fn grow_block(pieces: &[Piece], sizes: &mut [u16], widths: &Widths, block: usize) -> Tested
    requires sized { length sizes.old ≡ length pieces.now }
    requires testable { CanBeTested pieces.now widths.now }
    requires within { block < block_count pieces.now }
    requires others { OthersFitFrom (block * block_size) pieces.now sizes.old widths.now }
    ensures { HaveGrownIn (addresses_in widths.now) pieces.now sizes.old sizes.new (block * block_size)
        (min (length pieces.now) (block * block_size + block_size)) result.fitted result.low result.high }
{
    let span = PieceSpan::of_block(pieces, block);
    let mut fitted = true;
    let mut low = span.first;
    let mut high = span.first;
    let mut at = widths.starts[block];
    for k in span.first..span.end {
        let piece = pieces[k];
        if can_grow(piece, sizes[k]) {
            let to = piece.target() as usize;
            if widths.changed(to.min(k), to.max(k + 1)) && !reaches(widths, at, piece, sizes[k]) {
                sizes[k] = piece.longer(sizes[k]);
                fitted = false;
            }
            low = low.min(to);
            high = high.max(to);
        }
        at += widths.sums.size(k);
    }
    Tested { fitted, low, high }
}

/// One round: gives the next longer form to just those pieces that don't fit, and returns whether all fitted. A block
/// is passed over if no piece changed in the last round in the blocks on which it depends whether its pieces fit.
pub fn grow(pieces: &[Piece], sizes: &mut [u16], widths: &Widths, blocks: &mut Blocks) -> bool
    requires laid { AreLaid pieces.now sizes.old widths.now blocks.old }
    ensures fitted { result ≡ all_fit (slice_index widths.now.starts.items 0) pieces.now sizes.old }
    ensures sizes { sizes.new ≡ next_sizes (slice_index widths.now.starts.items 0) pieces.now sizes.old }
    ensures grown { HaveGrown pieces.now sizes.new widths.now blocks.new }
{
    let mut fitted = true;
    for block in 0..blocks.grown.len() {
        blocks.grown[block] = false;
        if widths.changes[blocks.lows[block]] != widths.changes[blocks.highs[block] + 1] {
            let tested = grow_block(pieces, sizes, widths, block);
            blocks.grown[block] = !tested.fitted;
            blocks.lows[block] = tested.low / BLOCK;
            blocks.highs[block] = tested.high / BLOCK;
            fitted &= tested.fitted;
        }
    }
    fitted
}
