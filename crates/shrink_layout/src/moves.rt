// The bytes of pieces after a round: blocks that only moved keep them, and others are laid anew.

ghost use Rattle.std.specs.Prelude.{◌≡◌, ◌+◌, ◌*◌, ◌^◌, ◌%◌, ◌<◌, true, false, length, min, slice_index, slice_set};
ghost use Rattle.std.specs.List.{sum};
ghost use Rattle.shrink_layout.specs.Invariants.Blocks.{IsUnchanged, block_count, block_size};
ghost use Rattle.shrink_layout.specs.Invariants.Widths.{CanBeLaidAnew, IsAscending, IsCleared, IsLaid, IsBlockMoved};
ghost use Rattle.shrink_layout.specs.Invariants.Rounds.{AreLaid, HaveGrown};

use crate::blocks::{BLOCK, Blocks, PieceSpan};
use crate::piece::Piece;
use crate::sums::Sums;
use crate::widths::Widths;

// Records that no piece of a block changed; the block's first piece has this number.
fn clear(within: &mut [u8], first: usize)
    requires first { first < length within.old }
    requires ascend { IsAscending within.old first }
    ensures { IsCleared within.old within.new first }
{
    let end = within.len().min(first + BLOCK);
    if within[end - 1] != 0 {
        for k in first..end {
            within[k] = 0;
        }
    }
}

// Changes the bytes that a piece takes, and returns whether it took a different number before.
fn change(sums: &mut Sums, k: usize, width: u32) -> bool
    requires within { k < length sums.old }
    requires room { sum (slice_set sums.old k width) < 2 ^ 32 }
    ensures sums { sums.new ≡ slice_set sums.old k width }
    ensures same { result ≡ false → slice_index sums.old k ≡ width }
{
    let changed = sums.size(k) != width;
    if changed {
        sums.set(k, width);
    }
    changed
}

// Lays the pieces of a block anew, and counts those that take other bytes than before as changed.
fn lay_anew(pieces: &[Piece], sizes: &[u16], widths: &mut Widths, block: usize)
    requires within { block < block_count pieces.now }
    requires can { CanBeLaidAnew pieces.now sizes.now widths.old block }
    ensures { IsLaid (slice_index widths.old.starts.items 0) pieces.now sizes.now widths.old widths.new block
        (block * block_size) (min (length pieces.now) (block * block_size + block_size)) }
{
    let span = PieceSpan::of_block(pieces, block);
    let mut at = widths.starts[block];
    let mut changed: u8 = 0;
    for k in span.first..span.end {
        let width = pieces[k].width(sizes[k], at);
        widths.within[k] = changed;
        if change(&mut widths.sums, k, width) {
            changed += 1;
        }
        at += width;
    }
    if span.end % BLOCK != 0 {
        widths.within[span.end] = changed;
    }
    widths.starts[block + 1] = at;
    widths.changes[block + 1] = widths.changes[block] + usize::from(changed);
}

// Moves a block as a whole: its pieces take as many bytes as before, `taken` in all.
fn move_block(widths: &mut Widths, block: usize, taken: u32)
    requires within { (block + 1 < length widths.old.starts.items) × (block + 1 < length widths.old.changes.items) }
    requires first { block * block_size < length widths.old.within.items }
    requires ascend { IsAscending widths.old.within.items (block * block_size) }
    requires room { slice_index widths.old.starts.items block + taken < 2 ^ 32 }
    ensures { IsBlockMoved widths.old widths.new block taken }
{
    clear(&mut widths.within, block * BLOCK);
    widths.starts[block + 1] = widths.starts[block] + taken;
    widths.changes[block + 1] = widths.changes[block];
}

// Whether two addresses are apart by a multiple of this number.
fn are_alike(here: u32, at: u32, multiple: u32) -> bool
    ensures some { result ≡ true → 0 < multiple }
    ensures alike { result ≡ true → here % multiple ≡ at % multiple }
{
    // 1 is the usual multiple, and needs no division.
    multiple != 0 && (multiple == 1 || here == at || here % multiple == at % multiple)
}

// Whether a block can be moved as a whole from one address to another: none of its pieces grew, and its paddings
// stay the same.
fn can_move(blocks: &Blocks, block: usize, here: u32, at: u32) -> bool
    requires grown { block < length blocks.now.grown.items }
    requires multiples { block < length blocks.now.multiples.items }
    ensures kept { result ≡ true → IsUnchanged blocks.now.grown.items block }
    ensures some { result ≡ true → 0 < slice_index blocks.now.multiples.items block }
    ensures alike { result ≡ true → here % slice_index blocks.now.multiples.items block
        ≡ at % slice_index blocks.now.multiples.items block }
{
    !blocks.grown[block] && are_alike(here, at, blocks.multiples[block])
}

/// The bytes of pieces after a round in which the pieces of some blocks grew, and how many changed: blocks that can be
/// moved as a whole are moved, so that none of their pieces changed, and others are laid anew.
pub fn move_on(pieces: &[Piece], sizes: &[u16], widths: &mut Widths, blocks: &Blocks)
    requires grown { HaveGrown pieces.now sizes.now widths.old blocks.now }
    ensures text { slice_index widths.new.starts.items 0 ≡ slice_index widths.old.starts.items 0 }
    ensures laid { AreLaid pieces.now sizes.now widths.new blocks.now }
{
    let mut here = widths.starts[0];
    for block in 0..blocks.grown.len() {
        let next = widths.starts[block + 1];
        if can_move(blocks, block, here, widths.starts[block]) {
            move_block(widths, block, next - here);
        } else {
            lay_anew(pieces, sizes, widths, block);
        }
        here = next;
    }
}
