// The first round: the shortest forms, with the bytes that they take.

ghost use Rattle.std.specs.Prelude.{◌≡◌, All, IfOk, length, map};
ghost use Rattle.shrink_layout.specs.Invariants.Blocks.{AreMultiples, block_count};
ghost use Rattle.shrink_layout.specs.Invariants.Rounds.{CanBeLaid};
ghost use Rattle.shrink_layout.specs.Invariants.Widths.{AreStarts};
ghost use Rattle.shrink_layout.specs.Forms.{HasAlignment, shortest};
ghost use Rattle.shrink_layout.specs.Layout.{addresses_of, widths_of};

use crate::blocks::{BLOCK, multiple_with};
use crate::piece::Piece;
use crate::sums::Sums;
use std::alloc::{AllocError, Global};

/// The shortest form of each piece, the bytes that each takes at that form, and the address of each block and of the
/// end.
#[derive(Drop)]
pub struct Shortest {
    pub sizes: Vec<u16>,
    pub sums: Sums,
    pub starts: Vec<u32>,
}

/// For each block a number by a multiple of which it can be moved with the same paddings, or 0.
pub fn find_multiples(alloc: Global, pieces: &[Piece]) -> Result<Vec<u32>, AllocError>
    requires { All HasAlignment pieces.now }
    ensures blocks { IfOk result (λ m. length m.items ≡ block_count pieces.now) }
    ensures moved { IfOk result (λ m. AreMultiples pieces.now m.items) }
{
    let mut multiples = vec![in alloc; 1; pieces.len() / BLOCK + 1]?;
    for k in 0..pieces.len() {
        match pieces[k] {
            Piece::Align { alignment } => {
                multiples[k / BLOCK] = multiple_with(multiples[k / BLOCK], alignment);
            }
            Piece::Fixed { .. }
            | Piece::WithOthers { .. }
            | Piece::Branch { .. }
            | Piece::Jump { .. } => {}
        }
    }
    Ok(multiples)
}

/// The shortest forms of pieces from an address on.
pub fn lay_shortest(alloc: Global, text: u32, pieces: &[Piece]) -> Result<Shortest, AllocError>
    requires { CanBeLaid text pieces.now }
    ensures sizes { IfOk result (λ s. s.sizes.items ≡ map shortest pieces.now) }
    ensures sums { IfOk result (λ s. s.sums ≡ widths_of text pieces.now (map shortest pieces.now)) }
    ensures starts { IfOk result (λ s. AreStarts (addresses_of text pieces.now (map shortest pieces.now))
        (length pieces.now) s.starts.items) }
{
    let count = pieces.len();
    let last = count / BLOCK + 1;
    let mut sizes = vec![in alloc; 0; count]?;
    let mut widths = vec![in alloc; 0; count]?;
    let mut starts = vec![in alloc; text; last + 1]?;
    let mut at = text;
    for k in 0..count {
        let size = pieces[k].shortest();
        let width = pieces[k].width(size, at);
        sizes[k] = size;
        widths[k] = width;
        at += width;
        starts[k / BLOCK + 1] = at;
    }
    starts[last] = at;
    Ok(Shortest {
        sizes,
        sums: Sums::of(alloc, widths)?,
        starts,
    })
}
