// The layout of pieces: rounds, of which the first that fits is taken.

ghost use Rattle.std.specs.Prelude.{◌≡◌, ◌%◌, All, IfOk, length};
ghost use Rattle.shrink_layout.specs.Forms.{IsEvenPiece};
ghost use Rattle.shrink_layout.specs.Layout.{IsLayout, addresses_of, all_fit, sizes_of, widths_of};
ghost use Rattle.shrink_layout.specs.Least.{IsLeast, IsTight};
ghost use Rattle.shrink_layout.specs.Invariants.Rounds.{CanBeLaid, next_pieces, shortest_pieces};
ghost use Rattle.shrink_layout.specs.Invariants.Widths.{AreStarts};

use crate::blocks::Blocks;
use crate::moves::move_on;
use crate::piece::Piece;
use crate::round::grow;
use crate::shortest::{find_multiples, lay_shortest};
use crate::sums::Sums;
use crate::widths::Widths;
use std::alloc::{AllocError, Global};
use std::marker::Model;

/// The size of each piece, the bytes that each takes, and the address of each block and of the end.
#[derive(Drop)]
pub struct PieceLayout {
    pub sizes: Vec<u16>,
    pub sums: Sums,
    pub block_starts: Vec<u32>,
}

// Pieces at the sizes that the rounds so far gave them.
#[derive(Drop)]
struct Rounds<'a> {
    pieces: &'a [Piece],
    sizes: Vec<u16>,
    widths: Widths,
    blocks: Blocks,
}

impl<'a> Model for Rounds<'a> {
    ghost use Rattle.std.specs.Prelude.{slice_index};
    ghost use Rattle.shrink_layout.specs.Invariants.Rounds.{AreLaid, LaidPieces};

    ghost Value = { LaidPieces };

    ghost view = { λ r. record {
      text = slice_index r.widths.starts.items 0;
      pieces = r.pieces.now;
      sizes = r.sizes.items;
    } };

    ghost invariant = { λ r. AreLaid r.pieces.now r.sizes.items r.widths r.blocks };
}

impl<'a> Rounds<'a> {
    // The pieces at their shortest forms.
    fn new(alloc: Global, text: u32, pieces: &'a [Piece]) -> Result<Rounds<'a>, AllocError>
        requires { CanBeLaid text pieces.now }
        ensures { IfOk result (λ r. r ≡ shortest_pieces text pieces.now) }
    {
        let first = lay_shortest(alloc, text, pieces)?;
        let widths = Widths::new(alloc, first.sums, first.starts)?;
        let blocks = Blocks::new(alloc, find_multiples(alloc, pieces)?)?;
        Ok(Rounds {
            pieces,
            sizes: first.sizes,
            widths,
            blocks,
        })
    }

    // One round. Says whether all pieces fitted before it.
    fn next(&mut self) -> bool
        ensures fitted { result ≡ all_fit self.old.text self.old.pieces self.old.sizes }
        ensures next { self.new ≡ next_pieces self.old }
    {
        if grow(self.pieces, &mut self.sizes, &self.widths, &mut self.blocks) {
            return true;
        }
        move_on(self.pieces, &self.sizes, &mut self.widths, &self.blocks);
        false
    }

    // What is kept once all pieces fit.
    fn layout(self) -> PieceLayout
        ensures sizes { result.sizes.items ≡ self.entry.sizes }
        ensures sums { result.sums ≡ widths_of self.entry.text self.entry.pieces self.entry.sizes }
        ensures starts { AreStarts (addresses_of self.entry.text self.entry.pieces self.entry.sizes)
            (length self.entry.pieces) result.block_starts.items }
    {
        PieceLayout {
            sizes: self.sizes,
            sums: self.widths.sums,
            block_starts: self.widths.starts,
        }
    }
}

/// The layout of pieces from an address on: rounds, each of which gives the next longer form to the pieces that
/// don't fit, until all do.
pub fn settle_pieces(alloc: Global, text: u32, pieces: &[Piece]) -> Result<PieceLayout, AllocError>
    requires { CanBeLaid text pieces.now }
    ensures layout { IfOk result (λ _. IsLayout text pieces.now (sizes_of text pieces.now)) }
    ensures sizes { IfOk result (λ r. r.sizes.items ≡ sizes_of text pieces.now) }
    ensures sums { IfOk result (λ r. r.sums ≡ widths_of text pieces.now (sizes_of text pieces.now)) }
    ensures starts { IfOk result (λ r. AreStarts (addresses_of text pieces.now (sizes_of text pieces.now))
        (length pieces.now) r.block_starts.items) }
    ensures least { text % 2 ≡ 0 → All IsEvenPiece pieces.now → All IsTight pieces.now
        → IfOk result (λ _. IsLeast text pieces.now (sizes_of text pieces.now)) }
{
    let mut rounds = Rounds::new(alloc, text, pieces)?;
    loop {
        if rounds.next() {
            return Ok(rounds.layout());
        }
    }
}
