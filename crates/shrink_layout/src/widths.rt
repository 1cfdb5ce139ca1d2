// The bytes that pieces take, and how many pieces took other bytes in the last round.

ghost use Rattle.std.specs.Prelude.{◌≡◌, ℕ, ◌+◌, ◌*◌, ◌<◌, ◌≤◌, ◌^◌, ◌%◌, false, IfOk, length, slice_index};
ghost use Rattle.std.specs.List.{sum};
ghost use Rattle.shrink_layout.specs.Invariants.Blocks.{block_size};
ghost use Rattle.shrink_layout.specs.Invariants.Widths.{AreCounted, AreStarts, addresses_in, changed_before};

use crate::blocks::BLOCK;
use crate::sums::Sums;
use std::alloc::{AllocError, Global};

/// The bytes that each piece takes, the address at which each block starts, and how many pieces changed in the last
/// round, that is, took a different number of bytes than before.
#[derive(Drop)]
pub struct Widths {
    /// The bytes of each piece.
    pub sums: Sums,
    /// The address of the first piece of each block, and of the end.
    pub starts: Vec<u32>,
    /// For each block, the number of changed pieces before it. One more entry counts all.
    pub changes: Vec<usize>,
    /// For each piece and for the end, the number of changed pieces of its block before it.
    pub within: Vec<u8>,
}

// The number of pieces before each of `blocks` blocks, and before the end of the last one.
fn counts_before(alloc: Global, blocks: usize) -> Result<Vec<usize>, AllocError>
    requires room { blocks * block_size < 2 ^ 63 }
    ensures count { IfOk result (λ v. length v.items ≡ blocks + 1) }
    ensures each { IfOk result (λ v. (b : ℕ) → b ≤ blocks → slice_index v.items b ≡ b * block_size) }
{
    let mut counts = vec![in alloc; 0; blocks + 1]?;
    for block in 0..blocks + 1 {
        counts[block] = block * BLOCK;
    }
    Ok(counts)
}

// The number of pieces of its block before each of `pieces` pieces, and before the end.
fn counts_within(alloc: Global, pieces: usize) -> Result<Vec<u8>, AllocError>
    requires room { pieces < 2 ^ 63 }
    ensures count { IfOk result (λ v. length v.items ≡ pieces + 1) }
    ensures each { IfOk result (λ v. (k : ℕ) → k ≤ pieces → slice_index v.items k ≡ k % block_size) }
{
    let mut counts = vec![in alloc; 0; pieces + 1]?;
    for k in 0..pieces + 1 {
        counts[k] = (k % BLOCK) as u8;
    }
    Ok(counts)
}

impl Widths {
    /// The widths before the first round. Each piece counts as changed, so that each is tested.
    pub fn new(alloc: Global, sums: Sums, starts: Vec<u32>) -> Result<Widths, AllocError>
        ensures sums { IfOk result (λ w. w.sums ≡ sums) }
        ensures starts { IfOk result (λ w. w.starts.items ≡ starts.items) }
        ensures counted { IfOk result AreCounted }
        ensures changed { IfOk result (λ w. (k : ℕ) → k ≤ length sums → changed_before w k ≡ k) }
    {
        let pieces = sums.count();
        let changes = counts_before(alloc, pieces / BLOCK + 1)?;
        let within = counts_within(alloc, pieces)?;
        Ok(Widths {
            sums,
            starts,
            changes,
            within,
        })
    }

    /// The address of a piece, or of the end.
    pub fn address(&self, k: usize) -> u32
        requires starts { AreStarts (addresses_in self.now) (length self.now.sums) self.now.starts.items }
        requires within { k ≤ length self.now.sums }
        requires room { slice_index self.now.starts.items 0 + sum self.now.sums < 2 ^ 32 }
        ensures { result ≡ slice_index (addresses_in self.now) k }
    {
        self.starts[k / BLOCK] + self.sums.in_block(k)
    }

    // The number of changed pieces before this one, or before the end.
    fn changed_before(&self, k: usize) -> usize
        requires counted { AreCounted self.now }
        requires within { k ≤ length self.now.sums }
        ensures { result ≡ changed_before self.now k }
    {
        self.changes[k / BLOCK] + usize::from(self.within[k])
    }

    /// Whether one of the pieces from one number up to another changed.
    pub fn changed(&self, first: usize, end: usize) -> bool
        requires counted { AreCounted self.now }
        requires within { first ≤ length self.now.sums }
        requires until { end ≤ length self.now.sums }
        ensures { result ≡ false → changed_before self.now first ≡ changed_before self.now end }
    {
        self.changed_before(first) != self.changed_before(end)
    }
}
