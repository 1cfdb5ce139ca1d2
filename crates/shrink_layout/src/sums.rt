// A binary indexed tree of sizes.

ghost use Rattle.std.specs.Prelude.{◌≡◌, ◌+◌, ◌*◌, ◌/◌, ◌<◌, ◌≤◌, ◌^◌, IfOk, length, slice_index, slice_set, take};
ghost use Rattle.std.specs.List.{sum};
ghost use Rattle.shrink_layout.specs.Invariants.Blocks.{block_size};
ghost use Rattle.shrink_layout.specs.Sums.{IsLowPower, IsTree};

use crate::blocks::BLOCK;
use std::alloc::{AllocError, Global};
use std::marker::Model;

/// Sizes, with sums of the first of them. To change a size, and to sum the first ones, takes as many steps as their
/// count has binary digits.
#[derive(Drop)]
pub struct Sums {
    sizes: Vec<u32>,
    nodes: Vec<u32>,
}

impl Model for Sums {
    ghost use Rattle.std.specs.Prelude.{ℕ, List, ◌<◌, ◌^◌};
    ghost use Rattle.std.specs.List.{sum};
    ghost use Rattle.shrink_layout.specs.Sums.{IsTree};

    ghost Value = { List ℕ };

    ghost view = { λ sums. sums.sizes.items };

    ghost invariant = { λ sums. IsTree sums.sizes.items sums.nodes.items × (sum sums.sizes.items < 2 ^ 32) };
}

// The greatest power of two that divides a number.
fn low_power(i: usize) -> usize
    requires { 0 < i }
    ensures power { IsLowPower i result }
    ensures within { result ≤ i }
    ensures some { 0 < result }
{
    1 << i.trailing_zeros()
}

// Makes the nodes in place of the sizes: once a node is complete, it is added to the next one that covers it.
fn make_nodes(nodes: &mut [u32])
    requires { sum nodes.old < 2 ^ 32 }
    ensures { IsTree nodes.old nodes.new }
{
    for i in 0..nodes.len() {
        let above = i + low_power(i + 1);
        if above < nodes.len() {
            nodes[above] += nodes[i];
        }
    }
}

// Changes the nodes as the size with this index changes.
fn update(nodes: &mut [u32], sizes: &[u32], i: usize, size: u32)
    requires tree { IsTree sizes.now nodes.old }
    requires within { i < length sizes.now }
    requires room { sum (slice_set sizes.now i size) < 2 ^ 32 }
    ensures { IsTree (slice_set sizes.now i size) nodes.new }
{
    let old = sizes[i];
    let mut k = i + 1;
    while k <= nodes.len() {
        let step = low_power(k);
        let node = nodes[k - 1];
        nodes[k - 1] = node - old + size;
        k += step;
    }
}

impl Sums {
    /// The tree of these sizes.
    pub fn of(alloc: Global, sizes: Vec<u32>) -> Result<Sums, AllocError>
        requires { sum sizes.items < 2 ^ 32 }
        ensures { IfOk result (λ sums. sums ≡ sizes.items) }
    {
        let mut nodes = Vec::from_slice(alloc, &sizes)?;
        make_nodes(&mut nodes);
        Ok(Sums { sizes, nodes })
    }

    /// The sum of the first `i` sizes.
    pub fn before(&self, i: usize) -> u32
        requires { i ≤ length self.now }
        ensures { result ≡ sum (take i self.now) }
    {
        let mut before = 0;
        let mut k = i;
        while k > 0 {
            let step = low_power(k);
            before += self.nodes[k - 1];
            k -= step;
        }
        before
    }

    /// The sum of the sizes from the first one of the index's block on, in at most six steps.
    #[tactic(auto, using(crate::proofs::LowPowers::low_in_block))]
    pub(crate) fn in_block(&self, i: usize) -> u32
        requires { i ≤ length self.now }
        ensures { sum (take (i / block_size * block_size) self.now) + result ≡ sum (take i self.now) }
    {
        let mut sum = 0;
        let mut k = i;
        while k % BLOCK != 0 {
            let step = low_power(k);
            sum += self.nodes[k - 1];
            k -= step;
        }
        sum
    }

    /// The size with this index.
    pub fn size(&self, i: usize) -> u32
        requires { i < length self.now }
        ensures { result ≡ slice_index self.now i }
    {
        self.sizes[i]
    }

    /// The number of sizes.
    pub fn count(&self) -> usize
        ensures { result ≡ length self.now }
    {
        self.sizes.len()
    }

    /// Changes one size.
    pub fn set(&mut self, i: usize, size: u32)
        requires within { i < length self.old }
        requires room { sum (slice_set self.old i size) < 2 ^ 32 }
        ensures { self.new ≡ slice_set self.old i size }
    {
        update(&mut self.nodes, &self.sizes, i, size);
        self.sizes[i] = size;
    }

    /// The nodes of the tree, one for each size. Node i, counted from 1, is the sum of the last b of the first i sizes,
    /// where b is the greatest power of two that divides i.
    pub fn nodes(&self) -> &[u32]
        ensures { IsTree self.now result.now }
    {
        &self.nodes
    }
}
