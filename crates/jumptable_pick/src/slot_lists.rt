// The slots of the candidates for the jump table.

ghost use Rattle.std.specs.Prelude.{◌≡◌, ◌≤◌, IfOk, length};
ghost use Rattle.jumptable_pick.specs.Tables.{call_table, chosen, joined, jump_table};

use crate::ranking::Rank;
use std::alloc::{AllocError, Global};

/// The slots of a table for jumps alone.
pub fn jump_table(alloc: Global, jumps: &[Rank]) -> Result<Vec<u32>, AllocError>
    ensures { IfOk result (λ slots. slots.items ≡ jump_table jumps.now) }
{
    chosen(alloc, 4, 32, jumps)
}

/// The slots of a table for jumps and calls.
pub fn call_table(alloc: Global, jumps: &[Rank], calls: &[Rank]) -> Result<Vec<u32>, AllocError>
    ensures { IfOk result (λ slots. slots.items ≡ call_table jumps.now calls.now) }
{
    let low = chosen(alloc, 0, 32, jumps)?;
    let high = chosen(alloc, 4, 224, calls)?;
    joined(low, &high)
}

// Slots for those of the first `most` targets that save more than `above` bytes.
fn chosen(alloc: Global, above: u32, most: usize, ranks: &[Rank]) -> Result<Vec<u32>, AllocError>
    ensures { IfOk result (λ slots. slots.items ≡ chosen above most ranks.now) }
{
    let mut slots = Vec::new(alloc);
    for rank in &ranks[..most.min(ranks.len())] {
        if rank.saved.0 > above {
            slots.push(rank.number)?;
        }
    }
    Ok(slots)
}

// The slots of both parts: those for jumps and, if there are any for calls, holes up to slot 32 and those for calls.
fn joined(mut low: Vec<u32>, high: &[u32]) -> Result<Vec<u32>, AllocError>
    requires { length low.items ≤ 32 }
    ensures { IfOk result (λ slots. slots.items ≡ joined low.items high.now) }
{
    if !high.is_empty() {
        low.resize(32, 0)?;
        low.extend_from_slice(high)?;
    }
    Ok(low)
}
