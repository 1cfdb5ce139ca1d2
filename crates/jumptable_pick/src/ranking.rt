// Targets in the order in which they get slots.

ghost use Rattle.std.specs.Prelude.{◌≡◌, ◌≤◌, IfOk, IsTrue, length};
ghost use Rattle.std.specs.List.{list_all};
ghost use Rattle.jumptable_pick.specs.Ranking.{is_small, ranking, ranks_from};

use pick_check::part::Part;
use pick_check::saving::Saving;
use std::alloc::{AllocError, Global};
use std::cmp::Reverse;

/// The bytes that a slot for a target saves, and the number of its saving, counted from 1. Ranks are ordered by
/// decreasing savings, and equal ones by the number.
#[derive(Clone, Copy, PartialEq, Eq, PartialOrd, Ord)]
pub struct Rank {
    pub saved: Reverse<u32>,
    pub number: u32,
}

/// The targets in the order in which they get slots of this part, in n log n steps.
pub fn ranking(alloc: Global, part: Part, savings: &[Saving]) -> Result<Vec<Rank>, AllocError>
    requires few { length savings.now ≤ 1048576 }
    requires small { IsTrue (list_all is_small savings.now) }
    ensures { IfOk result (λ ranks. ranks.items ≡ ranking part savings.now) }
{
    let mut ranks = ranks_of(alloc, part, savings)?;
    ranks.sort()?;
    Ok(ranks)
}

// The targets in the order of the savings.
fn ranks_of(alloc: Global, part: Part, savings: &[Saving]) -> Result<Vec<Rank>, AllocError>
    requires few { length savings.now ≤ 1048576 }
    requires small { IsTrue (list_all is_small savings.now) }
    ensures { IfOk result (λ ranks. ranks.items ≡ ranks_from part 0 savings.now) }
{
    let mut ranks = Vec::with_capacity(alloc, savings.len())?;
    for (i, saving) in savings.iter().enumerate() {
        ranks.push(Rank {
            saved: Reverse(part.saved_by(saving) as u32),
            number: i as u32 + 1,
        })?;
    }
    Ok(ranks)
}
