// The tails that are removed from each section.

ghost use Rattle.std.specs.Prelude.{IfOk};
ghost use Rattle.psabi_sym.specs.Inputs.{parsed};
ghost use Rattle.tail_merge.specs.RemovedTails.{AreAllRemoved, lists_of};

use crate::removed_tail::RemovedTail;
use crate::removed_tails::removed_tails;
use block_cut::cut::Cut;
use std::alloc::{AllocError, Global};

/// The tails that are removed from each section, by its number among all. It takes time near-linear in the items.
pub fn all_removed_tails(alloc: Global, cut: &Cut) -> Result<Vec<Vec<RemovedTail>>, AllocError>
    ensures { IfOk result (λ lists. AreAllRemoved (parsed cut.now) (lists_of lists.items)) }
{
    let mut lists = Vec::new(alloc);
    for section in 0..cut.objects().section_count() {
        lists.push(removed_tails(alloc, cut, section)?)?;
    }
    Ok(lists)
}
