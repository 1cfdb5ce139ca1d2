// The tails that are removed from a section.

ghost use Rattle.std.specs.Prelude.{◌≡◌, ◌<◌, IfOk, Some, length, slice_get};
ghost use Rattle.psabi_sym.specs.Indexed.{all_sections, IndexedSection};
ghost use Rattle.psabi_sym.specs.Inputs.{parsed};
ghost use Rattle.tail_merge.specs.RemovedTails.{AreRemovedFrom};

use crate::removed_tail::RemovedTail;
use crate::tail_items::tail_items;
use crate::tail_search::removed_among;
use block_cut::cut::Cut;
use std::alloc::{AllocError, Global};

/// The tails that are removed from a section, by its number among all; none from what isn't code, or is fixed. It takes
/// time near-linear in the section's items.
pub fn removed_tails(alloc: Global, cut: &Cut, section: u32) -> Result<Vec<RemovedTail>, AllocError>
    requires { section < length (all_sections (parsed cut.now).objects) }
    ensures { IfOk result (λ tails. (l : IndexedSection)
        → slice_get (all_sections (parsed cut.now).objects) section ≡ Some l → AreRemovedFrom (parsed cut.now) l tails.items) }
{
    cut.recall_invariant();
    if cut.objects().section_row(section).fixed {
        return Ok(Vec::new(alloc));
    }
    let items = tail_items(alloc, cut, section)?;
    let tails = removed_among(alloc, &items)?;
    Ok(tails)
}
