// How much is left of each section.

ghost use Rattle.std.specs.Prelude.{◌≡◌, ◌<◌, IfOk, length, slice_get, Some};
ghost use Rattle.psabi_sym.specs.Indexed.{IndexedSection, all_sections};
ghost use Rattle.psabi_sym.specs.Inputs.{parsed};
ghost use Rattle.object_passes.specs.Sizes.{first_oversized};
ghost use Rattle.tail_merge.specs.Left.{all_merged_left, merged_left};
ghost use Rattle.tail_merge.specs.Merged.{merged};
ghost use Rattle.tail_merge.specs.MovedTails.{AreAllMoved, tables_of};

use crate::counts::saved_by_all;
use crate::moved_tail::MovedTail;
use block_cut::cut::Cut;
use object_passes::relocs::asking_count;
use object_passes::section_room::{LeftSection, NOTHING_LEFT, is_kept};
use object_passes::sizes::first_oversized;
use std::alloc::{AllocError, Global};

// How much is left of a section, by its number among all.
fn left_section(cut: &Cut, tables: &[Vec<MovedTail>], k: u32) -> LeftSection
    requires section { k < length (all_sections (parsed cut.now).objects) }
    requires tables { AreAllMoved (parsed cut.now) (tables_of tables.now) }
    ensures { (l : IndexedSection) × (slice_get (all_sections (parsed cut.now).objects) k ≡ Some l)
        × (result ≡ merged_left (parsed cut.now) l) }
{
    // The objects have no fault, so no content is longer than a file.
    cut.recall_invariant();
    let section = cut.objects().section(k);
    if !is_kept(&section) {
        return NOTHING_LEFT;
    }
    let bytes = section.bytes().len() as u32;
    LeftSection {
        bytes: bytes - saved_by_all(&tables[k as usize]),
        relocs: asking_count(&section),
    }
}

/// How many bytes and relocations are left of each section, in the order of all sections, in time linear in the
/// sections and relocations.
pub fn left_sections(
    alloc: Global,
    cut: &Cut,
    tables: &[Vec<MovedTail>],
) -> Result<Vec<LeftSection>, AllocError>
    requires { AreAllMoved (parsed cut.now) (tables_of tables.now) }
    ensures { IfOk result (λ left. left.items ≡ all_merged_left (parsed cut.now)) }
{
    let mut left = Vec::new(alloc);
    for k in 0..cut.objects().section_count() {
        left.push(left_section(cut, tables, k))?;
    }
    Ok(left)
}

/// The index of the first object that would be too large with equal tails shared, if one is.
pub fn oversized_index(
    alloc: Global,
    cut: &Cut,
    tables: &[Vec<MovedTail>],
) -> Result<Option<u32>, AllocError>
    requires { AreAllMoved (parsed cut.now) (tables_of tables.now) }
    ensures { IfOk result (λ index. index ≡ first_oversized (merged (parsed cut.now))) }
{
    let left = left_sections(alloc, cut, tables)?;
    Ok(first_oversized(cut.objects(), &left))
}
