// How much is left of each section, before any file is made.

ghost use Rattle.std.specs.Prelude.{◌≡◌, ◌<◌, ◌≤◌, IfOk, Some, length, slice_get};
ghost use Rattle.psabi_sym.specs.Indexed.{IndexedSection, all_sections};
ghost use Rattle.psabi_sym.specs.Inputs.{parsed};
ghost use Rattle.object_passes.specs.Rooms.{counts_of};
ghost use Rattle.object_passes.specs.Sizes.{first_oversized};
ghost use Rattle.section_gc.specs.Cleaned.{cleaned, cleaned_section};
ghost use Rattle.section_gc.specs.Left.{all_left, cleaned_left};
ghost use Rattle.section_gc.specs.Marked.{needed_by};

use object_passes::relocs::asking_count;
use object_passes::section_room::{LeftSection, NOTHING_LEFT, is_kept};
use object_passes::sizes::first_oversized;
use psabi_sym::objects::Objects;
use psabi_sym::section_ref::SectionRef;
use std::alloc::{AllocError, Global};

// How much is left of a kept section, by whether it is needed.
fn cleaned_counts(section: &SectionRef, needed: bool) -> LeftSection
    requires { length section.now.section.bytes ≤ 0x40_0000 }
    ensures { result ≡ counts_of (cleaned_section needed section.now.section) }
{
    if section.is_code() && !needed {
        return NOTHING_LEFT;
    }
    LeftSection {
        bytes: section.bytes().len() as u32,
        relocs: asking_count(section),
    }
}

// How much is left of a section, by its number among all.
fn left_section(objects: &Objects, marks: &[bool], k: u32) -> LeftSection
    requires section { k < length (all_sections (parsed objects.now).objects) }
    requires marks { length marks.now ≡ length (all_sections (parsed objects.now).objects) }
    ensures { (l : IndexedSection) × (slice_get (all_sections (parsed objects.now).objects) k ≡ Some l)
        × (result ≡ cleaned_left (needed_by objects.now marks.now) l) }
{
    // The objects have no fault, so no content is longer than a file.
    objects.recall_invariant();
    let section = objects.section(k);
    if !is_kept(&section) {
        return NOTHING_LEFT;
    }
    cleaned_counts(&section, marks[k as usize])
}

/// How many bytes and relocations are left of each section, in the order of all sections, in time linear in the
/// sections and relocations.
pub fn left_sections(
    alloc: Global,
    objects: &Objects,
    marks: &[bool],
) -> Result<Vec<LeftSection>, AllocError>
    requires { length marks.now ≡ length (all_sections (parsed objects.now).objects) }
    ensures { IfOk result (λ left. left.items ≡ all_left (needed_by objects.now marks.now) (parsed objects.now)) }
{
    let mut left = Vec::new(alloc);
    for k in 0..objects.section_count() {
        left.push(left_section(objects, marks, k))?;
    }
    Ok(left)
}

/// The index of the first object that would be too large without the code that isn't marked, if one is.
pub fn oversized_index(
    alloc: Global,
    objects: &Objects,
    marks: &[bool],
) -> Result<Option<u32>, AllocError>
    requires { length marks.now ≡ length (all_sections (parsed objects.now).objects) }
    ensures { IfOk result (λ index. index
        ≡ first_oversized (cleaned (needed_by objects.now marks.now) (parsed objects.now).objects)) }
{
    let left = left_sections(alloc, objects, marks)?;
    Ok(first_oversized(objects, &left))
}
