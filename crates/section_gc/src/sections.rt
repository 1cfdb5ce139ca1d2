// What is left of an object's sections, as they are written.

ghost use Rattle.std.specs.Prelude.{◌≡◌, ◌<◌, ℕ, Bool, IfOk, length, map};
ghost use Rattle.object_passes.specs.Written.{without_mark};
ghost use Rattle.section_gc.specs.Cleaned.{cleaned_sections};
ghost use Rattle.section_gc.specs.Marked.{given_object};
ghost use Rattle.section_gc.specs.Remains.{remains_in};

use crate::remains::{Remains, number_among_all};
use crate::section_part::section_part;
use elf32_write::object_parts::PartSection;
use psabi_sym::objects::Objects;
use std::alloc::{AllocError, Global};

/// What is left of the sections of an object, in order, by what is left of each, in time linear in their names, bytes
/// and relocations.
pub fn section_parts(
    alloc: Global,
    objects: &Objects,
    object: u16,
    table: &[Remains],
) -> Result<Vec<PartSection>, AllocError>
    requires object { object < length objects.now.files }
    requires count { length table.now ≡ length (given_object objects.now object).sections }
    ensures { IfOk result (λ sections. (needed : ℕ → Bool)
        → table.now ≡ remains_in needed (given_object objects.now object)
        → sections.items ≡ map without_mark (cleaned_sections needed (given_object objects.now object))) }
{
    let mut sections = Vec::new(alloc);
    let given = objects.object(object);
    for i in 0..given.section_count() {
        let remains = table[i as usize];
        if remains.is_something() {
            let section = objects.section(number_among_all(objects, object, i as u16));
            sections.push(section_part(alloc, given.section(i), &section, remains.is_whole())?)?;
        }
    }
    Ok(sections)
}
