// What is left of each section, and its new number.

ghost use Rattle.std.specs.Prelude.{◌≡◌, ◌<◌, [], IfOk, length, slice_get, slice_index_or, Some};
ghost use Rattle.elf32_read.specs.Header.{section_count};
ghost use Rattle.elf32_read.specs.Parts.{SectionParts, section_parts};
ghost use Rattle.psabi_sym.specs.Data.{role_of};
ghost use Rattle.psabi_sym.specs.Indexed.{all_sections};
ghost use Rattle.psabi_sym.specs.Inputs.{parsed};
ghost use Rattle.section_gc.specs.Marked.{given_object, needed_by};
ghost use Rattle.section_gc.specs.Remains.{is_something, is_whole, remains_in, remains_of};

use psabi_sym::objects::Objects;
use psabi_sym::section_row::SectionRole;
use std::alloc::{AllocError, Global};

/// What is left of a section in the result: nothing, if it isn't kept; an empty section, if it is code that isn't
/// needed; or all of it but the relocations that ask for nothing. What is left has a new number in its object.
#[derive(Clone, Copy)]
pub enum Remains {
    Nothing,
    Empty(u16),
    Whole(u16),
}

impl Remains {
    /// Whether a section is left, empty or not.
    pub fn is_something(self) -> bool
        ensures { result ≡ is_something self }
    {
        match self {
            Remains::Nothing => false,
            Remains::Empty(_) | Remains::Whole(_) => true,
        }
    }

    /// Whether it isn't emptied.
    pub fn is_whole(self) -> bool
        ensures { result ≡ is_whole self }
    {
        match self {
            Remains::Nothing | Remains::Empty(_) => false,
            Remains::Whole(_) => true,
        }
    }
}

// What is left of a section of this role, by whether it is needed.
fn remains_of(role: SectionRole, needed: bool, number: u16) -> Remains
    ensures { (s : SectionParts) → role ≡ role_of s → result ≡ remains_of needed number s }
{
    match role {
        SectionRole::Dropped => Remains::Nothing,
        SectionRole::InClass(_) => Remains::Whole(number),
        SectionRole::Code => {
            if needed {
                Remains::Whole(number)
            } else {
                Remains::Empty(number)
            }
        }
    }
}

/// The number of a section among all, by its object's index and its own.
pub(crate) fn number_among_all(objects: &Objects, object: u16, index: u16) -> u32
    requires object { object < length objects.now.files }
    requires index { index < section_count (slice_index_or objects.now.files object []) }
    ensures { slice_get (all_sections (parsed objects.now).objects) result ≡ Some (record {
      object = object;
      index = index;
      section = section_parts (slice_index_or objects.now.files object []) index;
    }) }
{
    match objects.section_number(object, index) {
        None => unreachable!(),
        Some(k) => k,
    }
}

/// What is left of each section of an object, in time linear in their number.
pub fn remains_in(
    alloc: Global,
    objects: &Objects,
    marks: &[bool],
    object: u16,
) -> Result<Vec<Remains>, AllocError>
    requires object { object < length objects.now.files }
    requires marks { length marks.now ≡ length (all_sections (parsed objects.now).objects) }
    ensures { IfOk result (λ table. table.items
        ≡ remains_in (needed_by objects.now marks.now object) (given_object objects.now object)) }
{
    let mut table = Vec::new(alloc);
    let mut number = 1;
    for i in 0..objects.object(object).section_count() {
        let k = number_among_all(objects, object, i as u16);
        let remains = remains_of(objects.section_row(k).role, marks[k as usize], number);
        if remains.is_something() {
            number += 1;
        }
        table.push(remains)?;
    }
    Ok(table)
}
