// How large the files of a pass's result are, before any is made.

ghost use Rattle.std.specs.Prelude.{◌≡◌, ◌<◌, ◌≤◌, ◌+◌, IfSome, List, ℕ, None, Some};
ghost use Rattle.std.specs.Prelude.{drop, if◌then◌else◌, length, nat_lt, slice_get};
ghost use Rattle.std.specs.Option.{option_or};
ghost use Rattle.elf32_read.specs.Object.{object_fault};
ghost use Rattle.elf32_read.specs.Parts.{ObjectParts, object_parts};
ghost use Rattle.psabi_sym.specs.Indexed.{all_sections};
ghost use Rattle.psabi_sym.specs.Inputs.{parsed};
ghost use Rattle.moved_runs.specs.Passes.{Pass, passed_from, passed_objects};
ghost use Rattle.object_passes.specs.Rooms.{IsRoomUpTo, IsSmallSize, IsSumUpTo, left_sections, parts_room, symbols_room};
ghost use Rattle.object_passes.specs.Sizes.{first_oversized};

use crate::section_room::{
    LeftSection, NO_ROOM, SectionRoom, name_size, padded_length, passed_room,
};
use elf32_read::object::Object;
use psabi_sym::objects::Objects;
use psabi_sym::sums::MOST_BYTES;

// The most bytes of a file.
const MOST_FILE_BYTES: u64 = 0x40_0000;

// The most sections of a file, with section 0.
const MOST_SECTIONS: u64 = 4096;

// The bytes of a file's header.
const HEADER_SIZE: u64 = 52;

const SECTION_HEADER_SIZE: u64 = 40;

const SYMBOL_SIZE: u64 = 16;

// The first zero of the table of the sections' names, and `.symtab`, `.strtab` and `.shstrtab`, each with a zero.
const TABLE_NAMES: u64 = 27;

// Section 0, .symtab, .strtab and .shstrtab.
const OTHER_SECTIONS: u64 = 4;

// The room of the sections of an object's result; none if they alone have too many bytes.
fn sections_room(objects: &Objects, left: &[LeftSection], object: u16) -> Option<SectionRoom>
    requires object { object < length objects.now.files }
    requires left { length left.now ≡ length (all_sections (parsed objects.now).objects) }
    ensures few { IfSome result (λ room. room.headers ≤ 8192) }
    ensures most { IfSome result (λ room. room.content + room.names ≤ 0x40_0000) }
    ensures room { (pass : Pass) (file : List ℕ) → left.now ≡ left_sections pass (parsed objects.now).objects
        → slice_get objects.now.files object ≡ Some file
        → IsRoomUpTo (parts_room (passed_from (pass.section object) 0 (object_parts file).sections)) result }
{
    let mut room = NO_ROOM;
    for i in 0..objects.object(object).section_count() {
        let Some(k) = objects.section_number(object, i as u16) else {
            unreachable!();
        };
        room = room.with(passed_room(objects, left, k));
        if MOST_FILE_BYTES < room.content + room.names {
            return None;
        }
    }
    Some(room)
}

// The bytes of the names of an object's symbols; none if these are too many.
fn symbol_names_size(object: &Object) -> Option<u64>
    requires { object_fault object.now ≡ None }
    ensures { IsSumUpTo (symbols_room (drop 1 (object_parts object.now).symbols)) result }
{
    let mut size = 0;
    for i in 1..object.symbol_count() {
        size += name_size(object.symbol(i).name);
        if MOST_FILE_BYTES < size {
            return None;
        }
    }
    Some(size)
}

// The size of the file that is written of an object, if it isn't too large.
//
// Names may share their bytes in the given file, and each has its own in the result, so their lengths may add up to far
// more than the given file has. No name is read after one with which a sum passes what a file may have: those of the
// sections, and those of the symbols, cost no more than 4 MiB and one name each.
fn file_size(objects: &Objects, left: &[LeftSection], object: u16) -> Option<u64>
    requires object { object < length objects.now.files }
    requires left { length left.now ≡ length (all_sections (parsed objects.now).objects) }
    ensures most { IfSome result (λ size. size ≤ 0x40_0000) }
    ensures size { (pass : Pass) (parts : ObjectParts) → left.now ≡ left_sections pass (parsed objects.now).objects
        → slice_get (passed_objects pass (parsed objects.now).objects) object ≡ Some parts → IsSmallSize parts result }
{
    // No object has a fault.
    objects.recall_invariant();
    let room = sections_room(objects, left, object)?;
    let read = objects.object(object);
    let names = symbol_names_size(&read)?;
    let symbols = u64::from(read.symbol_count().max(1));
    let sections = OTHER_SECTIONS + room.headers;
    let size = HEADER_SIZE
        + room.content
        + SYMBOL_SIZE * symbols
        + padded_length(1 + names)
        + padded_length(TABLE_NAMES + room.names)
        + SECTION_HEADER_SIZE * sections;
    if MOST_SECTIONS < sections || MOST_FILE_BYTES < size {
        return None;
    }
    Some(size)
}

// The first object with which the sum passes what all files may have, by the one so far and the next.
fn passing_next(passing: Option<u32>, sum: u64, next: u32) -> Option<u32>
    ensures { result ≡ option_or passing (if nat_lt 0x200_0000 sum then Some next else None) }
{
    if passing.is_none() && MOST_BYTES < sum {
        return Some(next);
    }
    passing
}

/// The first object of a pass's result whose file has too many sections or bytes, or else the first with which all files
/// have too many bytes, by what the pass leaves of each section, in the order of all sections. It takes no memory, and
/// looks at each section and symbol once. In each object it reads names until what is summed passes 4 MiB.
pub fn first_oversized(objects: &Objects, left: &[LeftSection]) -> Option<u32>
    requires { length left.now ≡ length (all_sections (parsed objects.now).objects) }
    ensures { (pass : Pass) → left.now ≡ left_sections pass (parsed objects.now).objects
        → result ≡ first_oversized (passed_objects pass (parsed objects.now).objects) }
{
    let mut sum = 0;
    let mut passing = None;
    for i in 0..objects.object_count() {
        let Some(size) = file_size(objects, left, i as u16) else {
            return Some(i);
        };
        sum += size;
        passing = passing_next(passing, sum, i);
    }
    passing
}
