// Sums over objects, of which each has a limit.

ghost use Rattle.std.specs.Prelude.{◌≡◌, ◌≤◌, ◌<◌, ◌+◌, ◌*◌, ◌^◌, List, ℕ, length, drop, map, take};
ghost use Rattle.std.specs.List.{find, range_with_len, sum_by};
ghost use Rattle.elf32_read.specs.Header.{header_of, section_count};
ghost use Rattle.elf32_read.specs.Parts.{object_parts, relocs_held, relocs_of, section_parts, symbol_parts};
ghost use Rattle.psabi_sym.specs.Faults.{align_room, are_too_large, code_room, common_room, data_room, object_code, reloc_room, sums_of, AreAtMost, with_object};

use crate::loaded::Loaded;
use crate::padding::power_above;
use crate::read_sections::role_of;
use crate::section_row::SectionRole;
use elf32_read::reloc::Reloc;
use elf32_read::relocs::Relocs;
use elf32_read::symbol::COMMON;
use elf32_read::symbol_entry::SymbolEntry;

/// The most bytes that the files of a link have.
pub const MOST_BYTES: u64 = 0x200_0000;

const MOST_CODE: u64 = 0x4_0000;

const MOST_DATA: u64 = 0x40_0000;

// Each of the six classes of data is aligned to 16 bytes.
const CLASS_GAPS: u64 = 96;

const ALIGN: u8 = 43;

/// The number of bytes of the objects' files, and the room that they may take in code and in data.
#[derive(Clone, Copy)]
pub struct Sums {
    pub file_bytes: u64,
    pub code_room: u64,
    pub data_room: u64,
}

// The room that an ALIGN with this addend may take.
fn align_room(addend: i32) -> u32
    ensures value { result ≡ align_room addend }
    ensures most { result ≤ 256 }
{
    if addend < 1 || 255 < addend {
        return 256;
    }
    power_above(addend as u16)
}

// The room that a relocation may take in code.
#[tactic(auto, unfolding(crate::specs::Faults::reloc_room))]
fn reloc_room(reloc: Reloc) -> u32
    ensures value { result ≡ reloc_room reloc }
    ensures most { result ≤ 256 }
{
    if reloc.kind != ALIGN {
        return 0;
    }
    align_room(reloc.addend)
}

// The room of the relocations of a section.
fn relocs_room(relocs: &Relocs) -> u64
    ensures value { result ≡ sum_by reloc_room relocs.now }
    ensures most { result < 2 ^ 40 }
{
    let mut room = 0;
    for k in 0..relocs.len() {
        room += u64::from(reloc_room(relocs.get(k)));
    }
    room
}

// The room that a section may take in code, and in data.
fn section_room(loaded: &Loaded, i: u32) -> (u64, u64)
    requires { i < section_count loaded.now }
    ensures code { result.0 ≡ code_room (section_parts loaded.now i) }
    ensures data_is { result.1 ≡ data_room (section_parts loaded.now i) }
    ensures code_most { result.0 < 2 ^ 41 }
    ensures data_most { result.1 < 2 ^ 34 }
{
    let object = loaded.object();
    let section = object.section_entry(i);
    let size = u64::from(section.size);
    match role_of(&section) {
        SectionRole::Code => {
            let relocs = loaded.relocs_of(&object, i);
            // What has 2 bytes in an object may take 4 in an image.
            let size = if object.is_compressed() {
                2 * size
            } else {
                size
            };
            let room = size + u64::from(section.align.max(4)) + relocs_room(&relocs);
            (room, 0)
        }
        SectionRole::InClass(_) => (0, size + u64::from(section.align.max(1))),
        SectionRole::Dropped => (0, 0),
    }
}

// The room that the sections of an object may take in code, and in data.
fn sections_room(loaded: &Loaded) -> (u64, u64)
    ensures code { result.0 ≡ object_code (object_parts loaded.now) }
    ensures data_is { result.1 ≡ sum_by data_room (object_parts loaded.now).sections }
    ensures code_most { result.0 ≤ 2 ^ 53 }
    ensures data_most { result.1 ≤ 2 ^ 46 }
{
    let mut code = 0;
    let mut held = 0;
    for i in 0..loaded.object().section_count() {
        let room = section_room(loaded, i);
        code += room.0;
        held += room.1;
    }
    (code, held)
}

// The room that a symbol may take in data.
fn common_room(symbol: &SymbolEntry) -> u64
    ensures value { (file : List ℕ) → result ≡ common_room (symbol_parts file symbol.now) }
    ensures most { result ≤ 2 ^ 33 }
{
    if symbol.home != COMMON {
        return 0;
    }
    u64::from(symbol.size) + u64::from(symbol.value.max(1))
}

// The room that the common symbols of an object may take in data.
fn commons_room(loaded: &Loaded) -> u64
    ensures value { result ≡ sum_by common_room (drop 1 (object_parts loaded.now).symbols) }
    ensures most { result ≤ 2 ^ 52 }
{
    let object = loaded.object();
    let mut room = 0;
    for i in 1..object.symbol_count() {
        room += common_room(&object.symbol_entry(i));
    }
    room
}

impl Sums {
    // The sums with one more object.
    fn with(self, loaded: &Loaded) -> Sums
        requires { AreAtMost (2 ^ 62) self }
        ensures value { result ≡ with_object self loaded.now }
        ensures most { (most : ℕ) → AreAtMost most self → AreAtMost (most + 2 ^ 54) result }
    {
        let room = sections_room(loaded);
        Sums {
            file_bytes: self.file_bytes + loaded.len() as u64,
            code_room: self.code_room + room.0,
            data_room: self.data_room + (room.1 + commons_room(loaded)),
        }
    }

    // Whether one of them passes its limit.
    fn are_too_large(&self) -> bool
        requires { self.now.data_room ≤ 2 ^ 63 }
        ensures { result ≡ are_too_large self.now }
    {
        MOST_BYTES < self.file_bytes
            || MOST_CODE < self.code_room
            || MOST_DATA < self.data_room + CLASS_GAPS
    }
}

/// The first object with which a sum is too large.
pub fn first_too_large(objects: &[Loaded]) -> Option<u32>
    requires { length objects.now ≤ 256 }
    ensures { result
        ≡ find (λ i. are_too_large (sums_of (take (i + 1) objects.now))) (range_with_len 0 (length objects.now)) }
{
    let mut sums = Sums {
        file_bytes: 0,
        code_room: 0,
        data_room: 0,
    };
    for (i, object) in objects.iter().enumerate() {
        sums = sums.with(object);
        if sums.are_too_large() {
            return Some(i as u32);
        }
    }
    None
}
