// The room that sections of an object take in the file that is written of it.

ghost use Rattle.std.specs.Prelude.{◌≡◌, ◌≤◌, ◌<◌, ◌+◌, ◌^◌, Some, length, slice_get};
ghost use Rattle.elf32_read.specs.Parts.{SectionParts, is_kept_section};
ghost use Rattle.elf32_write.specs.Image.{padded_length};
ghost use Rattle.psabi_sym.specs.Indexed.{IndexedSection, all_sections};
ghost use Rattle.psabi_sym.specs.Inputs.{parsed};
ghost use Rattle.moved_runs.specs.Passes.{Pass};
ghost use Rattle.object_passes.specs.Rooms.{IsFewBytes, left_sections, name_size, part_room, passed_room, with_room};

use psabi_sym::objects::Objects;
use psabi_sym::section_ref::SectionRef;
use psabi_sym::section_row::SectionRole;

/// How many bytes a pass leaves of a section, and how many relocations. Of a section that is dropped it leaves none.
#[derive(Clone, Copy)]
pub struct LeftSection {
    pub bytes: u32,
    pub relocs: u32,
}

/// Nothing.
pub const NOTHING_LEFT: LeftSection = LeftSection {
    bytes: 0,
    relocs: 0,
};

/// What sections take in a file, with their relocations: how many headers, and how many bytes of contents and of names,
/// each name with the zero after it.
#[derive(Clone, Copy)]
pub struct SectionRoom {
    pub headers: u64,
    pub content: u64,
    pub names: u64,
}

/// No room.
pub const NO_ROOM: SectionRoom = SectionRoom {
    headers: 0,
    content: 0,
    names: 0,
};

// The bytes of `.rela`, and the zero after the name that it begins.
const RELA_NAME: u64 = 6;

impl SectionRoom {
    /// The room with that of one more section.
    pub fn with(self, more: SectionRoom) -> SectionRoom
        requires headers { self.headers ≤ 2 ^ 14 }
        requires bytes { self.content + self.names ≤ 0x40_0000 }
        requires more { IsFewBytes more }
        ensures { result ≡ with_room self more }
    {
        SectionRoom {
            headers: self.headers + more.headers,
            content: self.content + more.content,
            names: self.names + more.names,
        }
    }
}

/// A length, filled up to a multiple of 4.
pub fn padded_length(length: u64) -> u64
    requires { length ≤ 2 ^ 62 }
    ensures { result ≡ padded_length length }
{
    length + (4 - length % 4) % 4
}

/// The bytes of a name in a table: an empty one has none of its own.
pub fn name_size(name: &[u8]) -> u64
    ensures value { result ≡ name_size name.now }
    ensures most { result ≤ length name.now + 1 }
{
    if name.is_empty() {
        return 0;
    }
    name.len() as u64 + 1
}

// The room of a section with this name, of which this is left.
fn room_with(name: &[u8], left: LeftSection) -> SectionRoom
    requires { length name.now ≤ 0x40_0000 }
    ensures room { (s : SectionParts) → s.name ≡ name.now → length s.bytes ≡ left.bytes → length s.relocs ≡ left.relocs
        → result ≡ part_room s }
    ensures few { IsFewBytes result }
{
    let names = name_size(name);
    let content = padded_length(u64::from(left.bytes));
    if left.relocs == 0 {
        return SectionRoom {
            headers: 1,
            content,
            names,
        };
    }
    SectionRoom {
        headers: 2,
        content: content + 12 * u64::from(left.relocs),
        names: names + (RELA_NAME + name.len() as u64),
    }
}

/// Whether a section is kept.
pub fn is_kept(section: &SectionRef) -> bool
    ensures { result ≡ is_kept_section section.now.section }
{
    match section.role() {
        SectionRole::Dropped => false,
        SectionRole::Code | SectionRole::InClass(_) => true,
    }
}

/// The room of a section in the result, by its number among all. It reads its name if it is kept.
pub fn passed_room(objects: &Objects, left: &[LeftSection], k: u32) -> SectionRoom
    requires section { k < length (all_sections (parsed objects.now).objects) }
    requires left { length left.now ≡ length (all_sections (parsed objects.now).objects) }
    ensures room { (pass : Pass) (l : IndexedSection) → left.now ≡ left_sections pass (parsed objects.now).objects
        → slice_get (all_sections (parsed objects.now).objects) k ≡ Some l → result ≡ passed_room pass l }
    ensures few { IsFewBytes result }
{
    // The objects have no fault, so their names aren't longer than a file.
    objects.recall_invariant();
    let section = objects.section(k);
    if !is_kept(&section) {
        return NO_ROOM;
    }
    let object = objects.object(section.object());
    let header = object.section(u32::from(section.index()));
    room_with(header.name, left[k as usize])
}
